// One client's account.
ghost use Rattle.std.specs.Prelude.{◌≡◌, ◌^◌, ◌<◌};
ghost use Rattle.account.specs.Changes.{applied, written};
ghost use Rattle.account.specs.Room.{Movable, Moves};
ghost use Rattle.account.specs.Opening.{opening};
ghost use Rattle.account.specs.Rows.{free};
ghost use Rattle.account.specs.Running.{free_at, free_moved, ordered};
ghost use Rattle.account.specs.Totals.{is_kind, is_open};

use crate::judged::Change;
use crate::numbered::{put, row};
use crate::running::{Running, closing_changed};
use crate::term::counted;
use terms::{Contracts, OrderKind, Position, Units};

// All 32 places are free, as binary digits.
pub const ALL_FREE: u32 = 4_294_967_295;

// The money sheet, in fen. Covered premium is what was received today for covered opening. That it is sound is asked where it matters and no
// ghost field: postings are stated of any sheet (`posted_one`).
#[derive(Clone, Copy, Default)]
pub struct Sheet {
    pub cash: u64,
    pub premium: u64,
    pub holds: u64,
    pub margin: u64,
}

// An order that rests, or a free place. The kind is the paper's number, 1 to 6, since document 01 has a free place all zero (`free`).
#[derive(Clone, Copy, Default)]
pub struct Resting {
    pub number: u32,
    pub contract: u16,
    pub kind: u16,
    pub left: Contracts,
    pub price: u32,
}

impl Resting {
    pub fn free() -> Resting
        ensures { result ≡ free }
    {
        Resting::default()
    }

    pub fn is(self, kind: OrderKind) -> bool
        ensures { result ≡ is_kind kind self.kind }
    {
        self.kind == u16::from(kind)
    }

    pub(crate) fn opens(self) -> bool
        ensures { result ≡ is_open self.kind }
    {
        self.is(OrderKind::BuyOpen)
            || self.is(OrderKind::SellOpen)
            || self.is(OrderKind::CoveredOpen)
    }
}

// What stands for one underlying: its locked units, and how many contracts were bought open today.
#[derive(Clone, Copy, Default)]
pub struct Holding {
    pub locked: Units,
    pub bought: Contracts,
}

// One request for a payout may wait; 0 where none does, since an amount that is asked for is at least 1: a number, as a term of the holds is. Running totals of each underlying,
// resting closes on each contract, by the count that they close, and the free places, a binary digit for each, are kept as we go: they
// could be summed from positions and orders, which is what they are proved to be. Arrays of structs, as document 01 names the form.
#[derive(Clone, Copy)]
pub struct Account {
    pub sheet: Sheet,
    pub waiting: u64,
    pub positions: [Position; terms::CONTRACTS],
    pub orders: [Resting; terms::PLACES],
    pub holdings: [Holding; terms::UNDERLYINGS],
    pub running: [Running; terms::UNDERLYINGS],
    pub closing: [Position; terms::CONTRACTS],
    pub free: u32,
    pub last: u32,
}

impl Account {
    // Cash alone: nothing is held, nothing waits or rests, and no number was accepted.
    pub fn opening(cash: u64) -> Account
        ensures { result ≡ opening cash }
    {
        Account {
            sheet: Sheet {
                cash,
                ..Sheet::default()
            },
            waiting: 0,
            positions: [Position::default(); terms::CONTRACTS],
            orders: [Resting::free(); terms::PLACES],
            holdings: [Holding::default(); terms::UNDERLYINGS],
            running: [Running::default(); terms::UNDERLYINGS],
            closing: [Position::default(); terms::CONTRACTS],
            free: ALL_FREE,
            last: 0,
        }
    }

    // The one place that writes a change into an account: what changed, and what is kept of it, which moves by what stood there and what
    // stands there now. A number past the last contract, place or underlying names none: what it would write is not there.
    #[tactic(auto, unfolding(crate::specs::Changes::applied))]
    pub fn apply(&mut self, change: Change)
        requires { Movable self.old change }
        ensures { self.new ≡ applied self.old change }
    {
        let was = row(&self.positions, change.contract, Position::default());
        let had = row(&self.orders, change.place, Resting::free());
        let o = ordered(had, change.order);
        let u = change.underlying;
        let closing = closing_changed(
            row(&self.closing, o, Position::default()),
            had,
            change.order,
        );
        let running = row(&self.running, u, Running::default()).changed(
            change.unit,
            was,
            had,
            change.position,
            change.order,
        );
        self.free = free_moved(self.free, change.place, had, change.order);
        put(&mut self.closing, o, closing);
        put(&mut self.running, u, running);
        self.write(change);
    }

    // The change alone, with all that is kept as it was.
    fn write(&mut self, change: Change)
        ensures { self.new ≡ written self.old change }
    {
        put(&mut self.positions, change.contract, change.position);
        put(&mut self.orders, change.place, change.order);
        put(&mut self.holdings, change.underlying, change.holding);
        self.sheet = change.sheet;
        self.waiting = change.waiting.unwrap_or(self.waiting);
        self.last = change.last;
    }
}

// The contract whose resting order changes: that of the new order, or of the old one where a place is given up.
fn ordered(old: Resting, new: Resting) -> usize
    ensures { result ≡ ordered old new }
{
    if new.number == 0 {
        old.contract as usize
    } else {
        new.contract as usize
    }
}

// The free places where the order at one place is another.
fn free_moved(free: u32, place: usize, old: Resting, new: Resting) -> u32
    requires { place < 32 → Moves 32 free (free_at place old) (free_at place new) }
    ensures { result ≡ free_moved free place old new }
{
    if place < terms::PLACES {
        let digit = digit(place);
        free - counted(digit, old.number == 0) + counted(digit, new.number == 0)
    } else {
        free
    }
}

// The binary digit of a place.
fn digit(place: usize) -> u32
    requires { place < 32 }
    ensures { result ≡ 2 ^ place }
{
    1u32 << place
}
