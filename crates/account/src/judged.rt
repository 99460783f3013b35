// What an entry is judged by, the verdict, and what an accepted entry changes.
ghost use Rattle.std.specs.Prelude.{◌≡◌};
ghost use Rattle.account.specs.Changes.{of_sheet};

use crate::account::{Account, Holding, Resting, Sheet};
use crate::running::Running;
use crate::tables::Tables;
use entries::{Contract, Underlying};
use terms::{Contracts, Position, Units, Verdict};

// What an entry is judged by, read off tables and account where it names them: how many underlyings and contracts there are, the money, the
// numbers, and the rows of one place, one contract and one underlying. Where it names none, the first row stands there and is not asked.
// That it is seen of sound tables and a sound account hangs on the entry, so that contracts say it (`SeenOf`) and no ghost field.
#[derive(Clone, Copy)]
pub struct Seen {
    pub n: usize,
    pub m: usize,
    pub sheet: Sheet,
    pub waiting: u64,
    pub last: u32,
    pub free: u32,
    pub place: usize,
    pub order: Resting,
    pub contract: Contract,
    pub position: Position,
    pub closing: Position,
    pub limits: Underlying,
    pub holding: Holding,
    pub running: Running,
}

// The facts of an order; of one whose values are not allowed nothing else is known. `allowed` stands among them and no Option around them:
// it is the first of the nine columns that a row of the table of checks is walked by. Position is the count that the order moves and
// closing what rests of closes of that count on its contract; rights and total are what counts against those limits already.
#[derive(Clone, Copy, Default)]
pub struct Facts {
    pub allowed: bool,
    pub last: u32,
    pub place: usize,
    pub position: Contracts,
    pub closing: Contracts,
    pub rights: Contracts,
    pub total: Contracts,
    pub underlying: u16,
    pub limits: Underlying,
    pub holding: Holding,
    pub spare: Units,
    pub needed: Units,
    pub sheet: Sheet,
    pub available: i64,
    pub hold: u64,
    pub unit: u32,
}

// The facts of a fill and of a cancel: the order that the number names, at its place, with what one contract of it holds and what
// one contract's margin is. Where no order has the number, the place is past the last and the order is a free one.
#[derive(Clone, Copy)]
pub struct Named {
    pub place: usize,
    pub order: Resting,
    pub position: Position,
    pub unit: u32,
    pub underlying: u16,
    pub holding: Holding,
    pub hold: u64,
    pub margin: u64,
    pub sheet: Sheet,
    pub last: u32,
}

// What an accepted entry leaves: the sheet, how much waits from now on (0 where nothing does any more, none where it stays as it is), one contract's position, one place's order, one underlying's holding, and the last
// accepted number. A contract, a place or an underlying past the last one names none, and then nothing of its sort changes; numbers and no
// Options, since `applied` and the sums that are kept read rows by number. Position and
// order are on one contract of that underlying, of so many units.
#[derive(Clone, Copy)]
pub struct Change {
    pub sheet: Sheet,
    pub waiting: Option<u64>,
    pub contract: usize,
    pub position: Position,
    pub place: usize,
    pub order: Resting,
    pub unit: u32,
    pub underlying: usize,
    pub holding: Holding,
    pub last: u32,
}

impl Change {
    // A change of money alone: no contract, no place and no underlying is named.
    pub fn of_sheet(sheet: Sheet, waiting: Option<u64>, last: u32) -> Change
        ensures { result ≡ of_sheet sheet waiting last }
    {
        Change {
            sheet,
            waiting,
            contract: terms::CONTRACTS,
            position: Position::default(),
            place: terms::PLACES,
            order: Resting::free(),
            unit: 0,
            underlying: terms::UNDERLYINGS,
            holding: Holding::default(),
            last,
        }
    }
}

// What is decided about an accepted entry: what it changes, or that the day ends, which goes through all rows.
#[derive(Clone, Copy)]
pub enum Decision {
    Changes(Change),
    DayEnds,
}

// What an entry leads to: the verdict, and tables and account after it.
#[derive(Clone, Copy)]
pub struct Outcome {
    pub verdict: Verdict,
    pub tables: Tables,
    pub account: Account,
}
