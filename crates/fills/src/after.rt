// What a fill leaves: the sheet, the position and the order after it.
ghost use Rattle.std.specs.Prelude.{◌≡◌, ◌≤◌};
ghost use Rattle.account.specs.Fills.{moved, order_after, sheet_after, shifted};
ghost use Rattle.account.specs.Totals.{count_of};
ghost use Rattle.fills.specs.Posts.{margin_posting, premium_posting};
ghost use Rattle.fills.specs.Takes.{Exact, Shifts};

use account::{Named, Resting, Sheet};
use entries::Fill;
use postings::{Posting, posted};
use terms::{Contracts, OrderKind, Position, Side};

// Its share of the hold is freed, the premium is paid or received, and margin moves with short.
#[tactic(auto, using(crate::proofs::Posted::fill_posted), unfolding(rules::specs::Count::for_count))]
pub(crate) fn sheet_after(named: Named, kind: OrderKind, fill: Fill, sum: u64) -> Sheet
    requires { Exact named fill kind sum }
    ensures { result ≡ sheet_after named fill kind }
{
    let q = fill.quantity as u64;
    let share = q * named.hold;
    let side = kind.moves();
    let freed = posted(named.sheet, Posting::HoldFreed(share));
    let paid = posted(freed, premium_posting(side, kind.buys(), sum));
    match side {
        Side::Long => paid,
        Side::Short => posted(paid, margin_posting(kind.opens(), q * named.margin)),
        Side::Covered => paid,
    }
}

// Buys pay from cash; of the sells a covered open alone receives no cash.
fn premium_posting(side: Side, buys: bool, sum: u64) -> Posting
    ensures { result ≡ premium_posting side buys sum }
{
    if buys {
        return Posting::CashOut(sum);
    }
    match side {
        Side::Long => Posting::CashIn(sum),
        Side::Short => Posting::CashIn(sum),
        Side::Covered => Posting::CoveredPremium(sum),
    }
}

fn margin_posting(opens: bool, sum: u64) -> Posting
    ensures { result ≡ margin_posting opens sum }
{
    if opens {
        Posting::MarginTaken(sum)
    } else {
        Posting::MarginFreed(sum)
    }
}

// The count that the kind moves: an open adds to it, a close takes off it.
pub(crate) fn moved(side: Side, opens: bool, quantity: u32, position: Position) -> Position
    requires { Shifts 32 opens (count_of side position) quantity }
    ensures { result ≡ moved side opens quantity position }
{
    match side {
        Side::Long => Position {
            long: counted(opens, position.long, quantity),
            ..position
        },
        Side::Short => Position {
            short: counted(opens, position.short, quantity),
            ..position
        },
        Side::Covered => Position {
            covered: counted(opens, position.covered, quantity),
            ..position
        },
    }
}

fn counted(up: bool, count: Contracts, by: u32) -> Contracts
    requires { Shifts 32 up count.0 by }
    ensures { result.0 ≡ shifted up count.0 by }
{
    if up {
        Contracts(count.0 + by)
    } else {
        Contracts(count.0 - by)
    }
}

// With nothing left the place is free.
pub(crate) fn order_after(order: Resting, quantity: u32) -> Resting
    requires { quantity ≤ order.left.0 }
    ensures { result ≡ order_after order quantity }
{
    if order.left.0 == quantity {
        return Resting::free();
    }
    Resting {
        left: Contracts(order.left.0 - quantity),
        ..order
    }
}
