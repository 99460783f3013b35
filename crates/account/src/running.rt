// What is kept as we go: totals of an underlying, and closes that rest on a contract. Where a position or an order changes, what stood there
// is taken off and what stands there is put on.
ghost use Rattle.std.specs.Prelude.{◌≡◌};
ghost use Rattle.account.specs.Running.{closing_moved, closing_of, instead, running_moved, running_of};
ghost use Rattle.account.specs.Room.{ClosingMoves, Moves, RunningFits, RunningMoves};

use crate::account::Resting;
use crate::term::counted;
use terms::{Contracts, OrderKind, Position, Units};

// Of one underlying: contracts long, all that counts against the total limit, what is left of resting buy opens and of all resting opens, and
// the units that cover or are reserved.
#[derive(Clone, Copy, Default)]
pub struct Running {
    pub long: Contracts,
    pub total: Contracts,
    pub buys: Contracts,
    pub opens: Contracts,
    pub taken: Units,
}

impl Running {
    // What a position and an order count for, their contract being of so many units: the definition's three (`running_of`).
    fn of(position: Position, order: Resting, unit: u32) -> Running
        requires { RunningFits (running_of position order unit) }
        ensures { result ≡ running_of position order unit }
    {
        let left = order.left;
        let opens = counted(left.0, order.opens());
        let reserved = Contracts(counted(left.0, order.is(OrderKind::CoveredOpen)));
        Running {
            long: position.long,
            total: Contracts(position.long.0 + position.short.0 + position.covered.0 + opens),
            buys: Contracts(counted(left.0, order.is(OrderKind::BuyOpen))),
            opens: Contracts(opens),
            taken: Units(position.covered.units(unit).0 + reserved.units(unit).0),
        }
    }

    // The totals where a position and an order on a contract of so many units are others.
    pub(crate) fn changed(
        self,
        unit: u32,
        was: Position,
        had: Resting,
        position: Position,
        order: Resting,
    ) -> Running
        requires { RunningMoves self (running_of was had unit) (running_of position order unit) }
        ensures { result ≡ running_moved self (running_of was had unit) (running_of position order unit) }
    {
        let old = Running::of(was, had, unit);
        let new = Running::of(position, order, unit);
        self.moved(old, new)
    }

    fn moved(self, old: Running, new: Running) -> Running
        requires { RunningMoves self old new }
        ensures { result ≡ running_moved self old new }
    {
        Running {
            long: instead(self.long, old.long, new.long),
            total: instead(self.total, old.total, new.total),
            buys: instead(self.buys, old.buys, new.buys),
            opens: instead(self.opens, old.opens, new.opens),
            taken: Units(self.taken.0 - old.taken.0 + new.taken.0),
        }
    }
}

// What an order counts for among the closes that rest on its contract, by the count that it closes.
fn closes(order: Resting) -> Position
    ensures { result ≡ closing_of order }
{
    let left = order.left;
    Position {
        long: Contracts(counted(left.0, order.is(OrderKind::SellClose))),
        short: Contracts(counted(left.0, order.is(OrderKind::BuyClose))),
        covered: Contracts(counted(left.0, order.is(OrderKind::CoveredClose))),
    }
}

// The closes that rest on a contract where one of its orders is another.
pub(crate) fn closing_changed(closing: Position, had: Resting, order: Resting) -> Position
    requires { ClosingMoves closing (closing_of had) (closing_of order) }
    ensures { result ≡ closing_moved closing (closing_of had) (closing_of order) }
{
    closing_moved(closing, closes(had), closes(order))
}

fn closing_moved(closing: Position, old: Position, new: Position) -> Position
    requires { ClosingMoves closing old new }
    ensures { result ≡ closing_moved closing old new }
{
    Position {
        long: instead(closing.long, old.long, new.long),
        short: instead(closing.short, old.short, new.short),
        covered: instead(closing.covered, old.covered, new.covered),
    }
}

// A sum in which one term is another.
fn instead(kept: Contracts, old: Contracts, new: Contracts) -> Contracts
    requires { Moves 32 kept.0 old.0 new.0 }
    ensures { result.0 ≡ instead kept.0 old.0 new.0 }
{
    Contracts(kept.0 - old.0 + new.0)
}
