// The facts of an order.
ghost use Rattle.std.specs.Prelude.{true, ◌≡◌};
ghost use Rattle.account.specs.Orders.{covered_put, facts_in, facts_of, no_facts, order_allowed};
ghost use Rattle.account.specs.Seen.{SeenOf, Wherever};
ghost use Rattle.gathering.specs.Allowed.{AllowedSeen};
ghost use Rattle.account.specs.Totals.{count_of};

use account::{Facts, Seen};
use entries::{Entry, Order};
use money::{available, hold_one};
use terms::{Contracts, Measure, Position, Right, Side, Units};

pub fn gather(seen: Seen, order: Order) -> Facts
    requires { SeenOf (Entry.Order order) seen }
    ensures { Wherever (Entry.Order order) seen (λ t a. result ≡ facts_of t a order) }
{
    if allowed(seen, order) {
        known(seen, order)
    } else {
        no_facts()
    }
}

// The facts of an order whose values are allowed. Nothing is summed: the account keeps what would be. Each free place is a binary digit, so the
// lowest one is where the zeros at the end of that number stop.
fn known(seen: Seen, order: Order) -> Facts
    requires { AllowedSeen order seen }
    ensures { Wherever (Entry.Order order) seen (λ t a. (order_allowed t order ≡ true → result ≡ facts_in t a order)) }
{
    let side = order.kind.moves();
    let contract = seen.contract;
    let running = seen.running;
    let one = hold_one(order.kind, contract, seen.limits, order.price);
    Facts {
        allowed: true,
        last: seen.last,
        place: u32::trailing_zeros(seen.free) as usize,
        position: Contracts(count(side, seen.position)),
        closing: Contracts(count(side, seen.closing)),
        rights: Contracts(running.long.0 + running.buys.0),
        total: running.total,
        underlying: contract.underlying,
        limits: seen.limits,
        holding: seen.holding,
        spare: Units(seen.holding.locked.0 - running.taken.0),
        needed: Contracts(order.quantity).units(contract.unit),
        sheet: seen.sheet,
        available: available(seen.sheet),
        hold: order.quantity as u64 * one,
        unit: contract.unit,
    }
}

// Whether the order's values are in their ranges and its contract in the tables; covered is for calls only.
fn allowed(seen: Seen, order: Order) -> bool
    ensures { Wherever (Entry.Order order) seen (λ t a. result ≡ order_allowed t order) }
{
    if order.contract as usize >= seen.n {
        return false;
    }
    Measure::Quantity.allows(order.quantity as u64)
        & Measure::Price.allows(order.price as u64)
        & !covered_put(order.kind.moves(), seen.contract.right)
}

fn covered_put(side: Side, right: Right) -> bool
    ensures { result ≡ covered_put side right }
{
    (side == Side::Covered) & (right == Right::Put)
}

fn count(side: Side, position: Position) -> u32
    ensures { result ≡ count_of side position }
{
    match side {
        Side::Long => position.long.0,
        Side::Short => position.short.0,
        Side::Covered => position.covered.0,
    }
}

fn no_facts() -> Facts
    ensures { result ≡ no_facts }
{
    Facts::default()
}
