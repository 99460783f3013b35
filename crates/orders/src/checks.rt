// The verdict on an order, by its facts.
ghost use Rattle.std.specs.Prelude.{◌≡◌, map, ◌+◌, leb};
ghost use Rattle.terms.specs.Verdicts.{accept, ◌else◌then◌};
ghost use Rattle.account.specs.Checks.{columns, order_verdict, passes, refusal_for};

use account::Facts;
use entries::Order;
use money::within;
use terms::{Refusal, Verdict};

const COLUMNS: usize = 9;

// Which checks an order meets: a row of nine for each kind, in the order 4, 6, 8, 9, 10, 11, 12, 13, 14.
const CHECKS: [bool; 54] = [
    true, true, true, false, true, true, true, false, true, // 1 buy open
    true, true, true, true, false, false, false, false, false, // 2 sell close
    true, true, true, false, false, true, false, false, true, // 3 sell open
    true, true, true, true, false, false, false, false, true, // 4 buy close
    true, true, true, false, false, true, false, true, false, // 5 covered open
    true, true, true, true, false, false, false, false, true, // 6 covered close
];

// The row of the order's kind is walked from left to right; the first check that is met and fails refuses.
pub(crate) fn verdict(facts: Facts, order: Order) -> Verdict
    ensures { result ≡ order_verdict facts order }
{
    let row = COLUMNS * (u16::from(order.kind) as usize - 1);
    let checks = checks(facts, order);
    // By the column, which the flags go by too.
    for (column, check) in checks.iter().enumerate() {
        if CHECKS[row + column] {
            (*check)?;
        }
    }
    Ok(())
}

// The nine checks, in the columns' order.
fn checks(facts: Facts, order: Order) -> [Verdict; COLUMNS]
    ensures { result ≡ map (λ check. passes check facts order else refusal_for check then accept) columns }
{
    let limits = facts.limits;
    let daily = facts.holding.bought;
    [
        test(facts.allowed, Refusal::OutOfRange),
        test(facts.last < order.number, Refusal::StaleNumber),
        test(facts.place < terms::PLACES, Refusal::OrdersFull),
        test(
            room(facts.closing.0, order.quantity, facts.position.0),
            Refusal::PositionTooSmall,
        ),
        test(
            room(facts.rights.0, order.quantity, limits.rights as u32),
            Refusal::RightsPassed,
        ),
        test(
            room(facts.total.0, order.quantity, limits.total as u32),
            Refusal::TotalPassed,
        ),
        test(
            room(daily.0, order.quantity, limits.daily as u32),
            Refusal::DailyPassed,
        ),
        test(facts.needed.0 <= facts.spare.0, Refusal::SpareTooFew),
        test(
            within(facts.hold, facts.available),
            Refusal::AvailablePassed,
        ),
    ]
}

fn test(passed: bool, why: Refusal) -> Verdict
    ensures { result ≡ (passed else why then accept) }
{
    if passed { Ok(()) } else { Err(why) }
}

// The new order counted; a sum equal to the limit is accepted.
fn room(taken: u32, quantity: u32, limit: u32) -> bool
    ensures { result ≡ leb (taken + quantity) limit }
{
    taken as u64 + quantity as u64 <= limit as u64
}
