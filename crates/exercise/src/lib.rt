// A request for exercise on the expiry evening. It reads a position and changes none.
#![tactic(auto)]

ghost use Rattle.std.specs.Prelude.{true, ◌≡◌, ◌*◌, ◌≤◌, leb};
ghost use Rattle.exercise.specs.Exercise.{exercise_verdict, request_allowed, taken, brought};

use rules::net;
use terms::{Contracts, Measure, Position, Refusal, Right, Units, Verdict, unit_allowed};

// What is offered is fen for a call, units of the underlying for a put. The parameters are the definition's (`exercise_verdict`).
#[tactic(auto, unfolding(crate::specs::Exercise::exercise_verdict, crate::specs::Exercise::request_allowed, crate::specs::Exercise::long_left))]
pub fn exercise(
    right: Right,
    strike: u32,
    unit: u32,
    position: Position,
    count: Contracts,
    offered: u64,
) -> Verdict
    ensures { result ≡ exercise_verdict right strike unit position count offered }
{
    let allowed = Measure::Exercise.allows(count.0 as u64)
        & Measure::Price.allows(strike as u64)
        & unit_allowed(unit as u64);
    let netted = net(position);
    let covered = count.0 <= netted.long.0;
    if !allowed {
        return Err(Refusal::OutOfRange);
    }
    if !covered {
        return Err(Refusal::LongTooSmall);
    }
    if !reached(right, strike, unit, count, offered) {
        return Err(Refusal::MeansTooSmall);
    }
    Ok(())
}

// Asked once the ranges hold: they keep strike times unit times the count within 64 bits.
#[tactic(auto, unfolding(crate::specs::Exercise::request_allowed, crate::specs::Exercise::taken, crate::specs::Exercise::brought, terms::specs::Counts::units_for))]
fn reached(right: Right, strike: u32, unit: u32, count: Contracts, offered: u64) -> bool
    requires { request_allowed strike unit count ≡ true }
    ensures { result ≡ leb (taken right strike unit count) (brought right offered) }
{
    match right {
        Right::Call => paid(strike, count.units(unit), offered),
        Right::Put => count.units(unit).0 <= offered,
    }
}

// The price is brought to whole fen, upwards: a hundred times the fen offered, in the price's own 0.0001 yuan, could pass 64 bits.
fn paid(strike: u32, units: Units, offered: u64) -> bool
    requires { strike * units.0 ≤ 10_000_000_000_000_000 }
    ensures { result ≡ leb (strike * units.0) (100 * offered) }
{
    let due = strike as u64 * units.0;
    // No `div_ceil`: rustc compiles this source too, from Rust 1.63 on (`host/native`), which has none.
    (due + 99) / 100 <= offered
}
