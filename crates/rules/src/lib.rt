// The exchange's arithmetic: the margin and the premium of one contract, and netting.
#![tactic(auto)]

mod amount;

ghost use Rattle.std.specs.Prelude.{◌≡◌};
ghost use Rattle.rules.specs.Charges.{margin_charge, premium_charge};
ghost use Rattle.rules.specs.Netting.{netted};

use amount::{amount, rates_of};
use terms::{Class, Contracts, Measure, Position, Refusal, Right, unit_allowed};

// What one contract costs in fen, or why that is not said. The parameters are the definition's (`margin_charge`).
#[tactic(auto, unfolding(crate::specs::Charges::margin_charge, crate::specs::Charges::margin_allowed))]
pub fn margin(
    class: Class,
    right: Right,
    settlement: u32,
    close: u32,
    strike: u32,
    unit: u32,
) -> Result<u64, Refusal>
    ensures { result ≡ margin_charge class right settlement close strike unit }
{
    if Measure::Settlement.allows(settlement as u64)
        & Measure::Price.allows(close as u64)
        & Measure::Price.allows(strike as u64)
        & unit_allowed(unit as u64)
    {
        let amount = amount(rates_of(class, right), right, settlement, close, strike);
        Ok((unit as u64 * amount + 5_000) / 10_000)
    } else {
        Err(Refusal::OutOfRange)
    }
}

#[tactic(auto, unfolding(crate::specs::Charges::premium_charge, crate::specs::Charges::premium_allowed, crate::specs::Premium::premium_of))]
pub fn premium(price: u32, unit: u32) -> Result<u64, Refusal>
    ensures { result ≡ premium_charge price unit }
{
    if Measure::Price.allows(price as u64) & unit_allowed(unit as u64) {
        Ok(price as u64 * unit as u64 / 100)
    } else {
        Err(Refusal::OutOfRange)
    }
}

// Long against short first, then what is left of long against covered.
#[tactic(auto, unfolding(crate::specs::Netting::netted, crate::specs::Netting::against_short, crate::specs::Netting::against_covered))]
pub fn net(position: Position) -> Position
    ensures { result ≡ netted position }
{
    let long = position.long.0;
    let short = position.short.0;
    let covered = position.covered.0;
    let off_short = long.min(short);
    let left = long - off_short;
    let off_covered = left.min(covered);
    Position {
        long: Contracts(left - off_covered),
        short: Contracts(short - off_short),
        covered: Contracts(covered - off_covered),
    }
}
