// What one contract costs: its margin, its premium, and what an order holds for it.
ghost use Rattle.std.specs.Prelude.{◌≡◌};
ghost use Rattle.money.specs.Charged.{hold_charged, margin_charged, premium_charged};

use entries::{Contract, Underlying};
use rules::{margin, premium};
use terms::OrderKind;

pub fn hold_one(kind: OrderKind, contract: Contract, row: Underlying, price: u32) -> u64
    ensures { result ≡ hold_charged kind contract row price }
{
    match kind {
        OrderKind::BuyOpen => premium_one(price, contract.unit),
        OrderKind::SellClose => 0,
        OrderKind::SellOpen => margin_one(contract, row),
        OrderKind::BuyClose => premium_one(price, contract.unit),
        OrderKind::CoveredOpen => 0,
        OrderKind::CoveredClose => premium_one(price, contract.unit),
    }
}

// The figures of a sound account are in their ranges, so a charge is never refused there.
#[tactic(auto, unfolding(rules::specs::Charges::fen_in))]
pub fn margin_one(contract: Contract, row: Underlying) -> u64
    ensures { result ≡ margin_charged contract row }
{
    margin(
        row.class,
        contract.right,
        contract.settlement,
        row.close,
        contract.strike,
        contract.unit,
    )
    .unwrap_or(0)
}

#[tactic(auto, unfolding(rules::specs::Charges::fen_in))]
pub fn premium_one(price: u32, unit: u32) -> u64
    ensures { result ≡ premium_charged price unit }
{
    premium(price, unit).unwrap_or(0)
}
