// The amount A that the margin of one contract is made from.
ghost use Rattle.std.specs.Prelude.{◌≡◌};
ghost use Rattle.rules.specs.Margin.{rates_of, amount_of, ◌less◌but_at_least◌};

use terms::{Class, Right};

// The percentages r and f.
#[derive(Clone, Copy)]
pub struct Rates {
    pub r: u8,
    pub f: u8,
}

#[tactic(auto, unfolding(crate::specs::Margin::rates_of))]
pub fn rates_of(class: Class, right: Right) -> Rates
    ensures { result ≡ rates_of class right }
{
    match (class, right) {
        (Class::Stock, Right::Call) => Rates { r: 21, f: 10 },
        (Class::Stock, Right::Put) => Rates { r: 19, f: 10 },
        (Class::Fund, _) => Rates { r: 12, f: 7 },
    }
}

// A, by one law for every r and f.
#[tactic(auto, using(crate::proofs::Less::bounded, terms::proofs::Product::product_below), unfolding(crate::specs::Margin::amount_of, crate::specs::Margin::out_of_the_money))]
pub fn amount(rates: Rates, right: Right, settlement: u32, close: u32, strike: u32) -> u64
    ensures { result ≡ amount_of rates right settlement close strike }
{
    let r = rates.r as u64;
    let f = rates.f as u64;
    let s = settlement as u64;
    let p = close as u64;
    let k = strike as u64;
    match right {
        Right::Call => 100 * s + less(r * p, 100 * less(k, p, 0), f * p),
        Right::Put => {
            let uncapped = 100 * s + less(r * p, 100 * less(p, k, 0), f * k);
            uncapped.min(100 * k)
        }
    }
}

// a less b, but at least the floor. No difference is made that would be below zero.
#[tactic(auto, using(crate::proofs::Less::as_greatest))]
fn less(a: u64, b: u64, floor: u64) -> u64
    ensures { result ≡ (a less b but_at_least floor) }
{
    a.saturating_sub(b).max(floor)
}
