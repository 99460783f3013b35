// A day end's figures: whether they are allowed, and the tables with them.
ghost use Rattle.std.specs.Prelude.{◌≡◌, ℕ, ◌<◌, ◌≤◌, get_or, length};
ghost use Rattle.std.specs.List.{list_all};
ghost use Rattle.terms.specs.Ranges.{range_of, ◌∈◌};
ghost use Rattle.account.specs.Changes.{ending};
ghost use Rattle.account.specs.DayEnd.{closed, day_end_verdict, figures_installed, settled};
ghost use Rattle.account.specs.Seen.{SeenOf, Wherever};
ghost use Rattle.account.specs.Sound.{SoundTables};

use account::{Decision, Seen, Tables};
use entries::{Contract, Entry, Figures, Underlying};
use terms::{Measure, Refusal};

#[tactic(auto, unfolding(account::specs::DayEnd::day_end_verdict, account::specs::Seen::seen_by))]
pub fn decide(seen: Seen, n: u16, m: u16, figures: Figures) -> Result<Decision, Refusal>
    requires { SeenOf (Entry.DayEnd n m) seen }
    ensures { Wherever (Entry.DayEnd n m) seen (λ t a. result ≡ ending (day_end_verdict t n m figures)) }
{
    if n as usize != seen.n || m as usize != seen.m {
        return Err(Refusal::OutOfRange);
    }
    if all_allowed(&figures.settlements[..seen.n], Measure::Settlement)
        & all_allowed(&figures.closes[..seen.m], Measure::Price)
    {
        Ok(Decision::DayEnds)
    } else {
        Err(Refusal::OutOfRange)
    }
}

fn all_allowed(prices: &[u32], measure: Measure) -> bool
    ensures { result ≡ list_all (λ price. price ∈ range_of measure) prices.now }
{
    prices.iter().all(|price| measure.allows(*price as u64))
}

// The new figures in the rows that the tables have.
pub(crate) fn installed(tables: Tables, figures: Figures) -> Tables
    requires { SoundTables tables }
    ensures { result ≡ figures_installed tables figures }
{
    let mut contracts = tables.contracts;
    let mut underlyings = tables.underlyings;
    set_prices(&mut contracts[..tables.n], &figures.settlements);
    set_prices(&mut underlyings[..tables.m], &figures.closes);
    Tables {
        underlyings,
        contracts,
        ..tables
    }
}

// A row with a price that each day end brings anew.
trait Priced {
    ghost priced: { Self → ℕ → Self };

    fn set_price(&mut self, price: u32)
        ensures { self.new ≡ priced self.old price };
}

impl Priced for Contract {
    ghost priced = { settled };

    fn set_price(&mut self, price: u32) {
        self.settlement = price;
    }
}

impl Priced for Underlying {
    ghost priced = { closed };

    fn set_price(&mut self, price: u32) {
        self.close = price;
    }
}

// Each row with the price of its number. By an index: of rows that `iter_mut` lends under `zip`, a proof knows nothing after the loop.
fn set_prices<T: Priced>(rows: &mut [T], prices: &[u32])
    requires { length rows.old ≤ length prices.now }
    ensures { (i : ℕ) (none : T) → i < length rows.old → get_or rows.new i none ≡ T.priced (get_or rows.old i none) (get_or prices.now i 0) }
{
    for (i, row) in rows.iter_mut().enumerate() {
        row.set_price(prices[i]);
    }
}
