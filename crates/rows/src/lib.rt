// The rows of the tables: whether the values of one are allowed, and tables and opening cash that are given whole.
#![tactic(auto)]

mod values;

ghost use Rattle.std.specs.Prelude.{◌≡◌};
ghost use Rattle.std.specs.List.{list_all};
ghost use Rattle.account.specs.Sound.{contract_allowed, underlying_allowed};
ghost use Rattle.rows.specs.Given.{list_verdict};

use account::Tables;
use entries::{Contract, Underlying};
use terms::{Measure, Refusal, Verdict};
pub use values::{contract_allowed, underlying_allowed};

// The verdict on what a list starts from.
pub fn list_verdict(tables: Tables, cash: u64) -> Verdict
    ensures { result ≡ list_verdict tables cash }
{
    if tables.n == 0 {
        return Err(Refusal::OutOfPlace);
    }
    if tables.m > terms::UNDERLYINGS || tables.n > terms::CONTRACTS {
        return Err(Refusal::OutOfRange);
    }
    if underlyings_allowed(&tables.underlyings[..tables.m])
        & contracts_allowed(&tables.contracts[..tables.n], tables.m)
        & Measure::OpeningCash.allows(cash)
    {
        Ok(())
    } else {
        Err(Refusal::OutOfRange)
    }
}

fn underlyings_allowed(rows: &[Underlying]) -> bool
    ensures { result ≡ list_all underlying_allowed rows.now }
{
    rows.iter().all(|row| underlying_allowed(*row))
}

fn contracts_allowed(rows: &[Contract], m: usize) -> bool
    ensures { result ≡ list_all (contract_allowed m) rows.now }
{
    rows.iter().all(|row| contract_allowed(m, *row))
}
