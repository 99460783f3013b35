// A row by itself.
ghost use Rattle.std.specs.Prelude.{◌≡◌};
ghost use Rattle.account.specs.Sound.{contract_allowed, underlying_allowed};

use entries::{Contract, Underlying};
use terms::{Measure, unit_allowed};

pub fn underlying_allowed(row: Underlying) -> bool
    ensures { result ≡ underlying_allowed row }
{
    Measure::Price.allows(row.close as u64)
        & Measure::Limit.allows(row.rights as u64)
        & Measure::Limit.allows(row.total as u64)
        & Measure::Limit.allows(row.daily as u64)
}

// With no underlying in the tables there is none that a contract could be on.
pub fn contract_allowed(m: usize, row: Contract) -> bool
    ensures { result ≡ contract_allowed m row }
{
    ((row.underlying as usize) < m)
        & Measure::Price.allows(row.strike as u64)
        & unit_allowed(row.unit as u64)
        & Measure::Settlement.allows(row.settlement as u64)
}
