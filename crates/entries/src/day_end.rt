// How many figures a day end has.
ghost use Rattle.std.specs.Prelude.{◌≡◌};
ghost use Rattle.entries.specs.Table.{length_of, counts_allowed, counts_fit};

use crate::kind::Kind;
use terms::Measure;

// n settlements and m closes.
#[derive(Clone, Copy)]
pub struct Counts {
    pub n: u16,
    pub m: u16,
}

impl Counts {
    pub fn allowed(self) -> bool
        ensures { result ≡ counts_allowed self.n self.m }
    {
        Measure::Contracts.allows(u64::from(self.n))
            & Measure::Underlyings.allows(u64::from(self.m))
    }

    // How long the record of a day end with such counts is.
    #[tactic(auto, using(crate::proofs::Runs::total_fours))]
    pub fn length(self) -> usize
        ensures { result ≡ length_of Kind.DayEnd self.n self.m }
    {
        8 + 4 * (usize::from(self.n) + usize::from(self.m))
    }

    #[tactic(auto, unfolding(crate::specs::Table::counts_fit))]
    pub fn fit(self, size: u16) -> bool
        ensures { result ≡ counts_fit self.n self.m size }
    {
        self.allowed() & (usize::from(size) == self.length())
    }
}
