// What is to be assigned, and among whom.
ghost use Rattle.std.specs.Prelude.{◌≡◌, false, true, length, MatchOption};
ghost use Rattle.assignment.specs.Assignment.{accounts_allowed, all_totals, assign_allowed};

use terms::{ACCOUNTS, Measure};

// Exercised contracts that may be assigned to these accounts, which are told by what they hold.
#[derive(Clone, Copy)]
pub(crate) struct Request<'a> {
    pub(crate) exercised: u32,
    // What all net totals add up to.
    pub(crate) total: u32,
    pub(crate) short: &'a [u32],
    pub(crate) covered: &'a [u32],
    ghost allowed: { assign_allowed exercised short.now covered.now ≡ true },
    ghost added_up: { total ≡ all_totals short.now covered.now },
}

impl<'a> Request<'a> {
    // Where the accounts or the contracts are outside their ranges there is none.
    #[tactic(auto, using(std::proofs::lemmas::Bool::Decides::nat_tests), unfolding(crate::specs::Assignment::assign_allowed))]
    pub(crate) fn new(exercised: u32, short: &'a [u32], covered: &'a [u32]) -> Option<Request<'a>>
        ensures { MatchOption result (assign_allowed exercised short.now covered.now ≡ false) (λ a. (a.exercised ≡ exercised) × (a.short.now ≡ short.now) × (a.covered.now ≡ covered.now)) }
    {
        let total = all_totals(short, covered)?;
        if total < exercised {
            return None;
        }
        Some(Request {
            exercised,
            total,
            short,
            covered,
        })
    }
}

// What all net totals add up to, where each account may be assigned to.
#[tactic(auto, using(std::proofs::lemmas::Bool::Decides::nat_tests), unfolding(crate::specs::Assignment::accounts_allowed, crate::specs::Assignment::all_totals, crate::specs::Assignment::net_total))]
fn all_totals(short: &[u32], covered: &[u32]) -> Option<u32>
    ensures { MatchOption result (accounts_allowed short.now covered.now ≡ false) (λ total. (accounts_allowed short.now covered.now ≡ true) × (total ≡ all_totals short.now covered.now)) }
{
    if short.len() != covered.len() || ACCOUNTS < short.len() {
        return None;
    }
    let mut sum: u32 = 0;
    for (s, c) in short.iter().zip(covered) {
        let total = *s as u64 + *c as u64;
        if !Measure::NetTotal.allows(total) {
            return None;
        }
        sum += total as u32;
    }
    Some(sum)
}
