// Assignment on the expiry evening: exercised contracts go to the accounts that are short or covered.
#![tactic(auto)]

mod request;
mod shares;

ghost use Rattle.std.specs.Prelude.{◌≡◌, length};
ghost use Rattle.assignment.specs.Assignment.{assigned};
ghost use Rattle.assignment.specs.Lent.{assign_verdict, covered_shares, lent_after, uncovered_shares};
ghost use Rattle.assignment.specs.Steps.{Rows};

use request::Request;
use terms::{ACCOUNTS, Contracts, Refusal, Verdict};

// The accounts are numbered by their places in `short` and `covered`, which tell of each what it holds after netting. Into the same places go
// the contracts that are assigned to it: `cover` has the covered ones, `naked` the others.
// Two slices beside each other and no rows: what is lent, and the refusal of lists of unlike lengths, may not change (`assign`).
#[tactic(auto, using(std::proofs::lemmas::Bool::Decides::nat_tests), unfolding(crate::specs::Lent::assign_verdict))]
pub fn assign(
    exercised: Contracts,
    short: &[u32],
    covered: &[u32],
    cover: &mut [u32],
    naked: &mut [u32],
) -> Verdict
    ensures verdict { result ≡ assign_verdict exercised.0 short.now covered.now (length cover.old) (length naked.old) }
    ensures covered { cover.new ≡ lent_after result (covered_shares covered.now (assigned exercised.0 short.now covered.now)) cover.old }
    ensures uncovered { naked.new ≡ lent_after result (uncovered_shares covered.now (assigned exercised.0 short.now covered.now)) naked.old }
{
    let request = Request::new(exercised.0, short, covered).ok_or(Refusal::OutOfRange)?;
    let n = short.len();
    if cover.len() < n || naked.len() < n {
        return Err(Refusal::BufferTooShort);
    }
    lay(&request, &mut cover[..n], &mut naked[..n]);
    Ok(())
}

// The shares are gathered where the uncovered contracts are to stand, then the covered ones are taken out of them. That a slice has a place
// for each account (`Rows`) is asked at each call, since each is lent others.
#[tactic(auto, using(std::proofs::lemmas::Bool::Decides::nat_tests), unfolding(crate::specs::Assignment::accounts_allowed, crate::specs::Assignment::assign_allowed))]
fn lay(request: &Request, cover: &mut [u32], naked: &mut [u32])
    requires { Rows request.now.short.now cover.old × Rows request.now.short.now naked.old }
    ensures covered { cover.new ≡ covered_shares request.now.covered.now (assigned request.now.exercised request.now.short.now request.now.covered.now) }
    ensures uncovered { naked.new ≡ uncovered_shares request.now.covered.now (assigned request.now.exercised request.now.short.now request.now.covered.now) }
{
    let mut fractions = [0; ACCOUNTS];
    request.share_out(naked, &mut fractions);
    covered_first(request.covered, cover, naked);
}

// Takes the covered contracts out of what each account is assigned.
#[tactic(auto, using(crate::proofs::Filled::all_filled), unfolding(crate::specs::Lent::covered_shares, crate::specs::Lent::uncovered_shares))]
fn covered_first(covered: &[u32], cover: &mut [u32], shares: &mut [u32])
    requires { Rows covered.now cover.old × Rows covered.now shares.old }
    ensures covered { cover.new ≡ covered_shares covered.now shares.old }
    ensures uncovered { shares.new ≡ uncovered_shares covered.now shares.old }
{
    // By the number, as `whole_parts` goes.
    for (i, most) in covered.iter().enumerate() {
        let first = shares[i].min(*most);
        cover[i] = first;
        shares[i] -= first;
    }
}
