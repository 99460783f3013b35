// The contracts that each account is assigned: the whole part of its share, and perhaps one of those that are left.
ghost use Rattle.std.specs.Prelude.{◌≡◌, ◌*◌, ◌/◌, ◌%◌, ◌≤◌, ◌<◌, length};
ghost use Rattle.terms.specs.Listed.{listed};
ghost use Rattle.assignment.specs.Assignment.{assigned, fraction, hand_out, largest, leftover, whole_part};
ghost use Rattle.assignment.specs.Steps.{Handable, Rows};

use crate::request::Request;

impl<'a> Request<'a> {
    // Writes every account's share: whole parts first, then what is left. The fractions are kept in places that are lent for it, a list of their
    // own as in the definition (`hand_out`).
    pub(crate) fn share_out(&self, shares: &mut [u32], fractions: &mut [u32])
        requires { Rows self.now.short.now shares.old × (length self.now.short.now ≤ length fractions.old) }
        ensures { shares.new ≡ assigned self.now.exercised self.now.short.now self.now.covered.now }
    {
        let n = self.short.len();
        let fractions = &mut fractions[..n];
        let left = self.whole_parts(shares, fractions);
        hand_out(left, shares, fractions);
    }

    // Writes the whole part and the fraction of every share; how many contracts are left.
    #[tactic(auto, using(crate::proofs::Divided::allowed, crate::proofs::Filled::all_filled))]
    fn whole_parts(&self, shares: &mut [u32], fractions: &mut [u32]) -> u32
        requires { Rows self.now.short.now shares.old × Rows self.now.short.now fractions.old }
        ensures left { result ≡ leftover self.now.exercised self.now.short.now self.now.covered.now }
        ensures shares { shares.new ≡ listed (length self.now.short.now) (whole_part self.now.exercised self.now.short.now self.now.covered.now) }
        ensures fractions { fractions.new ≡ listed (length self.now.short.now) (fraction self.now.exercised self.now.short.now self.now.covered.now) }
    {
        let mut left = self.exercised;
        // By the number: of what `iter_mut` lends under `zip` a proof knows nothing after the loop.
        for (i, s) in self.short.iter().enumerate() {
            let (whole, over) = share_of(self.exercised, self.total, *s + self.covered[i]);
            shares[i] = whole;
            fractions[i] = over;
            left -= whole;
        }
        left
    }
}

// E x s / T, its whole part and what is left over. Where nobody has a contract none is exercised.
fn share_of(exercised: u32, total: u32, s: u32) -> (u32, u32)
    requires { exercised ≤ total }
    ensures { (result.0 ≡ exercised * s / total) × (result.1 ≡ exercised * s % total) }
{
    if total == 0 {
        return (0, 0);
    }
    let due = exercised as u64 * s as u64;
    let by = total as u64;
    ((due / by) as u32, (due % by) as u32)
}

// One contract to the largest fraction, which is then used up, until none is left: a recursion, as document 01 names it.
#[tactic(auto, using(crate::proofs::HandedOut::hands_none, crate::proofs::HandedOut::hands_one))]
fn hand_out(left: u32, shares: &mut [u32], fractions: &mut [u32])
    requires { Handable left fractions.old shares.old }
    ensures { shares.new ≡ hand_out left fractions.old shares.old }
{
    if left == 0 {
        return;
    }
    let i = largest(fractions);
    shares[i] += 1;
    fractions[i] = 0;
    hand_out(left - 1, shares, fractions);
}

// The account with the largest fraction, the lowest number where several have it: one that is not larger takes no place.
fn largest(fractions: &[u32]) -> usize
    requires { 0 < length fractions.now }
    ensures { (result ≡ largest fractions.now) × (result < length fractions.now) }
{
    let mut best = 0;
    // By the number, which is the answer.
    for i in 1..fractions.len() {
        if fractions[best] < fractions[i] {
            best = i;
        }
    }
    best
}
