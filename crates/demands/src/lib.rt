// No code: what is promised of the crates below stands in proofs/, as theorems.
#![tactic(auto)]
