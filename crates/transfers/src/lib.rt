// Money in and out, and units locked and released.
#![tactic(auto)]

mod cash;
mod payouts;
mod units;

pub use cash::deposit;
pub use payouts::{drop, pay, withdraw};
pub use units::{lock, unlock};
