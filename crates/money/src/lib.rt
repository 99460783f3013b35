// Money: what one contract costs at the figures in force, what is available, and what is within it.
#![tactic(auto)]

mod hold;
mod reach;

pub use hold::{hold_one, margin_one, premium_one};
pub use reach::{available, within};
