// Fills and cancels: both name a resting order by its number, and are decided by what stands behind it.
#![tactic(auto)]

mod after;
mod cancelled;
mod filled;

pub use cancelled::cancel;
pub use filled::fill;
