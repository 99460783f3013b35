// The words of the trade, and the numbers that the paper gives for them.
#![tactic(auto)]

mod class;
mod count;
mod kind;
mod measure;
mod refusal;
mod right;
mod unlisted;
mod verdict;

pub use class::Class;
pub use count::{Contracts, Position, Units};
pub use kind::{OrderKind, Side};
pub use measure::{ACCOUNTS, CONTRACTS, Measure, PLACES, Range, UNDERLYINGS, unit_allowed};
pub use refusal::Refusal;
pub use right::Right;
pub use unlisted::Unlisted;
pub use verdict::{Verdict, number, verdict_of};
