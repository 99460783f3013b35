// The account: what it holds, what an entry is judged by, what is decided, and the one function that writes what an accepted entry changes.
#![tactic(auto)]

mod account;
mod judged;
mod numbered;
mod running;
mod tables;
mod term;

pub use account::{ALL_FREE, Account, Holding, Resting, Sheet};
pub use judged::{Change, Decision, Facts, Named, Outcome, Seen};
pub use running::Running;
pub use tables::Tables;
pub use term::{Term, counted};
