// The entries of the book, and the table that their records go by.
#![tactic(auto)]

mod day_end;
mod entry;
mod kind;

pub use day_end::Counts;
pub use entry::{Contract, Entry, Figures, Fill, Order, Underlying};
pub use kind::Kind;
