// A book from its first record on: the stages of set-up, what a record comes to at its stage, and the book after it.
#![tactic(auto)]

mod after;
mod ruling;
mod stages;

pub use after::renewed;
pub use ruling::{Renewal, Ruling, rule};
pub use stages::{Book, Stage};
