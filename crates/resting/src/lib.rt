// The resting order that a number names, with what it is judged by.
#![tactic(auto)]

mod found;
mod named;

pub use found::find;
pub use named::kind_of;
