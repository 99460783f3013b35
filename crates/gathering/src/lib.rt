// Gathering: what an entry sees of tables and account, and what an order is judged by.
#![tactic(auto)]

mod facts;
mod place;
mod seen;

pub use facts::gather;
pub use place::place_of;
pub use seen::{row, see};
