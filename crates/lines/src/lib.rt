// Lines of text, by which examples are asked and answered.
#![tactic(auto)]

pub mod codes;
pub mod input;
pub mod output;
pub mod records;
pub mod width;
