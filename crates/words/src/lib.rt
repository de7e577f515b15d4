//! Text that people write and read, whatever it is about: numbers, and rows of values with a blank before each.
#![tactic(auto)]

pub mod number;
pub mod row;
