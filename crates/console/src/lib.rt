//! The console's keeper: it performs the calls that a person writes, one a line, and tells each answer as its line comes.
#![tactic(auto)]

mod answers;
pub mod asked;
pub mod console;
pub mod hand;
pub mod keep;
pub mod lines;
pub mod outcome;
pub mod tariffs;
