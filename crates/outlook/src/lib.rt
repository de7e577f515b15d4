//! The outlook: what reported delays lead to at worst, and whether they can be planned for.
#![tactic(auto)]

pub mod answer;
pub mod lines;
pub mod look;
mod note;
pub mod report;
mod survey;
