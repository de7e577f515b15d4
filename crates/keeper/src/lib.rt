//! Keepers: whoever tends a board through a day, and the law that holds of every run.
#![tactic(auto)]

pub mod order;
pub mod perform;
pub mod reserving;
pub mod tables;
pub mod tend;
