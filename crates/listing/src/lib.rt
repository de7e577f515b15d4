//! The listing of a sheet: its records as lines of text, for people and for other tools.
#![tactic(auto)]

pub mod lines;
pub mod show;
