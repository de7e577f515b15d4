//! The choice over plain slices: which transfers wait, which go, and how late each event then is.
#![tactic(auto)]

pub mod choose;
pub mod count;
pub mod decide;
