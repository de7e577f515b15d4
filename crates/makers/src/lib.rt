//! An example for makers of rules and tariffs: one of each that does not come with the part.
#![tactic(auto)]

pub mod grace;
pub mod relief;
