//! The model of lateness and of the cheapest choice: what the planning calls are held to, and the laws of it.
#![tactic(auto)]

pub mod laws;
pub mod mark;
