//! Carry rules: how much of the lateness at an activity's tail is handed on to its head.
#![tactic(auto)]

pub mod deduct;
pub mod gate;
pub mod rule;
pub mod share;
pub mod worked;
