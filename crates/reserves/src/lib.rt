//! Reserves over plain slices: how much delay each event alone may have.
#![tactic(auto)]

pub mod reserve;
