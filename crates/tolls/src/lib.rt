//! Tolls over plain slices: what all lots pay for a choice and a lateness that were written.
#![tactic(auto)]

pub mod written;
