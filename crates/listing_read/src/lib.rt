//! Reading a listing: its lines become the numbers and bytes of a sheet, which need keep no rule as yet.
#![tactic(auto)]

pub mod draft;
pub mod fault;
mod fields;
pub mod read;
