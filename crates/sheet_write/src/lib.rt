//! Writing a sheet back as bytes.
#![tactic(auto)]

mod page;
pub mod write;
