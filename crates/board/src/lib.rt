//! The board: a sheet on a day, with the delays that were reported and the transfers that were held or struck.
#![tactic(auto)]

pub mod board;
pub mod refusal;
pub mod slip;
pub mod tables;
