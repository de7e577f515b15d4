//! What a plan would cost, told by the bills and with no plan written.
#![tactic(auto)]

pub mod by_bills;
pub mod struck;
