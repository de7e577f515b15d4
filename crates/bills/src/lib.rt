//! Bills over plain slices: what the lots at an event or over a transfer pay, and the column of bills.
#![tactic(auto)]

pub mod charges;
pub mod column;
pub mod event_bill;
pub mod priced;
