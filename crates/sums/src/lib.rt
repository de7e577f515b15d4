//! The sum of charges over lots, written once for every tariff and every way of charging.
#![tactic(auto)]

pub mod all_alike;
pub mod charge;
pub mod sheet_sum;
pub mod sum;
