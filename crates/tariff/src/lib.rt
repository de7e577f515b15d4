//! Tariffs: what a lot pays for coming late or for missing a connection, and how such tolls are summed and compared.
#![tactic(auto)]

pub mod charges;
pub mod parcel_minutes;
pub mod ranked;
