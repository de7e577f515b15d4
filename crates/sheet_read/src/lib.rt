//! Reading a sheet: bytes become numbers, records, tables, or the first fault with its place.
#![tactic(auto)]

pub mod fault;
pub mod lent;
mod lot;
pub mod read;
pub mod record;
mod section;
mod unread;
