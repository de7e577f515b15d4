//! The desk: a sheet's bytes answered as a listing, a listing as a sheet's bytes, a carry rule's name and minutes as minutes, and reported delays as an outlook.
#![tactic(auto)]

pub mod fault;
pub mod minutes;
pub mod pack;
pub mod reports;
pub mod room;
pub mod rules;
pub mod show;
pub mod worst;
