//! A sheet: the trucks' events, the activities between them, and the lots of parcels that ride along, with the rules that every sheet keeps.
#![tactic(auto)]

pub mod records;
pub mod sheet;
pub mod sorts;
