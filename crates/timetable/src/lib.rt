//! A sheet on a day, over plain slices: the least lateness for given choices, the worst timetable, and what stands in the way of a plan.
#![tactic(auto)]

pub mod choosing;
pub mod day;
pub mod forecast;
pub mod plannable;
