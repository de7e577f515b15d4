//! The planner over plain slices: what stands in the way of a plan, and the plan.
#![tactic(auto)]

pub mod plan;
pub mod plan_toll;
