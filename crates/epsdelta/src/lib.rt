// The relation of two models, or the refusal of the check that fails.
#![tactic(auto)]

pub mod asked; // asked.rt: what a run is asked
mod checks; // checks.rt: checks 7 to 10
pub mod relation; // relation.rt: epsdelta
