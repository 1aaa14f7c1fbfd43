// `transport` of flow.rs: a plan that takes one list of masses to another, by successive shortest paths.
#![tactic(auto)]

pub mod plan; // plan.rt: the plan
mod whole; // whole.rt: links, rounds and plan
mod check; // check.rt: refusals
pub mod bench; // bench.rt: work space
pub mod entry; // entry.rt: `transport`
