// `distance` of kantorovich.rs: how far two chains are apart, and which pairs of states contribute most.
#![tactic(auto)]

pub mod check; // check.rt: the checks of the arguments
pub mod measure; // measure.rt: all but the row of records
pub mod entry; // entry.rt: distance
