// Parts that the crates of the relation and those of the chains share.
#![tactic(auto)]

pub mod rates; // rates.rt: a rate put in among jumps
pub mod refusals; // refusals.rt: of two refusals the earlier
pub mod starts; // starts.rt: the initial state of a model
