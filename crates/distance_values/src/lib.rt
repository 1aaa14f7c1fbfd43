// The sweeps of `evaluate` and the rounds of `occupancy` (kantorovich.rs), on couplings that stand in rows of numbers.
#![tactic(auto)]

mod store; // store.rt: whether couplings can be read, and the coupling of a pair
pub mod values; // values.rt: sweeps over the values
pub mod visits; // visits.rt: rounds of visits
