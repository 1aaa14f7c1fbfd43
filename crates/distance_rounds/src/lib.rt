// The improvement rounds of `distance` (kantorovich.rs), on couplings in the store.
#![tactic(auto)]

mod adopt; // adopt.rt: a better coupling for a pair
pub mod improve; // improve.rt: all pairs
pub mod rounds; // rounds.rt: round after round
