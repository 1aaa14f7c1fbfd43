// The run of `distance` (kantorovich.rs), below the checks of its arguments.
#![tactic(auto)]

pub mod question; // question.rt: what is asked of two chains
mod scratch; // scratch.rt: lent lists all zero
mod solve; // solve.rt: first couplings, refusals 18 and 16, the rounds
mod told; // told.rt: what is told of them
mod found; // found.rt: pairs that were found: cost, couplings, occupancy and contributions
pub mod run; // run.rt: two chains
