// Words of the contracts among the parts of `distance` (specs/, proofs/): what the lists that they lend each other hold. And what a run answers.
#![tactic(auto)]

pub mod told; // told.rt: what a run and its parts answer
