// Models built from transitions.
#![tactic(auto)]

mod write; // write.rt: the results
pub mod builder; // builder.rt: build
