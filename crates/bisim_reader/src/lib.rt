// The readers of a built model.
#![tactic(auto)]

pub mod reader; // reader.rt: what a built model answers
