// The check of a chain that is handed in.
#![tactic(auto)]

pub mod shape; // shape.rt: check 4
mod rows; // rows.rt: check 13
pub mod check; // check.rt: chain_refusal
