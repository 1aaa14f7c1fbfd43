// Two models side by side as jumps, in lists of numbers that the caller lends.
#![tactic(auto)]

mod rates; // rates.rt: the row of one state
mod rows; // rows.rt: the rows of all states of a model
pub mod store; // store.rt: the lists that are lent for the rows
pub mod jumps; // jumps.rt: union
