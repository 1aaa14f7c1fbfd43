// The links of a flow test between two rows of jumps, written into rows of numbers.
#![tactic(auto)]

pub mod fits; // fits.rt: which rows fit a flow test
pub mod links; // links.rt: the links
pub mod rows; // rows.rt: the rows that are read
