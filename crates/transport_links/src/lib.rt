// The links of `transport` between two lists of masses, written into rows of numbers.
#![tactic(auto)]

pub mod links; // links.rt: the links
