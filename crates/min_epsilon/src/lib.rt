// An ε at which two models are bisimilar, found by halvings.
#![tactic(auto)]

pub mod least; // least.rt: the runs at ε = 1, at ε = 0 and at the halves between them
