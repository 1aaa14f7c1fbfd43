// The coupling store of `distance`: the independent couplings of the pairs, one after the other in two lists.
#![tactic(auto)]

pub mod store; // store.rt: `lay_store`
