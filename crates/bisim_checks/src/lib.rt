// What `bisim_distance` of kantorovich.rs refuses of its arguments.
#![tactic(auto)]

pub mod rest; // rest.rt: discount, options, lists of pairs, contribution records
pub mod sides; // sides.rt: each model with what comes with it, and all together
