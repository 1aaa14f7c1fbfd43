// The chains that `bisim_distance` of kantorovich.rs runs, with all checks of its arguments.
#![tactic(auto)]

pub mod make; // make.rt
