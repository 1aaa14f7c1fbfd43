// `bisim_distance` of kantorovich.rs: the distance of two models.
#![tactic(auto)]

pub mod entry; // entry.rt: bisim_distance
