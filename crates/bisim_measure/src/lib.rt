// Two models measured by the distance of their chains: `bisim_distance` of kantorovich.rs but for the row of contribution records.
#![tactic(auto)]

pub mod measure; // measure.rt
