// The contributions of the pairs to the distance: they are weighed, the largest are chosen, and their records are written into a lent row.
#![tactic(auto)]

mod choice; // choice.rt: which pairs are listed
pub mod listing; // listing.rt: contributions
pub mod row; // row.rt: write_contributions
