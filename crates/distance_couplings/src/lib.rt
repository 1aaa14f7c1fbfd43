// Couplings of two rows: the independent one, and the cheapest against some values (`best_coupling` of kantorovich.rs).
#![tactic(auto)]

pub mod shares; // shares.rt: shares in two lists
pub mod bench; // bench.rt: work space
pub mod best; // best.rt: `best_coupling`
pub mod pairs; // pairs.rt: the independent coupling of a pair
pub mod choose; // choose.rt: the cheapest one
