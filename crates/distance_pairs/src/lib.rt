// The pairs of `distance`: their discovery, and the ordered search that stands in for the hash map of kantorovich.rs.
#![tactic(auto)]

pub mod index; // index.rt: the codes of the pairs, and look-ups
pub mod discover; // discover.rt: discovery
