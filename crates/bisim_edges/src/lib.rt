// The edges that transitions make, and what is refused of them.
#![tactic(auto)]

mod labels; // labels.rt: labels interned
mod keys; // keys.rt: transitions in a stable order, by a key
mod crowd; // crowd.rt: states with many targets
mod edges; // edges.rt: equal triples joined, zero weights dropped
pub mod planner; // planner.rt: plan
