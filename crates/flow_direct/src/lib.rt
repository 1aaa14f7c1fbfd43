// Whether the flow between two rows of jumps is enough, without a network: pushes in the order of the flow run, until it is.
#![tactic(auto)]

mod search; // search.rt: searches by labels
mod give; // give.rt: the first pushes, target by target
mod path; // path.rt: a path by labels, and the push along it
mod step; // step.rt: one step, a push or the rise of a label
mod settle; // settle.rt: steps until it is known whether the flow is enough
pub mod reach; // reach.rt: what is known of the flow of a flow test
