// Networks of links: a new one, links added to it, and the maximum flow on one that is lent (flow.rs).
#![tactic(auto)]

pub mod network; // network.rt: networks of links
pub mod rows; // rows.rt: links in rows, put into a network and run
