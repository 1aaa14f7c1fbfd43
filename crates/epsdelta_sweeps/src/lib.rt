// The relation of states whose rows stand in lists: marks, and sweeps until one without a strike.
#![tactic(auto)]

mod changes; // changes.rt: strikes that are noted, and tests that need no run
mod classed; // classed.rt: what marks are made of
mod marks; // marks.rt: the marks of a relation
mod network; // network.rt: flow tests on a network that is lent
mod place; // place.rt: where sweeps stand, and what they are asked for
mod plenty; // plenty.rt: how much flow is plenty
pub mod relate; // relate.rt: marks, then sweeps
mod rows; // rows.rt: whether lists hold rows that can be read
mod run; // run.rt: sweeps until one without a strike
mod sweeps; // sweeps.rt: turns and sweeps, which are left where a flow test asks for a network
