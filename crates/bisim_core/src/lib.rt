// The models: ids of states and labels, and weighted labelled transition systems.
#![tactic(auto)]

mod check; // check.rt: the tests that a built model has to pass
pub mod ids; // ids.rt: StateId, LabelId, interning
pub mod wlts; // wlts.rt: a built model and its check
