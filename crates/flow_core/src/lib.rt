// Maximum flow (Dinic) on a small network, over lent rows of numbers.
#![tactic(auto)]

mod levels; // levels.rt: the levels of a phase
mod augment; // augment.rt: one path, and the push along it
mod run; // run.rt: phases, and the whole run
pub mod rows; // rows.rt: the flow run over lent rows

// What a run comes to: the flow, its phases, and the pushes of all of them.
#[derive(Clone, Copy, Debug, PartialEq)]
pub struct Flow {
    pub flow: f64,
    pub phases: usize,
    pub pushes: usize,
}
