// What `build` is handed: the model asked for, and the lists that it goes into.
ghost use Rattle.std.specs.Prelude.{◌≡◌};
ghost use Rattle.bisim_core.specs.Data.{columns_of};
ghost use Rattle.build_theory.specs.Lent.{columns_in};

use crate::keys::Triple;
use bisim_core::ids::StateId;
use bisim_core::wlts::{Shape, Wlts};

// The model asked for: its state count and initial state, and its transitions, column by column, of which the first `given` count.
// Stays: the C interface lends columns with room for more, and `given` may be too large.
#[derive(Clone, Copy, Debug)]
pub struct Draft<'a> {
    pub states: usize,
    pub initial: Option<StateId>,
    pub sources: &'a [u32],
    pub labels: &'a [u32],
    pub targets: &'a [u32],
    pub weights: &'a [f64],
    pub given: usize,
}

// The lists that a model's columns go into.
#[derive(Drop)]
pub struct Store<'a> {
    pub label_values: &'a mut [u32],
    pub offsets: &'a mut [u32],
    pub edge_labels: &'a mut [u32],
    pub edge_targets: &'a mut [u32],
    pub edge_weights: &'a mut [f64],
}

impl Store<'_> {
    // The model of that shape whose columns stand in it.
    pub fn model(&self, shape: Shape) -> Wlts<'_>
        ensures counts { result.shape ≡ shape }
        ensures columns { columns_of result ≡ columns_in self.now }
    {
        Wlts {
            shape,
            label_values: self.label_values,
            offsets: self.offsets,
            edge_labels: self.edge_labels,
            edge_targets: self.edge_targets,
            edge_weights: self.edge_weights,
        }
    }
}

// The lists that a plan fills: label values by id, and triples of source, label id and target, each with its weight.
#[derive(Drop)]
pub struct PlanLists<'a> {
    pub label_values: &'a mut [u32],
    pub triples: &'a mut [Triple],
    pub edge_weights: &'a mut [f64],
}
