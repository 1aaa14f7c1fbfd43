// Chains as definitions (specs/): what `common_rate`, `uniformise` and `normalise` compute, and when a chain handed in is accepted.
#![tactic(auto)]

ghost use Rattle.std.specs.Prelude.{◌≡◌};
ghost use Rattle.chain_theory.specs.Lent.{RowRead, of_chain, of_chain_mut, of_store};

use bisim_core::ids::StateId;
use numbers::bounds::Bounds;
use numbers::{GREATEST_WEIGHT, LEAST_OBSERVATION};

// The counts of a chain, and its initial state.
#[derive(Clone, Copy, Debug, PartialEq, Eq)]
pub struct ChainShape {
    pub states: usize,
    pub entries: usize,
    pub initial: StateId,
}

// A chain: its counts and initial state by value, a lent slice for each column. They say where the entries of each state begin, each entry's target and probability, and an observation of each state.
#[derive(Clone, Copy, Debug)]
pub struct Chain<'a> {
    pub shape: ChainShape,
    pub offsets: &'a [u32],
    pub targets: &'a [u32],
    pub probs: &'a [f64],
    pub observations: &'a [f64],
}

// The entries of a state of a chain: their targets, and the probability of each.
#[derive(Clone, Copy, Debug)]
pub struct Row<'a> {
    pub targets: &'a [u32],
    pub probs: &'a [f64],
}

impl<'a> Chain<'a> {
    // The entries of state s, where they can be read.
    pub fn row(&self, s: usize) -> Option<Row<'a>>
        ensures { RowRead result (of_chain self.now) s }
    {
        let from = *self.offsets.get(s)? as usize;
        let to = *self.offsets.get(s + 1)? as usize;
        let targets = self.targets.get(from..to)?;
        let probs = self.probs.get(from..to)?;
        Some(Row { targets, probs })
    }
}

// A chain whose observations are lent to be changed.
#[derive(Drop)]
pub struct ChainMut<'a> {
    pub shape: ChainShape,
    pub offsets: &'a [u32],
    pub targets: &'a [u32],
    pub probs: &'a [f64],
    pub observations: &'a mut [f64],
}

impl ChainMut<'_> {
    // The chain to be read.
    pub fn chain(&self) -> Chain<'_>
        ensures { (result.shape ≡ self.now.shape) × (of_chain result ≡ of_chain_mut self.now) }
    {
        Chain {
            shape: self.shape,
            offsets: self.offsets,
            targets: self.targets,
            probs: self.probs,
            observations: self.observations,
        }
    }
}

// What is lent for a chain that is made: a list for each column, long enough or not.
#[derive(Drop)]
pub struct ChainStore<'a> {
    pub offsets: &'a mut [u32],
    pub targets: &'a mut [u32],
    pub probs: &'a mut [f64],
    pub observations: &'a mut [f64],
}

impl ChainStore<'_> {
    // The chain of this shape in the lists that are lent.
    pub fn chain(&self, shape: ChainShape) -> Chain<'_>
        ensures { (result.shape ≡ shape) × (of_chain result ≡ of_store self.now) }
    {
        Chain {
            shape,
            offsets: &self.offsets,
            targets: &self.targets,
            probs: &self.probs,
            observations: &self.observations,
        }
    }
}

// What the observations of a model may be.
pub const OBSERVATIONS: Bounds = Bounds {
    least: LEAST_OBSERVATION,
    greatest: GREATEST_WEIGHT,
};
