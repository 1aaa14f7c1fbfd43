// A built model: its counts and initial state by value, a lent slice for each column.
ghost use Rattle.std.specs.Prelude.{◌≡◌, ◌+◌};
ghost use Rattle.numbers.specs.Refuse.{code};
ghost use Rattle.bisim_core.specs.Data.{columns_of};
ghost use Rattle.bisim_core.specs.Model.{begins, model_refusal, refusal_with, starts_outside};

use crate::check;
use crate::ids::StateId;
use numbers::refusal::Refusal;
use std::ops::Range;

// The counts of a model, and its initial state.
#[derive(Clone, Copy, Debug, PartialEq, Eq)]
pub struct Shape {
    pub states: usize,
    pub edges: usize,
    pub labels: usize,
    pub initial: Option<StateId>,
}

// Label values by id, where each state's edges begin, and the edges.
// Stays: the C interface lends each column with room for more, and the counts beside them may be too large.
#[derive(Clone, Copy, Debug)]
pub struct Wlts<'a> {
    pub shape: Shape,
    pub label_values: &'a [u32],
    pub offsets: &'a [u32],
    pub edge_labels: &'a [u32],
    pub edge_targets: &'a [u32],
    pub edge_weights: &'a [f64],
}

// Whether there is an initial state that is not below the state count.
pub fn starts_outside(initial: Option<StateId>, states: usize) -> bool
    ensures { result ≡ starts_outside initial states }
{
    initial.is_some_and(|s| s.0 as usize >= states)
}

impl Wlts<'_> {
    // Turned back with the first check that the model fails; check 4 fails too where a number handed in beside it is `stray`, not below its count.
    // Stays: `stray` is no switch but a fact of the number beside the model, which check 4 is told in its turn.
    pub fn check_with(&self, stray: bool) -> Result<(), Refusal>
        ensures { code result ≡ refusal_with stray self.now.shape (columns_of self.now) }
    {
        if check::large(self.shape) {
            return Err(Refusal::ModelSize);
        }
        if stray || check::unfit(self) {
            return Err(Refusal::OutOfRange);
        }
        if !check::all_weigh(self) {
            return Err(Refusal::Weight);
        }
        if check::crowded(self) {
            return Err(Refusal::Targets);
        }
        Ok(())
    }

    // Where the edges of state s begin: 0 where there is no offset for it.
    fn begins(&self, s: usize) -> usize
        ensures { result ≡ begins (columns_of self.now) s }
    {
        self.offsets.get(s).map_or(0, |at| *at as usize)
    }

    // Which edges are those of state s: up to where those of the next state begin, and none where there is no offset for that.
    pub fn row(&self, s: usize) -> Range<usize>
        ensures { (result.start ≡ begins (columns_of self.now) s) × (result.end ≡ begins (columns_of self.now) (s + 1)) }
    {
        self.begins(s)..self.begins(s.saturating_add(1))
    }

    pub fn check(&self) -> Result<(), Refusal>
        ensures { code result ≡ model_refusal self.now.shape (columns_of self.now) }
    {
        self.check_with(false)
    }
}
