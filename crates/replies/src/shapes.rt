// Counts and initial states of models and chains from numbers.
ghost use Rattle.std.specs.Prelude.{◌≡◌};
ghost use Rattle.replies.specs.Answers.{initial, shape};
ghost use Rattle.replies.specs.Chains;

use bisim_core::ids::StateId;
use bisim_core::wlts::Shape;
use chain_theory::ChainShape;

// No initial state where `present` is 0.
pub fn initial_of(present: u32, start: u32) -> Option<StateId>
    ensures { result ≡ initial present start }
{
    (present != 0).then_some(StateId(start))
}

// A model's counts and initial state.
pub fn shape_of(states: usize, edges: usize, labels: usize, initial: Option<StateId>) -> Shape
    ensures { result ≡ shape states edges labels initial }
{
    Shape {
        states,
        edges,
        labels,
        initial,
    }
}

// A chain's counts and initial state.
pub fn chain_of(states: usize, entries: usize, initial: u32) -> ChainShape
    ensures { result ≡ Chains.shape states entries initial }
{
    ChainShape {
        states,
        entries,
        initial: StateId(initial),
    }
}
