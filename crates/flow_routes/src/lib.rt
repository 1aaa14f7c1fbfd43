// The flow of a flow test path by path: theory (proofs/) of `flow_direct`, and the words for what its steps come to.
#![tactic(auto)]

ghost use Rattle.std.specs.Prelude.{◌≡◌};
ghost use Rattle.std.specs.Float.Ieee.{lt};
ghost use Rattle.numbers.specs.Real.{eps};

use numbers::EPS;

// Whether more than 1e-12 is left.
pub fn remains(x: f64) -> bool
    ensures { result ≡ lt eps x }
{
    x > EPS
}

// Where a walk by labels ends: at a target of s or of t with this label from where no link falls, or at a target of t with label 1.
#[derive(Clone, Copy, Debug, PartialEq, Eq)]
pub enum Stop {
    Left(usize),
    Right(usize),
    Sink,
}

// What one step of the search comes to: a push of so much, the rise of a target's label, or a rise after which no path is left.
#[derive(Clone, Copy, Debug, PartialEq)]
pub enum Step {
    Pushed(f64),
    Risen,
    Cut,
}

// How far a search has come: the label of the source that is tried, and the flow.
#[derive(Clone, Copy, Debug, PartialEq)]
pub struct Reached {
    pub label: usize,
    pub flow: f64,
}
