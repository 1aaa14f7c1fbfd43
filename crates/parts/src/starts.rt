// The initial state of a model.
ghost use Rattle.std.specs.Prelude.{◌≡◌};
ghost use Rattle.epsdelta_theory.specs.Bisimilar;

use bisim_core::ids::StateId;

// The initial state; 0 if there is none.
pub fn start(initial: Option<StateId>) -> StateId
    ensures { result.0 ≡ Bisimilar.start initial }
{
    initial.unwrap_or(StateId(0))
}
