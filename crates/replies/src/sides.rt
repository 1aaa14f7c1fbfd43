// A model with what is lent beside it.
ghost use Rattle.std.specs.Prelude.{◌≡◌};

use bisim_core::ids::StateId;
use bisim_core::wlts::Wlts;
use chains::observed::Observed;
use epsdelta::asked::Side;

// A model, and the class of each of its states.
pub fn side_of<'a>(model: Wlts<'a>, classes: &'a [u32]) -> Side<'a>
    ensures { result ≡ record { model = model.entry; classes = classes.entry } }
{
    Side { model, classes }
}

// A model, a state of it, and an observation of each state.
pub fn observed_of<'a>(model: Wlts<'a>, state: u32, observations: &'a [f64]) -> Observed<'a>
    ensures { result ≡ record { model = model.entry; state = record { 0 = state }; observations = observations.entry } }
{
    Observed {
        model,
        state: StateId(state),
        observations,
    }
}
