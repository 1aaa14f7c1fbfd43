// What a chain is made of.
use bisim_core::ids::StateId;
use bisim_core::wlts::Wlts;

// A model, a state of it, and an observation of each state.
#[derive(Clone, Copy, Debug)]
pub struct Observed<'a> {
    pub model: Wlts<'a>,
    pub state: StateId,
    pub observations: &'a [f64],
}
