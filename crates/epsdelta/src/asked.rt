// What a run is asked.
ghost use Rattle.std.specs.Prelude.{◌≡◌};
ghost use Rattle.epsdelta.specs.Sides.{EachFew, together};

use bisim_core::wlts::Wlts;
use epsdelta_theory::tolerances::Tolerances;

// A model, and the class of each of its states.
#[derive(Clone, Copy, Debug)]
pub struct Side<'a> {
    pub model: Wlts<'a>,
    pub classes: &'a [u32],
}

// Two models side by side, the right one's states numbered after the left's.
#[derive(Clone, Copy, Debug)]
pub struct Sides<'a> {
    pub left: Side<'a>,
    pub right: Side<'a>,
}

impl Sides<'_> {
    // How many states both have.
    pub(crate) fn states(&self) -> usize
        requires { EachFew self.now }
        ensures { result ≡ together self.now }
    {
        self.left.model.shape.states + self.right.model.shape.states
    }
}

// Two models side by side, the tolerances, and whether an initial state that is asked for is absent (check 8).
#[derive(Clone, Copy, Debug)]
pub struct Settings<'a> {
    pub sides: &'a Sides<'a>,
    pub tolerances: Tolerances,
    pub absent: bool,
}
