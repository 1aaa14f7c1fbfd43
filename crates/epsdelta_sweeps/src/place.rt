// Where sweeps stand, and what they ask for.
ghost use Rattle.std.specs.Prelude.{◌≡◌};
ghost use Rattle.epsdelta_sweeps.specs.Leading.{place_of, asked_at};

use flow_links::rows::Rows;

// The rows of a run, how much flow a test needs, and how much is plenty, if any is.
// Stays: a parameter of its own beside Memory: of both as one struct lent by &mut, `Same` would promise too that the terms are kept, and each invariant and law that now has the terms as they came would carry them along that equation.
#[derive(Clone, Copy)]
pub(crate) struct Terms<'a> {
    pub(crate) rows: Rows<'a>,
    pub(crate) need: f64,
    pub(crate) plenty: Option<f64>,
}

// Where sweeps stand: the pair (s, t) whose turn it is, and whether the sweep has struck.
// Stays: with the pair as a struct of its own, a field here and in `Asked`, some seventy places in src/ and specs/ would read `.pair.s` or `.pair.t`, for a parameter less in eight functions.
#[derive(Clone, Copy)]
pub(crate) struct Place {
    pub(crate) s: usize,
    pub(crate) t: usize,
    pub(crate) struck: bool,
}

impl Place {
    // Where a sweep begins.
    pub(crate) const FIRST: Place = Place {
        s: 0,
        t: 1,
        struck: false,
    };

    // The flow test of its pair, or the one back.
    // Stays: `back` is a field of what is made, no switch.
    pub(crate) fn ask(self, back: bool) -> Asked
        ensures { result ≡ asked_at self back }
    {
        Asked {
            s: self.s,
            t: self.t,
            struck: self.struck,
            back,
        }
    }
}

// A flow test that is not known without a network: that of a place's pair (s, t), or the one back.
// Stays: with a Place in it, not its three fields, there is more padding to copy, and a relation takes 2 to 3 percent more instructions.
#[derive(Clone, Copy)]
pub(crate) struct Asked {
    pub(crate) s: usize,
    pub(crate) t: usize,
    pub(crate) struck: bool,
    pub(crate) back: bool,
}

impl Asked {
    // The place that it is asked at.
    pub(crate) fn place(self) -> Place
        ensures { result ≡ place_of self }
    {
        Place {
            s: self.s,
            t: self.t,
            struck: self.struck,
        }
    }
}
