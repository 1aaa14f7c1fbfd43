// What a run and its parts answer.
ghost use Rattle.std.specs.Prelude.{◌≡◌};
ghost use Rattle.distance_words.specs.Told.{nothing_listed};

use bisim_core::ids::StateId;
use distance_theory::{Distance, PairContribution};

// What a round of improvement comes to: the most that a value is off, and whether a coupling has changed.
// Stays: the residual is told whether or not a coupling has changed, so that an Option would lose it.
#[derive(Clone, Copy, Debug, PartialEq)]
pub struct Improvement {
    pub residual: f64,
    pub improved: bool,
}

// The most that a value was off, and the rounds made.
#[derive(Clone, Copy, Debug, PartialEq)]
pub struct Rounds {
    pub residual: f64,
    pub rounds: usize,
}

// How many contributions are listed, and 64 records, of which these are the first.
// Stays: there is no heap, and 64 is the most that can be asked for.
#[derive(Clone, Copy, Debug)]
pub struct Listed {
    pub count: usize,
    pub records: [PairContribution; 64],
}

// How the distance arises: the mass that is left in `occupancy`, and the contributions.
#[derive(Clone, Copy, Debug)]
pub struct Accounted {
    pub mass: f64,
    pub listed: Listed,
}

// The distance, and 64 records, the contributions first.
// Stays: how many of the records are meant stands in the distance (`contributions`); no heap.
#[derive(Clone, Copy, Debug)]
pub struct Answer {
    pub distance: Distance,
    pub records: [PairContribution; 64],
}

// No contribution, and records of zeros.
// Stays: `derive(Default)` is taken by the check, but asks a default of `PairContribution` and of `StateId` too, and state 0 is a state like any other.
impl Default for Listed {
    ghost is_default = { λ listed. listed ≡ nothing_listed };

    fn default() -> Listed {
        let records = [PairContribution {
            left: StateId(0),
            right: StateId(0),
            gap: 0.0,
            occupancy: 0.0,
            contribution: 0.0,
        }; 64];
        Listed { count: 0, records }
    }
}
