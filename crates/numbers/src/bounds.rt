// The numbers from a least one to a greatest one.
ghost use Rattle.std.specs.Prelude.{◌≡◌};
ghost use Rattle.numbers.specs.Lists.{all};
ghost use Rattle.numbers.specs.Bounds.{within};

use crate::GREATEST_WEIGHT;

#[derive(Clone, Copy, Debug)]
pub struct Bounds {
    pub least: f64,
    pub greatest: f64,
}

// What a cost, a mass or a divided rate may be.
pub const AMOUNTS: Bounds = Bounds {
    least: 0.0,
    greatest: GREATEST_WEIGHT,
};

impl Bounds {
    // Whether x is one of them.
    pub fn hold(self, x: f64) -> bool
        ensures { result ≡ within self.least self.greatest x }
    {
        self.least <= x && x <= self.greatest
    }

    // Whether each number of a list is one.
    pub fn hold_all(self, list: &[f64]) -> bool
        ensures { result ≡ all (within self.least self.greatest) list.now }
    {
        list.iter().all(|x| self.hold(*x))
    }
}
