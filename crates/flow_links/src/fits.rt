// Which rows fit a flow test.
ghost use Rattle.std.specs.Prelude.{◌≡◌};
ghost use Rattle.flow_links.specs.Fits.{row_fits};
ghost use Rattle.flow_links.specs.Lent.{test_fits};

use crate::rows::{Row, Test};
use numbers::bounds::AMOUNTS;

impl Row<'_> {
    // At most 31 targets, each with a rate from 0 to 2^40.
    pub fn fits(&self) -> bool
        ensures { result ≡ row_fits self.now.targets.now self.now.rates.now }
    {
        self.targets.len() <= 31
            && self.rates.len() == self.targets.len()
            && AMOUNTS.hold_all(self.rates)
    }
}

impl Test<'_> {
    // Both rows fit, and the relation is over at most 2,000 states.
    pub fn fits(&self) -> bool
        ensures { result ≡ test_fits self.now }
    {
        self.states <= 2000 && self.left.fits() && self.right.fits()
    }
}
