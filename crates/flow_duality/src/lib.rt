// When the flow of a pair's test forth says that the one back passes too: theory (proofs/), and its limits.
#![tactic(auto)]

ghost use Rattle.std.specs.Prelude.{◌≡◌};
ghost use Rattle.flow_duality.specs.Spare.{is_share};

use numbers::ONE;

pub const ROW_MOST: usize = 14; // row_most

pub const SPARE: f64 = 9.2e-10; // spare

// Whether a rate is above 0 and at most 1.
pub fn is_share(rate: f64) -> bool
    ensures { result ≡ is_share rate }
{
    0.0 < rate && rate <= ONE
}
