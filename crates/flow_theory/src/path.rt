// The push along a path.
ghost use Rattle.flow_theory.specs.Augment;
ghost use Rattle.std.specs.Prelude.{◌≡◌};

use crate::reverse;
use numbers::smaller;

// The least of x and the capacities on the path; a link without one is passed over.
pub fn least(caps: &[f64], path: &[usize], x: f64) -> f64
    ensures { result ≡ Augment.least caps.now x path.now }
{
    let mut y = x;
    for e in path {
        if let Some(cap) = caps.get(*e) {
            y = smaller(y, *cap);
        }
    }
    y
}

// Takes x off each link of the path, and gives it to its reverse.
// Stays: a test and an index, since of a lent list that `get_mut` writes into in a loop the check knows only the length afterwards.
pub fn push_path(caps: &mut [f64], path: &[usize], x: f64)
    ensures { caps.new ≡ Augment.push_path x path.now caps.old }
{
    for e in path {
        let back = reverse(*e);
        if *e < caps.len() {
            caps[*e] -= x;
        }
        if back < caps.len() {
            caps[back] += x;
        }
    }
}
