// The independent coupling of a pair: its rows are read from two chains.
ghost use Rattle.std.specs.Prelude.{◌≡◌, None};
ghost use Rattle.distance_theory.specs.Lent.{HasPair};
ghost use Rattle.distance_theory.proofs.Bests.{laid_as};
ghost use Rattle.distance_theory.proofs.PairRows.{lay_pair_of};

use crate::shares::lay_independent;
use distance_theory::lent::{SharesMut, Task};

// The independent coupling of a task's pair k over the front of two lists. None where there is no such pair, a row can't be read or has over 32 entries, there are over 4,096 codes, or a list is short: the lists are then as they were.
// Stays: the two lists are apart; a `SharesMut` of parts of a lent store's fields, made in the loop over the pairs, isn't covered by the borrow checker ('a call keeps the loan of a slice in a field while another field is used').
pub fn lay_pair(task: &Task, k: usize, places: &mut [u32], masses: &mut [f64]) -> Option<usize>
    ensures laid { HasPair task.now k → laid_as result places.new masses.new ≡ lay_pair_of task.now k places.old masses.old }
    ensures none { (HasPair task.now k → ⊥) → (result ≡ None) × (places.new ≡ places.old) × (masses.new ≡ masses.old) }
{
    let rows = task.rows(k)?;
    lay_independent(&rows, &mut SharesMut { places, masses })
}
