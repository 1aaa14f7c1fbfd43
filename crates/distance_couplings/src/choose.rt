// The cheapest coupling of a pair: its rows are read from two chains.
ghost use Rattle.std.specs.Prelude.{◌≡◌, None};
ghost use Rattle.numbers.specs.Real.{nought};
ghost use Rattle.distance_theory.specs.Lent.{HasPair, SameShares};
ghost use Rattle.distance_theory.proofs.Bests.{bested};
ghost use Rattle.distance_theory.proofs.PairRows.{best_pair_of};
ghost use Rattle.distance_theory.proofs.RowsLent.{bested_in};

use crate::bench::Bench;
use crate::best::{Valued, best_coupling};
use distance_theory::lent::{Best, SharesMut, Task};

// The cheapest coupling of a task's pair k, where there is one.
fn best_if_any(
    task: &Task,
    k: usize,
    values: &[f64],
    shares: &mut SharesMut,
    bench: &mut Bench,
) -> Option<Best>
    ensures lists { SameShares shares.old shares.new }
    ensures bested { HasPair task.now k → bested_in result shares.new ≡ best_pair_of task.now k values.now shares.old.places.now shares.old.masses.now }
    ensures none { (HasPair task.now k → ⊥) → (result ≡ None) × (shares.new.places.now ≡ shares.old.places.now) × (shares.new.masses.now ≡ shares.old.masses.now) }
{
    let rows = task.rows(k)?;
    best_coupling(&Valued { rows, values }, shares, bench)
}

// The cheapest coupling of a task's pair k over the front of two lists, on work space that is lent. Value 0 and no share where there is no such pair, a row can't be read or has over 32 entries, there are over 4,096 codes, or a list is short: the lists are then as they were.
pub fn best_pair(
    task: &Task,
    k: usize,
    values: &[f64],
    shares: &mut SharesMut,
    bench: &mut Bench,
) -> Best
    ensures lists { SameShares shares.old shares.new }
    ensures bested { HasPair task.now k → bested result.value result.cells shares.new.places.now shares.new.masses.now ≡ best_pair_of task.now k values.now shares.old.places.now shares.old.masses.now }
    ensures none { (HasPair task.now k → ⊥) → bested result.value result.cells shares.new.places.now shares.new.masses.now ≡ bested nought 0 shares.old.places.now shares.old.masses.now }
{
    best_if_any(task, k, values, shares, bench).unwrap_or_default()
}
