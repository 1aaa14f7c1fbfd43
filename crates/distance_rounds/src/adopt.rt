// A pair gets another coupling where that is better.
ghost use Rattle.std.specs.Prelude.{◌≡◌, ◌≤◌, ◌<◌, length};
ghost use Rattle.distance_theory.specs.Lent.{SameStore};
ghost use Rattle.distance_words.proofs.Improving.{adopted_as, adopt_in};

use distance_theory::lent::{Shares, StoreMut};
use numbers::EPS;

// The coupling of these shares, which comes to `value`, for pair k where it is better by more than 1e-12.
pub(crate) fn adopt(
    value: f64,
    shares: &Shares,
    values: &[f64],
    k: usize,
    starts: &[u32],
    store: &mut StoreMut,
) -> bool
    requires { (k < length starts.now) × (k < length store.old.lengths.now) × (length shares.now.masses.now ≡ length shares.now.places.now) × (length shares.now.places.now ≤ 1024) }
    ensures lists { SameStore store.old store.new }
    ensures adopted { adopted_as result store.new ≡ adopt_in value shares.now.places.now shares.now.masses.now values.now k starts.now store.old }
{
    let current = store.read(starts).shares(k).expected(values);
    if !(value < current - EPS) {
        return false;
    }
    let from = starts[k] as usize;
    let n = shares.places.len();
    if from + n > store.places.len() || from + n > store.masses.len() {
        return false;
    }
    store.places[from..from + n].copy_from_slice(shares.places);
    store.masses[from..from + n].copy_from_slice(shares.masses);
    store.lengths[k] = n as u32;
    true
}
