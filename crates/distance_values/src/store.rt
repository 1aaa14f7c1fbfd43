// Whether the couplings in rows of numbers can be read: each in the store, and of pairs that are there. And the coupling of a pair.
ghost use Rattle.std.specs.Prelude.{◌≡◌, ◌+◌, ◌≤◌, length, get_or};
ghost use Rattle.distance_theory.specs.Lent.{Couples, HasCoupling};
ghost use Rattle.distance_words.proofs.Readable.{held_in, lies_in};

use distance_theory::lent::{Shares, Store};
use numbers::all_below;

// Whether the coupling of pair k is in the store, and leads to some of n pairs.
// Stays: whether all of it is in the store is asked of where it ends, which `Store::shares` has cut off.
fn lies(store: &Store, n: usize, k: usize) -> bool
    requires { HasCoupling store.now k }
    ensures { result ≡ lies_in store.now n k }
{
    let from = store.starts[k] as usize;
    let to = from + store.lengths[k] as usize;
    to <= store.places.len() && to <= store.masses.len() && all_below(&store.places[from..to], n)
}

// The coupling of pair k, all of which is in the store.
// Stays: `Store::shares` asks how much of it is there each time, and with it replay_distance takes 13.6 % more instructions (the program text without contracts, built by rustc -O3).
pub(crate) fn coupling<'a>(store: &Store<'a>, k: usize) -> Shares<'a>
    requires indexed { HasCoupling store.now k }
    requires stored { (get_or store.now.starts.now k 0 + get_or store.now.lengths.now k 0 ≤ length store.now.places.now) × (get_or store.now.starts.now k 0 + get_or store.now.lengths.now k 0 ≤ length store.now.masses.now) }
    ensures { Couples store.now k result }
{
    let from = store.starts[k] as usize;
    let to = from + store.lengths[k] as usize;
    Shares {
        places: &store.places[from..to],
        masses: &store.masses[from..to],
    }
}

// Whether the coupling of each of n pairs is in the store, and leads to some of them.
pub(crate) fn held(store: &Store, n: usize) -> bool
    ensures { result ≡ held_in store.now n }
{
    n <= store.starts.len() && n <= store.lengths.len() && (0..n).all(|k| lies(store, n, k))
}
