// Labels interned: ids by first appearance.
ghost use Rattle.std.specs.Prelude.{◌≡◌, ◌≤◌, ◌<◌, length, take};
ghost use Rattle.std.specs.Option.{MatchOption};
ghost use Rattle.numbers.specs.Lists.{over};
ghost use Rattle.numbers.specs.Search;
ghost use Rattle.bisim_core.specs.Ids.{distinct};
ghost use Rattle.bisim_core.proofs.Distinct.{Single};
ghost use Rattle.build_theory.proofs.Steps.{Interned};

use numbers::seek;

// Where x stands among the store's first `count` values, which are distinct, if it does; a good guess spares the search.
// Stays: a full store is searched by itself, since its length is fixed where it is made, and the compiler then compares four values at a time: `build_4096_stride_labels` takes 386 us without this test, 266 with it.
fn place(store: &[u32], count: usize, guess: usize, x: u32) -> Option<usize>
    requires { (count ≤ length store.now) × Single (take count store.now) }
    ensures { result ≡ Search.place x (take count store.now) }
{
    let known = &store[..count];
    if known.get(guess) == Some(&x) {
        return Some(guess);
    }
    if known.len() == store.len() {
        return seek(store, x);
    }
    seek(known, x)
}

// The distinct values go into the store, and the id of each into ids: how many they are, if the store holds as many.
// An entry of `guesses` is the id of the last value with that remainder.
pub(crate) fn intern_all(values: &[u32], store: &mut [u32], ids: &mut [u64]) -> Option<usize>
    requires { (length values.now ≤ length ids.old) × (length store.old ≤ 4096) }
    ensures { MatchOption result (length store.old < length (distinct values.now)) (λ n. Interned values.now store.old store.new ids.old ids.new n) }
{
    let mut guesses = [0u8; 1024];
    let mut count = 0;
    for (i, value) in values.iter().enumerate() {
        let x = *value;
        let g = (x % 1024) as usize;
        let k = match place(store, count, guesses[g] as usize, x) {
            Some(at) => at,
            None => {
                let new = count;
                if new == store.len() {
                    return None;
                }
                store[new] = x;
                count += 1;
                new
            }
        };
        guesses[g] = (k % 256) as u8;
        ids[i] = k as u64;
    }
    Some(count)
}

// The values known, over the front of a list.
pub(crate) fn write_labels(known: &[u32], to: &mut [u32])
    requires { length known.now ≤ length to.old }
    ensures { to.new ≡ over known.now to.old }
{
    to[..known.len()].copy_from_slice(known);
}
