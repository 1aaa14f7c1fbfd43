// A round of improvement: each pair in turn, its cheapest coupling against the values.
ghost use Rattle.std.specs.Prelude.{◌≡◌, false, ◌≤◌, length};
ghost use Rattle.numbers.specs.Real.{nought};
ghost use Rattle.chain_theory.specs.Lent.{of_chain};
ghost use Rattle.distance_theory.specs.Lent.{SameStore};
ghost use Rattle.distance_words.proofs.Improving.{bettered_as, better_from, best_in, improve_in};
ghost use Rattle.distance_words.proofs.Improving;

use crate::adopt::adopt;
use distance_couplings::bench::Bench;
use distance_couplings::choose::best_pair;
use distance_theory::lent::{SharesMut, StoreMut, Task};
use distance_theory::long;
use distance_words::told::Improvement;
use numbers::{apart, larger};

// An entry of each list for each of n pairs.
// Stays: n is no count of entries of one list; it is what each length is compared with.
fn counted(n: usize, task: &Task, values: &[f64], starts: &[u32], store: &StoreMut) -> bool
    ensures { result ≡ Improving.counted n (length task.now.pairs.lefts.now) (length task.now.pairs.rights.now) (length values.now) (length task.now.cost.now) (length starts.now) (length store.now.lengths.now) }
{
    long(
        n,
        &[
            task.pairs.lefts.len(),
            task.pairs.rights.len(),
            values.len(),
            task.cost.len(),
            starts.len(),
            store.lengths.len(),
        ],
    )
}

// Pair after pair.
// Stays: values past the n-th are read, so that they can't be cut to n.
fn improve_each(
    n: usize,
    task: &Task,
    values: &[f64],
    starts: &[u32],
    store: &mut StoreMut,
    bench: &mut Bench,
) -> Improvement
    requires { (n ≤ length task.now.pairs.lefts.now) × (n ≤ length task.now.pairs.rights.now) × (n ≤ length values.now) × (n ≤ length task.now.cost.now) × (n ≤ length starts.now) × (n ≤ length store.old.lengths.now) }
    ensures lists { SameStore store.old store.new }
    ensures bettered { bettered_as result store.new ≡ better_from (best_in task.now values.now) values.now task.now.gamma task.now.cost.now starts.now n 0 nought false store.old.lengths.now store.old.places.now store.old.masses.now }
{
    let mut js = [0u32; 1024];
    let mut ms = [0.0f64; 1024];
    let mut work = SharesMut {
        places: &mut js,
        masses: &mut ms,
    };
    let mut residual = 0.0;
    let mut improved = false;
    for k in 0..n {
        let best = best_pair(task, k, values, &mut work, bench);
        residual = larger(
            residual,
            apart(task.cost[k] + task.gamma * best.value, values[k]),
        );
        improved |= adopt(
            best.value,
            &work.first(best.cells),
            values,
            k,
            starts,
            store,
        );
    }
    Improvement { residual, improved }
}

// The couplings of the first n pairs in the store, improved against these values; a value past the n-th is read and stands as it is. Where the left or right states, the values, the costs, or the starts or lengths of the couplings are fewer than n, nothing changes, and nothing is told to be off.
// Stays: values past the n-th are read, so that they can't be cut to n.
pub fn improve_first(
    n: usize,
    task: &Task,
    values: &[f64],
    starts: &[u32],
    store: &mut StoreMut,
    bench: &mut Bench,
) -> Improvement
    ensures lists { SameStore store.old store.new }
    ensures bettered { bettered_as result store.new ≡ Improving.improve n task.now.pairs.lefts.now task.now.pairs.rights.now task.now.pairs.codes.now (of_chain task.now.left) (of_chain task.now.right) values.now task.now.cost.now task.now.gamma starts.now store.old.lengths.now store.old.places.now store.old.masses.now }
{
    if !counted(n, task, values, starts, store) {
        return Improvement {
            residual: 0.0,
            improved: false,
        };
    }
    improve_each(n, task, values, starts, store, bench)
}

// The couplings of the pairs in the store, improved against their values. Where the left or right states, the costs, or the starts or lengths of the couplings are fewer than the values, nothing changes, and nothing is told to be off.
pub fn improve(
    task: &Task,
    values: &[f64],
    starts: &[u32],
    store: &mut StoreMut,
    bench: &mut Bench,
) -> Improvement
    ensures lists { SameStore store.old store.new }
    ensures bettered { bettered_as result store.new ≡ improve_in task.now values.now starts.now store.old }
{
    improve_first(values.len(), task, values, starts, store, bench)
}
