// The rounds: the values of the couplings, and their improvement against these.
ghost use Rattle.std.specs.Prelude.{◌≡◌, not, ◌||◌, false};
ghost use Rattle.std.specs.Float.{inf};
ghost use Rattle.std.specs.Float.Ieee.{le};
ghost use Rattle.numbers.specs.Refuse.{code};
ghost use Rattle.distance_theory.specs.Lent.{SameStore};
ghost use Rattle.distance_theory.specs.Rounds.{many};
ghost use Rattle.distance_words.proofs.Valuing.{valued, evaluated};
ghost use Rattle.distance_words.proofs.Iterating.{iterated_as, iterate_from, iterate_in, task_of, valued_in};

use crate::improve::improve_first;
use distance_couplings::bench::Bench;
use distance_theory::lent::{StoreMut, Task};
use distance_values::values::{Costed, sweeps};
use distance_values::visits::Policy;
use distance_words::told::{Improvement, Rounds};
use numbers::infinity;
use numbers::refusal::Refusal;

// Whether a round is the last: no coupling has changed, or no value is off by more than the aim.
fn ended(step: Improvement, aim: f64) -> bool
    ensures { result ≡ (not step.improved || le step.residual aim) }
{
    !step.improved || step.residual <= aim
}

// The values of the couplings of all pairs, to within tol or after 1,000,000 sweeps.
fn evaluate(
    task: &Task,
    starts: &[u32],
    store: &StoreMut,
    tol: f64,
    value: &mut [f64],
) -> Result<(), Refusal>
    ensures { valued (code result) value.new ≡ valued_in task.now starts.now store.now tol value.old }
{
    let policy = Policy {
        store: store.read(starts),
        gamma: task.gamma,
    };
    let of = Costed {
        policy,
        cost: task.cost,
    };
    sweeps(1000000, &of, tol, value)
}

// The same of the first n pairs; values past these stay as they were, and so do all where `sweeps` refuses or there are fewer.
// Stays: the cut is made here, by the test that there are n.
fn evaluate_first(
    n: usize,
    task: &Task,
    starts: &[u32],
    store: &StoreMut,
    tol: f64,
    value: &mut [f64],
) -> Result<(), Refusal>
    ensures { valued (code result) value.new ≡ evaluated many starts.now store.now.lengths.now store.now.places.now store.now.masses.now task.now.cost.now task.now.gamma tol value.old n }
{
    if n > value.len() {
        return Err(Refusal::CouplingStore);
    }
    evaluate(task, starts, store, tol, &mut value[..n])
}

// At most max_rounds rounds on the couplings of the first n pairs in the store: values to within tol, improvement against these, up to a round that changes no coupling or leaves no value off by more than `aim`. A value past the n-th is read and stands as it is. Where `sweeps` refuses or there are fewer values, they stay as they were, and the round goes on with them.
// Stays: values past the n-th are read, so that they can't be cut to n.
pub fn iterate_first(
    max_rounds: usize,
    n: usize,
    task: &Task,
    aim: f64,
    tol: f64,
    starts: &[u32],
    store: &mut StoreMut,
    values: &mut [f64],
    bench: &mut Bench,
) -> Rounds
    ensures lists { SameStore store.old store.new }
    ensures iterated { iterated_as result values.new store.new ≡ iterate_from (task_of task.now n starts.now aim tol) max_rounds (inf false) 0 values.old store.old.lengths.now store.old.places.now store.old.masses.now }
{
    let mut residual = infinity();
    for rounds in 0..max_rounds {
        // Stays: the refusal is dropped, for `iterate` is public and could not fail before, and so it may not now; the values stay as they were then.
        let _ = evaluate_first(n, task, starts, store, tol, values);
        let step = improve_first(n, task, values, starts, store, bench);
        residual = step.residual;
        if ended(step, aim) {
            return Rounds {
                residual,
                rounds: rounds + 1,
            };
        }
    }
    Rounds {
        residual,
        rounds: max_rounds,
    }
}

// The rounds of all pairs that have a value: at most max_rounds on couplings in the store, as `iterate_first` makes them. Where `sweeps` refuses, the values stay as they were, and the round goes on with them.
pub fn iterate(
    max_rounds: usize,
    task: &Task,
    aim: f64,
    tol: f64,
    starts: &[u32],
    store: &mut StoreMut,
    values: &mut [f64],
    bench: &mut Bench,
) -> Rounds
    ensures lists { SameStore store.old store.new }
    ensures iterated { iterated_as result values.new store.new ≡ iterate_in max_rounds task.now aim tol starts.now store.old values.old }
{
    iterate_first(
        max_rounds,
        values.len(),
        task,
        aim,
        tol,
        starts,
        store,
        values,
        bench,
    )
}
