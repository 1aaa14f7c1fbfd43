// The rounds of a run: first couplings, refusal 16, improvement.
ghost use Rattle.std.specs.Prelude.{◌≡◌, length};
ghost use Rattle.std.specs.Float.{binary64};
ghost use Rattle.std.specs.Float.Ieee.{mul};
ghost use Rattle.numbers.specs.Real.{tenth};
ghost use Rattle.numbers.specs.Refuse.{numbered};
ghost use Rattle.chain_theory.specs.Lent.{of_chain};
ghost use Rattle.distance_theory.specs.Lent.{SameStore};
ghost use Rattle.distance_words.proofs.Iterating.{iterated_as, iterate_in};
ghost use Rattle.distance_words.proofs.Solve.{aim_of, solved, solve_of};
ghost use Rattle.distance_words.proofs.Solve;

use distance_couplings::bench::Bench;
use distance_even::all_even;
use distance_rounds::rounds::iterate;
use distance_store::store::lay_store;
use distance_theory::lent::{StoreMut, Task};
use distance_theory::{MetricOptions, tolerance};
use distance_words::told::Rounds;
use numbers::refusal::Refusal;
use numbers::{ONE, TENTH, infinity};

// How near the values are wanted: tolerance × (1 - γ).
fn aim(gamma: f64, options: MetricOptions) -> f64
    ensures { result ≡ aim_of gamma options }
{
    tolerance(options) * (ONE - gamma)
}

// Whether 16 comes up: only where there are rounds.
fn uneven(max_rounds: usize, task: &Task) -> bool
    ensures { result ≡ Solve.uneven max_rounds (length task.now.pairs.lefts.now) task.now.pairs.lefts.now task.now.pairs.rights.now (of_chain task.now.left) (of_chain task.now.right) }
{
    max_rounds > 0 && !all_even(task)
}

// The rounds, all of whose transports are made on one network.
fn make_rounds(
    task: &Task,
    max_rounds: usize,
    near: f64,
    starts: &[u32],
    store: &mut StoreMut,
    values: &mut [f64],
) -> Rounds
    ensures lists { SameStore store.old store.new }
    ensures iterated { iterated_as result values.new store.new ≡ iterate_in max_rounds task.now near (mul binary64 near tenth) starts.now store.old values.old }
{
    iterate(
        max_rounds,
        task,
        near,
        near * TENTH,
        starts,
        store,
        values,
        &mut Bench::new(),
    )
}

// The couplings of a task's pairs: the independent ones laid in the store, and improved round after round. 18 where they can't be laid, then 16 where rounds are asked for and the totals of a pair do not agree; no round is made then.
pub(crate) fn solve(
    task: &Task,
    options: MetricOptions,
    starts: &mut [u32],
    store: &mut StoreMut,
    values: &mut [f64],
) -> Result<Rounds, Refusal>
    requires { length values.old ≡ length task.now.pairs.lefts.now }
    ensures lists { SameStore store.old store.new }
    ensures solved { solved (numbered result) starts.new store.new.lengths.now store.new.places.now store.new.masses.now values.new ≡ solve_of (length task.now.pairs.lefts.now) task.now.pairs.lefts.now task.now.pairs.rights.now task.now.pairs.codes.now (of_chain task.now.left) (of_chain task.now.right) task.now.cost.now task.now.gamma options starts.old store.old.lengths.now store.old.places.now store.old.masses.now values.old }
{
    lay_store(task, starts, store)?;
    if uneven(options.max_rounds, task) {
        return Err(Refusal::Totals);
    }
    if options.max_rounds == 0 {
        return Ok(Rounds {
            residual: infinity(),
            rounds: 0,
        });
    }
    let near = aim(task.gamma, options);
    Ok(make_rounds(task, options.max_rounds, near, starts, store, values))
}
