// The independent couplings of the pairs, laid one after the other.
ghost use Rattle.std.specs.Prelude.{◌≡◌, ◌≤◌, length, not, is_ok};
ghost use Rattle.numbers.specs.Refuse.{check, code};
ghost use Rattle.distance_theory.specs.Lent.{SameStore};
ghost use Rattle.distance_words.proofs.Store.{filled_as, fill_from, laying_in, fill_in};

use distance_couplings::pairs::lay_pair;
use distance_theory::lent::{StoreMut, Task};
use distance_theory::long;
use numbers::refusal::Refusal;

// Pair after pair, up to one that can't be laid.
fn fill_each(task: &Task, starts: &mut [u32], store: &mut StoreMut) -> Result<(), Refusal>
    requires { (length task.now.pairs.lefts.now ≤ 4096) × (length task.now.pairs.lefts.now ≤ length task.now.pairs.rights.now) × (length task.now.pairs.lefts.now ≤ length starts.old) × (length task.now.pairs.lefts.now ≤ length store.old.lengths.now) }
    ensures lists { SameStore store.old store.new }
    ensures refusal { code result ≡ check 18 (not (is_ok result)) 0 }
    ensures filled { filled_as (is_ok result) starts.new store.new ≡ fill_from (laying_in task.now) (length task.now.pairs.lefts.now) 0 0 starts.old store.old.lengths.now store.old.places.now store.old.masses.now }
{
    let mut at = 0;
    for k in 0..task.pairs.lefts.len() {
        let cells = lay_pair(task, k, &mut store.places[at..], &mut store.masses[at..]).ok_or(
            Refusal::CouplingStore,
        )?;
        starts[k] = at as u32;
        store.lengths[k] = cells as u32;
        at += cells;
    }
    Ok(())
}

// The independent couplings of a task's pairs: in the store one after the other, with where each starts and how long it is. 18 where one can't be laid, because its rows can't be read or have over 32 entries, or the store is too short: those before it are laid then. 18 too, with nothing laid, where there are over 4,096 pairs or a list is short.
pub fn lay_store(task: &Task, starts: &mut [u32], store: &mut StoreMut) -> Result<(), Refusal>
    ensures lists { SameStore store.old store.new }
    ensures refusal { code result ≡ check 18 (not (is_ok result)) 0 }
    ensures filled { filled_as (is_ok result) starts.new store.new ≡ fill_in task.now starts.old store.old }
{
    let n = task.pairs.lefts.len();
    let lengths = [task.pairs.rights.len(), starts.len(), store.lengths.len()];
    if n > 4096 || !long(n, &lengths) {
        return Err(Refusal::CouplingStore);
    }
    fill_each(task, starts, store)
}
