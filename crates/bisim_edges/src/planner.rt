// `plan`: the edges of transitions in columns, or what is refused of them.
ghost use Rattle.std.specs.Prelude.{◌≡◌, ◌||◌, ℕ, ◌≤◌, ◌<◌, ltb, length, get_or};
ghost use Rattle.numbers.specs.Refuse.{code};
ghost use Rattle.build_theory.specs.Lent.{transitions_of};
ghost use Rattle.build_theory.proofs.Steps.{Arrangeable, Arranged};
ghost use Rattle.build_theory.proofs.Planning.{Planned, same_lent};

use crate::crowd::crowded;
use crate::edges::join_runs;
use crate::keys::arrange;
use crate::labels::{intern_all, write_labels};
use build_theory::fault;
use build_theory::lent::{Draft, PlanLists};
use numbers::least;
use numbers::refusal::Refusal;

// 7: fewer transitions than are given, by those that all columns have; or a list that is short, of the caller's or by the places in each of those that are filled.
// Stays: `short` is no switch but a fact of the caller's lists, which check 7 is told in its turn.
fn cramped(given: usize, there: usize, room: usize, short: bool) -> bool
    ensures { result ≡ (ltb there given || (short || ltb room given)) }
{
    there < given || short || room < given
}

// Turned back with the first check that fails, the labels being no more than there may be. The keys hold the label ids; they are then sorted.
// Stays: `full` is no switch but check 7, which the caller has made before it lent the keys.
fn arranged(draft: &Draft, full: bool, keys: &mut [u64]) -> Result<(), Refusal>
    requires { Arrangeable draft.now.given keys.old }
    ensures { Arranged draft.now.states draft.now.initial (transitions_of draft.now) draft.now.given full keys.old keys.new (code result) }
{
    if draft.states > 2000 {
        return Err(Refusal::ModelSize);
    }
    fault(draft)?;
    let n = least(
        draft.given,
        draft.sources.len(),
        draft.targets.len(),
        draft.weights.len(),
    );
    arrange(draft.sources, draft.targets, &mut keys[..n]);
    if crowded(&keys[..n], draft.weights) {
        return Err(Refusal::Targets);
    }
    if full {
        return Err(Refusal::Store);
    }
    Ok(())
}

// `plan` of at most 4,096 transitions; the keys, one for each, are work space, all zero.
// Stays: `short`, for the reason that `cramped` gives.
fn plan_in(
    draft: &Draft,
    short: bool,
    lists: &mut PlanLists,
    keys: &mut [u64],
) -> Result<(usize, usize), Refusal>
    requires { (draft.now.given ≤ 4096) × (length keys.old ≡ draft.now.given) × ((j : ℕ) → j < draft.now.given → get_or keys.old j 0 ≡ 0) }
    ensures plan { Planned draft.now short result lists.old lists.new }
    ensures same_lists { same_lent lists.old lists.new }
{
    let there = least(
        draft.sources.len(),
        draft.labels.len(),
        draft.targets.len(),
        draft.weights.len(),
    );
    let room = lists
        .label_values
        .len()
        .min(lists.triples.len())
        .min(lists.edge_weights.len());
    let full = cramped(draft.given, there, room, short);
    let mut known = [0u32; 256];
    let labels = &draft.labels[..draft.given.min(draft.labels.len())];
    let Some(count) = intern_all(labels, &mut known, keys) else {
        return Err(Refusal::ModelSize);
    };
    arranged(draft, full, keys)?;
    write_labels(&known[..count], lists.label_values);
    let edges = join_runs(keys, draft.weights, lists.triples, lists.edge_weights);
    Ok((edges, count))
}

// `plan` of at most N transitions.
// Stays: `short`, for the reason that `cramped` gives.
fn plan_with<const N: usize>(
    draft: &Draft,
    short: bool,
    lists: &mut PlanLists,
) -> Result<(usize, usize), Refusal>
    requires { (draft.now.given ≤ N) × (N ≤ 4096) }
    ensures plan { Planned draft.now short result lists.old lists.new }
    ensures same_lists { same_lent lists.old lists.new }
{
    let mut keys = [0u64; N];
    plan_in(draft, short, lists, &mut keys[..draft.given])
}

// How many edges and how many labels the draft makes, its transitions in order: what the lists hold goes over their front, and each needs as many entries as there are transitions.
// Turned back with the first of checks 3 to 7 that fails, 7 also where the caller has a list that is short: then the lists are left as they were.
// Stays: `short`, for the reason that `cramped` gives.
pub fn plan(draft: &Draft, short: bool, lists: &mut PlanLists) -> Result<(usize, usize), Refusal>
    ensures plan { Planned draft.now short result lists.old lists.new }
    ensures same_lists { same_lent lists.old lists.new }
{
    let given = draft.given;
    if given > 4096 {
        return Err(Refusal::ModelSize);
    }
    if given <= 256 {
        plan_with::<256>(draft, short, lists)
    } else {
        plan_with::<4096>(draft, short, lists)
    }
}
