// What `build` is handed, and the checks of transitions that need no work space.
#![tactic(auto)]

pub mod keys; // keys.rt: transitions as numbers in their order
pub mod lent; // lent.rt: a model asked for, and the lists that it goes into

ghost use Rattle.std.specs.Prelude.{◌≡◌, ltb, take};
ghost use Rattle.numbers.specs.Lists.{all};
ghost use Rattle.numbers.specs.Refuse.{check, code};
ghost use Rattle.bisim_core.specs.Model;
ghost use Rattle.build_theory.specs.Checks;
ghost use Rattle.build_theory.specs.Lent.{transitions_of};

use crate::lent::Draft;
use bisim_core::wlts::starts_outside;
use numbers::bounds::Bounds;
use numbers::refusal::Refusal;
use numbers::{GREATEST_WEIGHT, LEAST_WEIGHT};

// What a weight other than 0 may be.
const WEIGHTS: Bounds = Bounds {
    least: LEAST_WEIGHT,
    greatest: GREATEST_WEIGHT,
};

// Whether the entries of a column that count are below the state count.
fn all_below(draft: &Draft, column: &[u32]) -> bool
    ensures { result ≡ all (λ x. ltb x draft.now.states) (take draft.now.given column.now) }
{
    let counting = &column[..draft.given.min(column.len())];
    numbers::all_below(counting, draft.states)
}

// 4: a state number that is not below the state count.
fn outside(draft: &Draft) -> bool
    ensures { result ≡ Checks.outside draft.now.states draft.now.initial (transitions_of draft.now) draft.now.given }
{
    starts_outside(draft.initial, draft.states)
        || !all_below(draft, draft.sources)
        || !all_below(draft, draft.targets)
}

fn weighs(w: f64) -> bool
    ensures { result ≡ Model.weighs w }
{
    w == 0.0 || WEIGHTS.hold(w)
}

// 5 fails where this is false.
fn all_weigh(draft: &Draft) -> bool
    ensures { result ≡ all Model.weighs (take draft.now.given draft.now.weights.now) }
{
    draft.weights.iter().take(draft.given).all(|w| weighs(*w))
}

// Turned back with 4 or 5, the first of the two that fails.
pub fn fault(draft: &Draft) -> Result<(), Refusal>
    ensures { code result ≡ check 4 (Checks.outside draft.now.states draft.now.initial (transitions_of draft.now) draft.now.given)
        (check 5 (Checks.unweighed (transitions_of draft.now) draft.now.given) 0) }
{
    if outside(draft) {
        return Err(Refusal::OutOfRange);
    }
    if !all_weigh(draft) {
        return Err(Refusal::Weight);
    }
    Ok(())
}
