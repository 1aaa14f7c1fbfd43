// The checks of a model with what comes with it, and of all arguments together.
ghost use Rattle.std.specs.Prelude.{◌≡◌};
ghost use Rattle.numbers.specs.Refuse.{code};
ghost use Rattle.chain_theory.specs.Lent.{of_store};
ghost use Rattle.distance_theory.specs.Refusal.{bisim_refusal};
ghost use Rattle.chains.specs.Observing.{of_observed, of_both};
ghost use Rattle.bisim_checks.specs.Rest.{of_rest};
ghost use Rattle.bisim_checks.specs.Sides.{beside_refusal, side_refusal};

use crate::rest::{Rest, rest_refusal};
use chain_theory::{ChainStore, OBSERVATIONS};
use chains::checks::cramped;
use chains::observed::Observed;
use numbers::refusal::Refusal;
use parts::refusals::earlier;

// Turned back with the first check that fails of what is lent beside a model, of its initial state and of its observations.
fn beside_refusal(side: &Observed, store: &ChainStore) -> Result<(), Refusal>
    ensures { code result ≡ beside_refusal side.now.model.shape side.now.observations.now (of_store store.now) }
{
    let shape = side.model.shape;
    if cramped(shape, side.observations, store) {
        return Err(Refusal::Store);
    }
    if shape.initial.is_none() {
        return Err(Refusal::NoInitialState);
    }
    if !OBSERVATIONS.hold_all(&side.observations[..shape.states]) {
        return Err(Refusal::Observation);
    }
    Ok(())
}

// The same of a model, a state of it, its observations and the lists lent for its chain.
pub fn side_refusal(side: &Observed, store: &ChainStore) -> Result<(), Refusal>
    ensures { code result ≡ of_observed side_refusal side.now store.now }
{
    let model = side.model;
    model.check_with(model.shape.states <= side.state.0 as usize)?;
    beside_refusal(side, store)
}

// The same of the arguments of `bisim_distance`, over both models and the rest.
// Stays: a side and the store for its chain as one struct would have four lifetimes (with one it is refused where exports makes it: 'a struct holds at one lifetime parameter two references at two lifetimes of the signature'), and each function that it is lent to by `&mut` would promise besides that the side is as it was.
pub fn bisim_refusal(
    left: &Observed,
    left_store: &ChainStore,
    right: &Observed,
    right_store: &ChainStore,
    rest: Rest,
) -> Result<(), Refusal>
    ensures { code result ≡ of_rest (of_both bisim_refusal left.now left_store.now right.now right_store.now) rest }
{
    let of_left = side_refusal(left, left_store);
    let of_right = side_refusal(right, right_store);
    let of_rest = rest_refusal(rest);
    earlier(of_rest, earlier(of_left, of_right))
}
