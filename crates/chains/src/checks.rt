// What `uniformise` refuses.
ghost use Rattle.std.specs.Prelude.{◌≡◌, ◌+◌, ltb, length};
ghost use Rattle.numbers.specs.Refuse.{code};
ghost use Rattle.bisim_core.specs.Data.{columns_of};
ghost use Rattle.chain_theory.specs.Check;
ghost use Rattle.chain_theory.specs.Lent.{of_store};
ghost use Rattle.chains.specs.Outcome;

use bisim_core::wlts::{Shape, Wlts};
use chain_theory::{ChainStore, OBSERVATIONS};
use numbers::bounds::Bounds;
use numbers::refusal::Refusal;
use numbers::{GREATEST_RATE, LEAST_WEIGHT};

// What a rate may be.
const RATES: Bounds = Bounds {
    least: LEAST_WEIGHT,
    greatest: GREATEST_RATE,
};

// Whether n is below a + b, also where a usize does not hold that sum.
fn below_sum(n: usize, a: usize, b: usize) -> bool
    ensures { result ≡ ltb n (a + b) }
{
    n.checked_sub(a).is_none_or(|rest| rest < b)
}

// Whether there are fewer observations than states, or a list lent for the chain is short.
pub fn cramped(shape: Shape, observations: &[f64], store: &ChainStore) -> bool
    ensures { result ≡ Check.cramped shape.states shape.edges (length observations.now) (of_store store.now) }
{
    let Shape { states, edges, .. } = shape;
    observations.len() < states
        || store.offsets.len() <= states
        || below_sum(store.targets.len(), edges, states)
        || below_sum(store.probs.len(), edges, states)
        || store.observations.len() < states
}

// Turned back with the first check that fails.
// Stays: the state of the chain is the model's initial one, so that an `Observed` would name a second.
pub(crate) fn uniformise_refusal(
    model: &Wlts,
    rate: f64,
    observations: &[f64],
    store: &ChainStore,
) -> Result<(), Refusal>
    ensures { code result ≡ Outcome.uniformise_refusal model.now.shape (columns_of model.now) rate observations.now (of_store store.now) }
{
    model.check()?;
    if cramped(model.shape, observations, store) {
        return Err(Refusal::Store);
    }
    if model.shape.initial.is_none() {
        return Err(Refusal::NoInitialState);
    }
    if !RATES.hold(rate) {
        return Err(Refusal::DiscountOrRate);
    }
    if !OBSERVATIONS.hold_all(&observations[..model.shape.states]) {
        return Err(Refusal::Observation);
    }
    Ok(())
}
