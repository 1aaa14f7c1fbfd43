// `common_rate` and `uniformise` of kantorovich.rs.
ghost use Rattle.std.specs.Prelude.{◌≡◌, length, false};
ghost use Rattle.numbers.specs.Refuse.{numbered};
ghost use Rattle.bisim_core.specs.Data.{columns_of};
ghost use Rattle.bisim_core.specs.Model;
ghost use Rattle.bisim_core.proofs.Accepted.{Accepted};
ghost use Rattle.chain_theory.specs.Chain;
ghost use Rattle.chain_theory.specs.Chain.{or_one};
ghost use Rattle.chain_theory.specs.Check;
ghost use Rattle.chain_theory.specs.Lent.{of_store, SameLists};
ghost use Rattle.chains.specs.Outcome;
ghost use Rattle.chains.specs.Observing.{lay_observed, try_lay_observed};

use crate::checks::{cramped, uniformise_refusal};
use crate::observed::Observed;
use crate::rates::greatest_exit;
use crate::rows::make_rows;
use bisim_core::ids::StateId;
use bisim_core::wlts::Wlts;
use chain_theory::{ChainShape, ChainStore};
use numbers::larger;
use numbers::refusal::Refusal;
use parts::refusals::earlier;
use parts::starts::start;

// q, or 1 if it is not above 0.
fn or_one(q: f64) -> f64
    ensures { result ≡ or_one q }
{
    if q > 0.0 { q } else { 1.0 }
}

// The rate that covers both models: the greatest exit rate, self-loops left out, or 1 if nothing moves.
pub fn common_rate(left: &Wlts, right: &Wlts) -> Result<f64, Refusal>
    ensures { numbered result ≡ Outcome.rated left.now.shape (columns_of left.now) right.now.shape (columns_of right.now) }
{
    earlier(left.check(), right.check())?;
    let q = greatest_exit(left);
    let p = greatest_exit(right);
    Ok(or_one(larger(q, p)))
}

// The chain of an accepted model in lists that are long enough.
fn lay(observed: &Observed, rate: f64, store: &mut ChainStore) -> ChainShape
    requires accepted { Accepted observed.now.model.shape (columns_of observed.now.model) }
    requires room { Check.cramped observed.now.model.shape.states observed.now.model.shape.edges (length observed.now.observations.now) (of_store store.old) ≡ false }
    ensures laid_out { Outcome.LaidOut (Chain.uniformise (Model.model observed.now.model.shape (columns_of observed.now.model)) rate observed.now.observations.now observed.now.state.0) result (of_store store.old) (of_store store.new) }
    ensures same_lists { SameLists store.old store.new }
{
    let states = observed.model.shape.states;
    store.observations[0..states].copy_from_slice(&observed.observations[..states]);
    let entries = make_rows(&observed.model, rate, store);
    ChainShape {
        states,
        entries,
        initial: observed.state,
    }
}

// The chain of a model at a rate, with an observation of each state, in the lists that are lent. The entries past it are as they were, and so are the lists after a refusal.
// Stays: the state of the chain is the model's initial one, so that an `Observed` would name a second.
pub fn uniformise(
    model: &Wlts,
    rate: f64,
    observations: &[f64],
    store: &mut ChainStore,
) -> Result<ChainShape, Refusal>
    ensures outcome { Outcome.ends (numbered result) (of_store store.new) ≡ Outcome.uniformised model.now.shape (columns_of model.now) rate observations.now (of_store store.old) }
    ensures same_lists { SameLists store.old store.new }
{
    uniformise_refusal(model, rate, observations, store)?;
    let state = start(model.shape.initial);
    let observed = Observed {
        model: *model,
        state,
        observations,
    };
    Ok(lay(&observed, rate, store))
}

// The chain of a model at a rate from a state, as `uniformise` makes it, whatever the rate, the state and the observations. The lists are as they were where the model is refused, or by 7 where a list is short.
pub fn try_lay_chain(
    observed: &Observed,
    rate: f64,
    store: &mut ChainStore,
) -> Result<ChainShape, Refusal>
    ensures outcome { Outcome.ends (numbered result) (of_store store.new) ≡ try_lay_observed observed.now rate store.old }
    ensures same_lists { SameLists store.old store.new }
{
    observed.model.check()?;
    if cramped(observed.model.shape, observed.observations, store) {
        return Err(Refusal::Store);
    }
    Ok(lay(observed, rate, store))
}

// The chain that `try_lay_chain` lays. No states, and the lists as they were, where the model is refused or a list is short.
// Stays: `unwrap_or_default()` would ask a default of `ChainShape` and so of `StateId`, and state 0 is a state like any other.
pub fn lay_chain(observed: &Observed, rate: f64, store: &mut ChainStore) -> ChainShape
    ensures outcome { Outcome.laying result (of_store store.new) ≡ lay_observed observed.now rate store.old }
    ensures same_lists { SameLists store.old store.new }
{
    try_lay_chain(observed, rate, store).unwrap_or(ChainShape {
        states: 0,
        entries: 0,
        initial: StateId(0),
    })
}
