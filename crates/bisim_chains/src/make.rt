// The checks of all arguments, and the chains of both models, made in the lists that are lent for them.
ghost use Rattle.std.specs.Prelude.{◌≡◌};
ghost use Rattle.numbers.specs.Refuse.{numbered};
ghost use Rattle.chain_theory.specs.Lent.{of_store, SameLists};
ghost use Rattle.chains.specs.Observing.{of_both};
ghost use Rattle.bisim_checks.specs.Rest.{of_rest};
ghost use Rattle.bisim_checks.proofs.Passed.{SideOf};
ghost use Rattle.bisim_chains.specs.Made.{made, models_made, bisim_made};

use bisim_checks::rest::Rest;
use bisim_checks::sides::bisim_refusal;
use chain_theory::{ChainShape, ChainStore};
use chains::chain::{common_rate, try_lay_chain};
use chains::observed::Observed;
use normalise::scale_together;
use numbers::refusal::Refusal;

// Two models that passed all checks, at the common rate, from a state of each, their observations scaled together. None of the refusals is met.
// Stays: a side and the store for its chain as one struct would have four lifetimes (with one it is refused where exports makes it: 'a struct holds at one lifetime parameter two references at two lifetimes of the signature'), and each function that it is lent to by `&mut` would promise besides that the side is as it was.
fn lay_chains(
    left: &Observed,
    left_store: &mut ChainStore,
    right: &Observed,
    right_store: &mut ChainStore,
) -> Result<(ChainShape, ChainShape), Refusal>
    requires left_side { SideOf left.now left_store.old }
    requires right_side { SideOf right.now right_store.old }
    ensures outcome { made (numbered result) (of_store left_store.new) (of_store right_store.new) ≡ of_both models_made left.now left_store.old right.now right_store.old }
    ensures same_lists { SameLists left_store.old left_store.new × SameLists right_store.old right_store.new }
{
    let rate = common_rate(&left.model, &right.model)?;
    let first = try_lay_chain(left, rate, left_store)?;
    let second = try_lay_chain(right, rate, right_store)?;
    scale_together(
        &mut left_store.observations[0..first.states],
        &mut right_store.observations[0..second.states],
    );
    Ok((first, second))
}

// The chains of two models, where no check of the arguments of `bisim_distance` fails; else the lists are as they were.
// Stays: a side and the store for its chain as one struct would have four lifetimes (with one it is refused where exports makes it: 'a struct holds at one lifetime parameter two references at two lifetimes of the signature'), and each function that it is lent to by `&mut` would promise besides that the side is as it was.
pub fn make_chains(
    left: &Observed,
    left_store: &mut ChainStore,
    right: &Observed,
    right_store: &mut ChainStore,
    rest: Rest,
) -> Result<(ChainShape, ChainShape), Refusal>
    ensures outcome { made (numbered result) (of_store left_store.new) (of_store right_store.new) ≡ of_rest (of_both bisim_made left.now left_store.old right.now right_store.old) rest }
    ensures same_lists { SameLists left_store.old left_store.new × SameLists right_store.old right_store.new }
{
    bisim_refusal(left, left_store, right, right_store, rest)?;
    lay_chains(left, left_store, right, right_store)
}
