// `bisim_distance`, with the row of contribution records that is lent to it.
ghost use Rattle.std.specs.Prelude.{◌≡◌};
ghost use Rattle.numbers.specs.Refuse.{numbered};
ghost use Rattle.chain_theory.specs.Lent.{of_store, SameLists};
ghost use Rattle.chains.specs.Observing.{of_both};
ghost use Rattle.distance_theory.specs.Lent.{SameScratch};
ghost use Rattle.distance_theory.specs.Outcome.{ends, chains_end, bisim_distance};
ghost use Rattle.distance.specs.Measuring.{memory_of};

use bisim_measure::measure::measure;
use chain_theory::ChainStore;
use chains::observed::Observed;
use distance::entry::hand_out;
use distance_theory::lent::Scratch;
use distance_theory::{Distance, Goal, PairContribution};
use numbers::refusal::Refusal;

// The distance of a state of one model to a state of another: that of their chains at the common rate, from these states, with observations scaled together. Or the first check that fails. The lists lent for the chains are scratch too.
// Stays: a side and the store for its chain as one struct would have four lifetimes (with one it is refused where exports makes it: 'a struct holds at one lifetime parameter two references at two lifetimes of the signature'), and each function that it is lent to by `&mut` would promise besides that the side is as it was.
pub fn bisim_distance(
    left: &Observed,
    left_chain: &mut ChainStore,
    right: &Observed,
    right_chain: &mut ChainStore,
    goal: Goal,
    scratch: &mut Scratch,
    records: &mut [PairContribution],
) -> Result<Distance, Refusal>
    ensures same_lists { SameLists left_chain.old left_chain.new × SameLists right_chain.old right_chain.new }
    ensures lists { SameScratch scratch.old scratch.new }
    ensures ends { chains_end (ends (numbered result) (memory_of scratch.new records.new)) (of_store left_chain.new) (of_store right_chain.new) ≡ of_both bisim_distance left.now left_chain.old right.now right_chain.old goal.gamma goal.options (memory_of scratch.old records.old) }
{
    let told = measure(
        left,
        left_chain,
        right,
        right_chain,
        goal,
        scratch,
        records.len(),
    );
    hand_out(records, told)
}
