// Two models measured: the run of their chains, and the lists that are lent all zero after it.
ghost use Rattle.std.specs.Prelude.{◌≡◌};
ghost use Rattle.numbers.specs.Refuse.{numbered};
ghost use Rattle.chain_theory.specs.Lent.{of_store, SameLists};
ghost use Rattle.distance_theory.specs.Lent.{SameScratch};
ghost use Rattle.distance_theory.specs.Outcome.{blank};
ghost use Rattle.distance_run.specs.Asked.{ran_in};
ghost use Rattle.bisim_measure.specs.Measure.{measuring, measured_on};

use bisim_chains::make::make_chains;
use bisim_checks::rest::Rest;
use chain_theory::ChainStore;
use chains::observed::Observed;
use distance_run::question::Question;
use distance_run::run::run;
use distance_theory::Goal;
use distance_theory::lent::Scratch;
use distance_words::told::Answer;
use numbers::refusal::Refusal;

// Every entry of the lists that are lent for a chain is 0.
// Stays: `measure` alone calls it; a method of `ChainStore` would stand in chain_theory and be public.
fn clear_chain(chain: &mut ChainStore)
    ensures same_lists { SameLists chain.old chain.new }
    ensures cleared { of_store chain.new ≡ blank (of_store chain.old) }
{
    chain.offsets.fill(0);
    chain.targets.fill(0);
    chain.probs.fill(0.0);
    chain.observations.fill(0.0);
}

// Two models measured: a refusal of the arguments leaves all as it was; else the chains are made and run, and every list is all zero.
// Stays: a side and the store for its chain as one struct would have four lifetimes (with one it is refused where exports makes it: 'a struct holds at one lifetime parameter two references at two lifetimes of the signature'), and each function that it is lent to by `&mut` would promise besides that the side is as it was.
pub fn measure(
    left: &Observed,
    left_chain: &mut ChainStore,
    right: &Observed,
    right_chain: &mut ChainStore,
    goal: Goal,
    scratch: &mut Scratch,
    records: usize,
) -> Result<Answer, Refusal>
    ensures same_lists { SameLists left_chain.old left_chain.new × SameLists right_chain.old right_chain.new }
    ensures lists { SameScratch scratch.old scratch.new }
    ensures measured { measuring (ran_in (numbered result) scratch.new) (of_store left_chain.new) (of_store right_chain.new) ≡ measured_on left.now left_chain.old right.now right_chain.old goal scratch.old records }
{
    let rest = Rest::new(goal, scratch, records);
    let (first, second) = make_chains(left, left_chain, right, right_chain, rest)?;
    let of = Question {
        left: left_chain.chain(first),
        right: right_chain.chain(second),
        goal,
    };
    let told = run(&of, scratch);
    clear_chain(left_chain);
    clear_chain(right_chain);
    told
}
