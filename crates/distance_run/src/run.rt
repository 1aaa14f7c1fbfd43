// The run of two chains, from the discovery of their pairs on.
ghost use Rattle.std.specs.Prelude.{◌≡◌, true, ◌<◌, ◌≤◌, min, length};
ghost use Rattle.numbers.specs.Refuse.{numbered};
ghost use Rattle.chain_theory.specs.Columns.{chain_of};
ghost use Rattle.chain_theory.specs.Lent.{of_chain};
ghost use Rattle.distance_theory.specs.Lent.{SamePairs, SameScratch};
ghost use Rattle.distance_theory.specs.Outcome;
ghost use Rattle.distance_run.specs.Asked.{Seen, ran_in, ran_on, runnable_in};
ghost use Rattle.distance_words.specs.Told.{told_of};
ghost use Rattle.distance_words.proofs.Run;

use crate::found::run_found;
use crate::question::Question;
use crate::scratch::clear;
use chain_theory::Chain;
use distance_pairs::discover::{discover_from, readable, roomy};
use distance_theory::lent::{PairsMut, Scratch};
use distance_words::told::Answer;
use numbers::refusal::Refusal;

// Rows of at most 32 entries.
// Stays: as `offsets[..=states].is_sorted_by(|from, to| *to as usize <= *from as usize + 32)` it is as long, and calls sorted what is no order.
fn slim(chain: &Chain) -> bool
    requires { chain.now.shape.states < length chain.now.offsets.now }
    ensures { result ≡ Run.slim chain.now.shape (of_chain chain.now) }
{
    let offsets = chain.offsets;
    (0..chain.shape.states).all(|s| offsets[s + 1] as usize <= offsets[s] as usize + 32)
}

// A chain of at most 2,000 states that check 4 lets pass, with rows of at most 32 entries and an observation of each state.
fn fits(chain: &Chain) -> bool
    ensures { result ≡ Run.fits chain.now.shape (of_chain chain.now) }
{
    readable(chain) && slim(chain) && chain.shape.states <= chain.observations.len()
}

// Whether the chains can be run, with these lists of pairs and so many contributions asked for.
fn runnable(of: &Question, pairs: &PairsMut) -> bool
    ensures { result ≡ runnable_in of.now (length pairs.now.lefts.now) (length pairs.now.rights.now) (length pairs.now.codes.now) }
{
    fits(&of.left) && fits(&of.right) && of.goal.options.top <= 64 && roomy(pairs)
}

// The chain, with as many observations as it has states.
fn seen<'a>(chain: &Chain<'a>) -> Chain<'a>
    requires { chain.now.shape.states ≤ length chain.now.observations.now }
    ensures { Seen chain.now result }
{
    Chain {
        observations: &chain.observations[..chain.shape.states],
        ..*chain
    }
}

// The same of both chains.
fn observed<'a>(of: &Question<'a>) -> Question<'a>
    requires { (of.now.left.shape.states ≤ length of.now.left.observations.now) × (of.now.right.shape.states ≤ length of.now.right.observations.now) }
    ensures left { Seen of.now.left result.left }
    ensures right { Seen of.now.right result.right }
    ensures goal { result.goal ≡ of.now.goal }
{
    Question {
        left: seen(&of.left),
        right: seen(&of.right),
        goal: of.goal,
    }
}

// The run of chains that can be run. The lists are left as it leaves them.
// Stays: `places` and `masses`, for the reason that `run_found` gives.
fn run_pairs(
    of: &Question,
    pairs: &mut PairsMut,
    places: &mut [u32],
    masses: &mut [f64],
) -> Result<Answer, Refusal>
    requires { runnable_in of.now (length pairs.old.lefts.now) (length pairs.old.rights.now) (length pairs.old.codes.now) ≡ true }
    ensures lists { SamePairs pairs.old pairs.new }
    ensures lengths { (length pairs.new.lefts.now ≡ length pairs.old.lefts.now) × (length pairs.new.rights.now ≡ length pairs.old.rights.now) × (length pairs.new.codes.now ≡ length pairs.old.codes.now) }
    ensures told { numbered result ≡ told_of (Outcome.run (chain_of of.now.left.shape (of_chain of.now.left)) (chain_of of.now.right.shape (of_chain of.now.right)) of.now.goal.gamma of.now.goal.options (min (length places.old) (length masses.old))) }
{
    discover_from(&of.left, &of.right, pairs)?;
    run_found(&pairs.noted(), &observed(of), places, masses)
}

// The run of two chains: refusals 17, 18, 16 and 19, or the distance and its contributions. 4 where they can't be run; the lists are then as they were, else all zero.
pub fn run(of: &Question, scratch: &mut Scratch) -> Result<Answer, Refusal>
    ensures lists { SameScratch scratch.old scratch.new }
    ensures ran { ran_in (numbered result) scratch.new ≡ ran_on of.now scratch.old }
{
    let mut pairs = PairsMut {
        lefts: &mut *scratch.lefts,
        rights: &mut *scratch.rights,
        codes: &mut *scratch.codes,
        count: 0,
    };
    if !runnable(of, &pairs) {
        return Err(Refusal::OutOfRange);
    }
    let told = run_pairs(of, &mut pairs, &mut *scratch.places, &mut *scratch.masses);
    clear(scratch);
    told
}
