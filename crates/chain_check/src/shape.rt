// Check 4: state numbers below the state count, and columns as they must be.
ghost use Rattle.std.specs.Prelude.{◌≡◌, ◌<◌, length};
ghost use Rattle.chain_theory.specs.Lent.{of_chain};
ghost use Rattle.chain_theory.specs.Check;

use chain_theory::{Chain, ChainShape};
use numbers::all_below;

// Too few offsets or entries for the counts.
fn thin(chain: &Chain) -> bool
    ensures { result ≡ Check.thin chain.now.shape (of_chain chain.now) }
{
    let entries = chain.shape.entries;
    chain.offsets.len() <= chain.shape.states
        || chain.targets.len() < entries
        || chain.probs.len() < entries
}

// Offsets from 0 to the count of entries, without falling.
fn steady(chain: &Chain) -> bool
    requires { chain.now.shape.states < length chain.now.offsets.now }
    ensures { result ≡ Check.steady chain.now.shape (of_chain chain.now) }
{
    let states = chain.shape.states;
    let offsets = chain.offsets;
    offsets[0] == 0
        && offsets[states] as usize == chain.shape.entries
        && offsets[..=states].is_sorted()
}

// Whether check 4 turns the chain back.
pub fn misshapen(chain: &Chain) -> bool
    ensures { result ≡ Check.misshapen chain.now.shape (of_chain chain.now) }
{
    let ChainShape {
        states,
        entries,
        initial,
    } = chain.shape;
    initial.0 as usize >= states
        || thin(chain)
        || !steady(chain)
        || !all_below(&chain.targets[..entries], states)
}
