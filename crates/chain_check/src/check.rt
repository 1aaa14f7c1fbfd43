// The first check that a chain handed in fails.
ghost use Rattle.std.specs.Prelude.{◌≡◌};
ghost use Rattle.numbers.specs.Refuse.{code};
ghost use Rattle.chain_theory.specs.Lent.{of_chain};
ghost use Rattle.chain_theory.specs.Check.{chain_refusal};

use crate::rows::all_proper;
use crate::shape::misshapen;
use chain_theory::Chain;
use numbers::bounds::Bounds;
use numbers::refusal::Refusal;

// Turned back by check 4, 7, 12 or 13; `bounds` are those of the observations. A chain of no states fails 4, since its initial state is none of them.
#[tactic(auto, unfolding(chain_theory::specs::Check::chain_refusal))]
pub fn chain_refusal(chain: &Chain, bounds: Bounds) -> Result<(), Refusal>
    ensures { code result ≡ chain_refusal bounds.least bounds.greatest chain.now.shape (of_chain chain.now) }
{
    let states = chain.shape.states;
    if misshapen(chain) {
        return Err(Refusal::OutOfRange);
    }
    if chain.observations.len() < states {
        return Err(Refusal::Store);
    }
    if !bounds.hold_all(&chain.observations[..states]) {
        return Err(Refusal::Observation);
    }
    if states > 2000 || !all_proper(chain) {
        return Err(Refusal::Chain);
    }
    Ok(())
}
