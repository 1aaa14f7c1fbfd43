// Whether a relation that is handed in holds a state of the left model with one of the right.
ghost use Rattle.std.specs.Prelude.{◌≡◌};
ghost use Rattle.numbers.specs.Refuse.{code, numbered};
ghost use Rattle.bisimilar.specs.Related.{related_refusal, related_outcome};

use bisim_core::ids::StateId;
use epsdelta_theory::relation_bytes;
use numbers::bit;
use numbers::refusal::Refusal;

// The first check that fails.
fn refusal(
    left_states: usize,
    right_states: usize,
    bytes: usize,
    s: usize,
    t: usize,
) -> Result<(), Refusal>
    ensures { code result ≡ related_refusal left_states right_states bytes s t }
{
    if 2000 < left_states || 2000 < right_states {
        return Err(Refusal::ModelSize);
    }
    if left_states <= s || right_states <= t {
        return Err(Refusal::OutOfRange);
    }
    let states = left_states + right_states;
    if bytes < relation_bytes(states) {
        return Err(Refusal::Store);
    }
    if 2000 < states {
        return Err(Refusal::StatesTogether);
    }
    Ok(())
}

// Whether the relation holds s of the left model with t of the right; the right model's states are numbered after the left's.
#[tactic(auto, using(numbers::proofs::Refuses::answered_ok), unfolding(crate::specs::Related::related_outcome))]
pub fn related(
    left_states: usize,
    right_states: usize,
    relation: &[u8],
    s: StateId,
    t: StateId,
) -> Result<bool, Refusal>
    ensures { numbered result ≡ related_outcome left_states right_states relation.now s.0 t.0 }
{
    let from = s.0 as usize;
    let to = t.0 as usize;
    refusal(left_states, right_states, relation.len(), from, to)?;
    let states = left_states + right_states;
    Ok(bit(relation, from * states + (left_states + to)))
}
