// The checks that concern no model or chain.
ghost use Rattle.std.specs.Prelude.{◌≡◌, [], ◌∷◌};
ghost use Rattle.numbers.specs.Refuse.{code};
ghost use Rattle.chain_theory.specs.Check.{discount_outside};
ghost use Rattle.distance_theory.specs.Refusal.{short};
ghost use Rattle.bisim_checks.specs.Rest.{rest_of, of_rest};
ghost use Rattle.bisim_checks.specs.Sides.{rest_refusal};

use distance_theory::lent::Scratch;
use distance_theory::{Goal, excessive, long};
use numbers::ONE;
use numbers::refusal::Refusal;

// The arguments of `distance` and `bisim_distance` that concern no model or chain: the goal, how long the lists of pairs are, and how many contribution records there are.
#[derive(Clone, Copy, Debug, PartialEq)]
pub struct Rest {
    pub goal: Goal,
    pub lefts: usize,
    pub rights: usize,
    pub codes: usize,
    pub records: usize,
}

impl Rest {
    // What is asked, with the lists of pairs of this scratch and so many records.
    pub fn new(goal: Goal, scratch: &Scratch, records: usize) -> Rest
        ensures { result ≡ rest_of goal scratch.now records }
    {
        Rest {
            goal,
            lefts: scratch.lefts.len(),
            rights: scratch.rights.len(),
            codes: scratch.codes.len(),
            records,
        }
    }
}

// Whether a list of pairs has under 4,096 entries, or there are under 64 contribution records.
fn short(rest: Rest) -> bool
    ensures { result ≡ short (rest.lefts ∷ rest.rights ∷ rest.codes ∷ []) rest.records }
{
    !long(4096, &[rest.lefts, rest.rights, rest.codes]) || rest.records < 64
}

// Whether the discount is not above 0 and below 1.
fn discount_outside(gamma: f64) -> bool
    ensures { result ≡ discount_outside gamma }
{
    !(0.0 < gamma && gamma < ONE)
}

// Turned back with the first of these checks that fails.
#[tactic(auto, unfolding(crate::specs::Sides::rest_refusal))]
pub fn rest_refusal(rest: Rest) -> Result<(), Refusal>
    ensures { code result ≡ of_rest rest_refusal rest }
{
    if short(rest) {
        return Err(Refusal::Store);
    }
    if discount_outside(rest.goal.gamma) {
        return Err(Refusal::DiscountOrRate);
    }
    if excessive(rest.goal.options) {
        return Err(Refusal::TopOrRounds);
    }
    Ok(())
}
