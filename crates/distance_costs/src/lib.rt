// The cost of each pair of `distance` (kantorovich.rs), from the observations of its states.
#![tactic(auto)]

ghost use Rattle.std.specs.Prelude.{◌≡◌, ◌≤◌, length, not, is_ok};
ghost use Rattle.numbers.specs.Refuse.{check, code};
ghost use Rattle.distance_words.proofs.Costs.{costs, priced, pricing};

use chain_theory::Chain;
use distance_theory::lent::Pairs;
use distance_theory::{long, value_at};
use numbers::refusal::Refusal;
use numbers::{ONE, apart};

// Pair after pair, of as many as the list is long: (1 - γ) × how far apart its observations are.
fn price_each(pairs: &Pairs, left: &Chain, right: &Chain, gamma: f64, cost: &mut [f64])
    requires { (length pairs.now.lefts.now ≤ length pairs.now.rights.now) × (length cost.old ≡ length pairs.now.lefts.now) }
    ensures { cost.new ≡ costs pairs.now.lefts.now pairs.now.rights.now left.now.observations.now right.now.observations.now gamma (length pairs.now.lefts.now) }
{
    let weight = ONE - gamma;
    // Stays: no zip with the lists of pairs, which was tried, and `returns` found no proof: of a list that is written through a zip the check knows the length alone afterwards.
    for (k, each) in cost.iter_mut().enumerate() {
        let x = value_at(left.observations, pairs.lefts[k] as usize);
        let y = value_at(right.observations, pairs.rights[k] as usize);
        *each = weight * apart(x, y);
    }
}

// The costs of the pairs of two chains, over the front of a list. 4, and nothing is written, where a list is short.
// Stays: two chains, for the reason that `discover_from` of distance_pairs gives.
pub fn price(
    pairs: &Pairs,
    left: &Chain,
    right: &Chain,
    gamma: f64,
    cost: &mut [f64],
) -> Result<(), Refusal>
    ensures refusal { code result ≡ check 4 (not (is_ok result)) 0 }
    ensures priced { priced (is_ok result) cost.new ≡ pricing (length pairs.now.lefts.now) pairs.now.lefts.now pairs.now.rights.now left.now.observations.now right.now.observations.now gamma cost.old }
{
    if !long(pairs.lefts.len(), &[pairs.rights.len(), cost.len()]) {
        return Err(Refusal::OutOfRange);
    }
    price_each(pairs, left, right, gamma, &mut cost[..pairs.lefts.len()]);
    Ok(())
}
