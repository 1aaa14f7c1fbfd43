// An ε at which two models are bisimilar, found by halvings.
ghost use Rattle.std.specs.Prelude.{◌≡◌, length, Ok};
ghost use Rattle.numbers.specs.Refuse.{numbered};
ghost use Rattle.epsdelta_theory.specs.MinEpsilon.{alike_at, halving, min_epsilon, Searched};
ghost use Rattle.epsdelta_theory.proofs.MinEpsilon.{below_one};
ghost use Rattle.epsdelta.specs.Outcome.{ends};
ghost use Rattle.epsdelta.specs.Sides.{of_sides};
ghost use Rattle.min_epsilon.specs.Outcome.{Cleared, alike, refusal_at, refusal, outcome};

use bisimilar::bisimilar::epsdelta_bisimilar;
use epsdelta::asked::Sides;
use epsdelta_theory::tolerances::Tolerances;
use numbers::refusal::Refusal;
use numbers::{FINENESS, HALF, ONE};

// What is searched: two models, and ρ.
#[derive(Clone, Copy)]
struct Search<'a> {
    sides: &'a Sides<'a>,
    rho: f64,
}

impl Search<'_> {
    // Whether the initial states are related at this ε, where no check fails; the bytes are work space.
    fn holds(&self, epsilon: f64, relation: &mut [u8]) -> Result<bool, Refusal>
        requires { refusal_at self.now.sides.now epsilon self.now.rho (length relation.old) ≡ 0 }
        ensures { (numbered result ≡ Ok (alike self.now.sides.now self.now.rho epsilon)) × Cleared relation.old relation.new }
    {
        let tolerances = Tolerances {
            epsilon,
            rho: self.rho,
        };
        epsdelta_bisimilar(self.sides, tolerances, relation)
    }

    // The upper bound that halvings from 0 and 1 come to.
    fn bisect(&self, relation: &mut [u8]) -> Result<f64, Refusal>
        requires unrefused { refusal self.now.sides.now self.now.rho (length relation.old) ≡ 0 }
        requires cleared { Cleared relation.old relation.old }
        ensures { (numbered result ≡ Ok (halving (alike self.now.sides.now self.now.rho)).hi) × Cleared relation.old relation.new }
    {
        let mut lo = 0.0;
        let mut hi = ONE;
        while hi - lo > FINENESS {
            let mid = HALF * (lo + hi);
            if self.holds(mid, relation)? {
                hi = mid;
            } else {
                lo = mid;
            }
        }
        Ok(hi)
    }

    // The ε found where ε = 1 holds: 0 if ε = 0 holds, else by halvings.
    fn below_one(&self, relation: &mut [u8]) -> Result<f64, Refusal>
        requires { refusal self.now.sides.now self.now.rho (length relation.old) ≡ 0 }
        ensures { (numbered result ≡ Ok (below_one (alike self.now.sides.now self.now.rho))) × Cleared relation.old relation.new }
    {
        if self.holds(0.0, relation)? {
            return Ok(0.0);
        }
        self.bisect(relation)
    }
}

// An ε at which the initial states of two models are related, found by halvings from 0 and 1, or none where they are not related at 1. A refusal leaves the bytes as they were; without one every byte is zero at the end.
#[tactic(auto, using(epsdelta_theory::proofs::MinEpsilon::min_epsilon_searched))]
pub fn min_epsilon(sides: &Sides, rho: f64, relation: &mut [u8]) -> Result<Option<f64>, Refusal>
    ensures relation_after { ends (numbered result) relation.new ≡ of_sides outcome sides.now rho relation.old }
    ensures searched { Searched (of_sides alike_at sides.now rho) (of_sides min_epsilon sides.now rho) }
{
    let widest = Tolerances { epsilon: ONE, rho };
    if !epsdelta_bisimilar(sides, widest, relation)? {
        return Ok(None);
    }
    let search = Search {
        sides: &*sides,
        rho,
    };
    Ok(Some(search.below_one(relation)?))
}
