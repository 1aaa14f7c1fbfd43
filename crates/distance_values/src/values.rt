// Gauss-Seidel sweeps over the pairs, up to one that moves no value by more than tol.
ghost use Rattle.std.specs.Prelude.{◌≡◌, ◌≤◌, length};
ghost use Rattle.distance_theory.specs.Couplings;
ghost use Rattle.distance_theory.specs.Couplings.{shares_of};
ghost use Rattle.distance_theory.specs.Rounds;
ghost use Rattle.numbers.specs.Refuse.{code};
ghost use Rattle.distance_theory.proofs.Held.{policy_of, Leads, StoreHolds};
ghost use Rattle.distance_theory.proofs.ValueRows.{Swept};
ghost use Rattle.distance_words.proofs.Valuing.{priced, valued, evaluated_in};

use crate::store::{coupling, held};
use crate::visits::Policy;
use distance_theory::lent::Shares;
use numbers::refusal::Refusal;
use numbers::{apart, larger};

// What a sweep reads: the coupling of each pair, the discount, and each pair's cost.
#[derive(Clone, Copy, Debug)]
pub struct Costed<'a> {
    pub policy: Policy<'a>,
    pub cost: &'a [f64],
}

// Σ mass × value, of shares that lead to values.
// Stays: here each place is known to be there. `Shares::expected` of distance_theory is over any list and asks that of each share: with it a run that is mostly sweeps takes 45 to 50 % more instructions.
fn expected(shares: &Shares, values: &[f64]) -> f64
    requires leads { Leads (length values.now) shares.now.places.now }
    requires alike { length shares.now.places.now ≡ length shares.now.masses.now }
    ensures { result ≡ Couplings.expected values.now (shares_of shares.now.places.now shares.now.masses.now) }
{
    let mut total = 0.0;
    for (i, place) in shares.places.iter().enumerate() {
        total += shares.masses[i] * values[*place as usize];
    }
    total
}

// A sweep: each pair in turn gets cost + γ × what its coupling expects. Gives by how much a value has moved at most.
fn sweep(of: &Costed, value: &mut [f64]) -> f64
    requires holds { StoreHolds of.now.policy.store (length value.old) }
    requires value_in_bounds { length value.old ≤ length of.now.cost.now }
    ensures { Swept (Rounds.swept (priced of.now.policy.gamma of.now.cost.now) (policy_of of.now.policy.store (length value.old)) value.old) value.new result }
{
    let Costed { policy, cost } = *of;
    let Policy { store, gamma } = policy;
    let mut delta = 0.0;
    for k in 0..value.len() {
        let x = cost[k] + gamma * expected(&coupling(&store, k), value);
        delta = larger(delta, apart(x, value[k]));
        value[k] = x;
    }
    delta
}

// Sweeps up to one that moves no value by more than tol, at most `limit`.
fn sweeps_in(limit: usize, of: &Costed, tol: f64, value: &mut [f64])
    requires holds { StoreHolds of.now.policy.store (length value.old) }
    requires value_in_bounds { length value.old ≤ length of.now.cost.now }
    ensures { value.new ≡ Rounds.sweeps (priced of.now.policy.gamma of.now.cost.now) (policy_of of.now.policy.store (length value.old)) tol limit value.old }
{
    for _ in 0..limit {
        if sweep(of, value) <= tol {
            return;
        }
    }
}

// The values of the pairs, each with its cost and its coupling, after at most `limit` sweeps. 18, and nothing changes, where these can't be read.
pub fn sweeps(limit: usize, of: &Costed, tol: f64, value: &mut [f64]) -> Result<(), Refusal>
    ensures { valued (code result) value.new ≡ evaluated_in limit of.now.policy.store of.now.cost.now of.now.policy.gamma tol value.old }
{
    let n = value.len();
    if n > of.cost.len() || !held(&of.policy.store, n) {
        return Err(Refusal::CouplingStore);
    }
    let cut = Costed {
        cost: &of.cost[..n],
        ..*of
    };
    sweeps_in(limit, &cut, tol, value);
    Ok(())
}
