// The discounted time that the couplings spend in each pair.
ghost use Rattle.std.specs.Prelude.{◌≡◌, ◌≤◌, length, replicate};
ghost use Rattle.numbers.specs.Real.{nought};
ghost use Rattle.distance_theory.specs.Pairs.{most};
ghost use Rattle.distance_theory.specs.Contributions;
ghost use Rattle.distance_theory.specs.Couplings.{shares_of};
ghost use Rattle.distance_theory.proofs.Held.{policy_of, Leads, StoreHolds};
ghost use Rattle.distance_theory.proofs.ValueRows.{staying, Stayed, Advanced, visiting, Rested};
ghost use Rattle.numbers.specs.Refuse.{numbered};
ghost use Rattle.distance_words.proofs.Valuing.{occupied_as, visited_in};

use crate::store::{coupling, held};
use distance_theory::lent::{Shares, Store};
use numbers::refusal::Refusal;
use numbers::{EPS, ONE};

// What a round reads: the coupling of each pair, and the discount.
#[derive(Clone, Copy, Debug)]
pub struct Policy<'a> {
    pub store: Store<'a>,
    pub gamma: f64,
}

// x × mass more for each pair that the shares lead to.
fn pour(shares: &Shares, x: f64, next: &mut [f64])
    requires { Leads (length next.old) shares.now.places.now }
    ensures { next.new ≡ Contributions.pour x (shares_of shares.now.places.now shares.now.masses.now) next.old }
{
    for (place, mass) in shares.places.iter().zip(shares.masses) {
        next[*place as usize] += x * *mass;
    }
}

// The mass that is in a pair counts as time spent there, and goes on to the pairs that follow.
// Stays: `current`, `next` and `spent` go through this function and `rounds` alone; a struct of them would have both of them say that its lists stay and keep their lengths, and one more function cut it.
fn stay_all(of: &Policy, current: &[f64], next: &mut [f64], spent: &mut [f64])
    requires holds { StoreHolds of.now.store (length current.now) }
    requires next_len { (length next.old ≡ length current.now) × (length spent.old ≡ length current.now) }
    ensures { Stayed (Contributions.stay_all of.now.gamma current.now 0 (policy_of of.now.store (length current.now)) (staying spent.old next.old)) spent.new next.new }
{
    let Policy { store, gamma } = *of;
    for (k, p) in current.iter().enumerate() {
        if *p != 0.0 {
            spent[k] += *p;
            pour(&coupling(&store, k), gamma * *p, next);
        }
    }
}

// The next masses become the present ones, and there are no next ones yet; gives their sum.
// Stays: one pass over both lists. A round may be of a few pairs, and there `copy_from_slice`, `fill` and `Real::sum` are three passes and two calls of the C library: with them replay_distance takes 64 % more instructions on its list.
fn advance(current: &mut [f64], next: &mut [f64]) -> f64
    requires { length next.old ≡ length current.old }
    ensures { Advanced next.old result current.new next.new }
{
    let mut total = 0.0;
    for (k, mass) in next.iter_mut().enumerate() {
        let x = *mass;
        total += x;
        current[k] = x;
        *mass = 0.0;
    }
    total
}

// Rounds while the mass is above 1e-12, at most `limit`; gives the mass that is left.
fn rounds(
    limit: usize,
    of: &Policy,
    mass: f64,
    current: &mut [f64],
    next: &mut [f64],
    spent: &mut [f64],
) -> f64
    requires holds { StoreHolds of.now.store (length current.old) }
    requires next_value { (next.old ≡ replicate (length current.old) nought) × (length spent.old ≡ length current.old) }
    ensures { Rested (Contributions.visits of.now.gamma (policy_of of.now.store (length current.old)) limit (visiting spent.old current.old mass)) result spent.new }
{
    let mut left = mass;
    for _ in 0..limit {
        if !(left > EPS) {
            return left;
        }
        stay_all(of, current, next, spent);
        left = advance(current, next);
    }
    left
}

// The time spent in each of at most 4,096 pairs, from the first on; gives the mass that is left.
fn visits_in(limit: usize, of: &Policy, spent: &mut [f64]) -> f64
    requires holds { StoreHolds of.now.store (length spent.old) }
    requires spent_len_bound { length spent.old ≤ most }
    ensures { Rested (Contributions.visits of.now.gamma (policy_of of.now.store (length spent.old)) limit (Contributions.depart of.now.gamma (length spent.old))) result spent.new }
{
    let n = spent.len();
    let p = ONE - of.gamma;
    let mut current = [0.0f64; 4096];
    let mut next = [0.0f64; 4096];
    current[0] = p;
    spent.fill(0.0);
    rounds(limit, of, p, &mut current[..n], &mut next[..n], spent)
}

// The time spent in each of at most 4,096 pairs, each with its coupling, in at most `limit` rounds from the first pair on; gives the mass that is left. 18, and nothing changes, where there are more or the couplings can't be read.
pub fn visits(limit: usize, of: &Policy, spent: &mut [f64]) -> Result<f64, Refusal>
    ensures { occupied_as (numbered result) spent.new ≡ visited_in limit of.now.store of.now.gamma spent.old }
{
    let n = spent.len();
    if n > 4096 || !held(&of.store, n) {
        return Err(Refusal::CouplingStore);
    }
    Ok(visits_in(limit, of, spent))
}
