// A run of pairs that were found.
ghost use Rattle.std.specs.Prelude.{◌≡◌, ◌≤◌, length};
ghost use Rattle.numbers.specs.Refuse.{numbered};
ghost use Rattle.chain_theory.specs.Lent.{of_chain};
ghost use Rattle.distance_theory.specs.Rounds.{many};
ghost use Rattle.distance_words.proofs.Valuing.{occupied_as, visited_in};
ghost use Rattle.distance_words.proofs.Found.{found_of};
ghost use Rattle.distance_run.specs.Asked.{account_in};

use crate::question::Question;
use crate::solve::solve;
use crate::told::tell;
use distance_contributions::listing::contributions;
use distance_costs::price;
use distance_theory::lent::{Pairs, StoreMut, Task, Visited};
use distance_values::visits::{Policy, visits};
use distance_words::told::{Accounted, Answer};
use numbers::refusal::Refusal;

// The time spent in each pair, in at most 1,000,000 rounds; gives the mass that is left then.
fn occupancy(of: &Policy, spent: &mut [f64]) -> Result<f64, Refusal>
    ensures { occupied_as (numbered result) spent.new ≡ visited_in many of.now.store of.now.gamma spent.old }
{
    visits(1000000, of, spent)
}

// How the distance of at most 4,096 pairs arises, from their couplings.
fn account(pairs: &Pairs, of: &Question, policy: &Policy) -> Result<Accounted, Refusal>
    requires { length pairs.now.lefts.now ≤ 4096 }
    ensures { numbered result ≡ account_in pairs.now of.now policy.now }
{
    let mut times = [0.0f64; 4096];
    let spent = &mut times[..pairs.lefts.len()];
    let mass = occupancy(policy, spent)?;
    let visited = Visited {
        pairs: *pairs,
        left: of.left.observations,
        right: of.right.observations,
        spent,
    };
    let listed = contributions(&visited, of.goal.options)?;
    Ok(Accounted { mass, listed })
}

// The run of at most 4,096 pairs, with a right state for each left one. The store is left as the rounds leave it.
// Stays: of two slices the check knows that they are as long after a call as before it, which `run` needs of `clear`; with `places` and `masses` as a `SharesMut` the seven functions that promise `SameStore` would have to prove it, which say now only that the lists are the same.
pub(crate) fn run_found<'a>(
    pairs: &Pairs<'a>,
    of: &Question<'a>,
    places: &mut [u32],
    masses: &mut [f64],
) -> Result<Answer, Refusal>
    requires { (length pairs.now.lefts.now ≤ 4096) × (length pairs.now.lefts.now ≤ length pairs.now.rights.now) }
    ensures { numbered result ≡ found_of (length pairs.now.lefts.now) pairs.now.lefts.now pairs.now.rights.now pairs.now.codes.now (of_chain of.now.left) (of_chain of.now.right) of.now.left.observations.now of.now.right.observations.now of.now.goal.gamma of.now.goal.options places.old masses.old }
{
    let n = pairs.lefts.len();
    let gamma = of.goal.gamma;
    let mut starts = [0u32; 4096];
    let mut lengths = [0u32; 4096];
    let mut cost = [0.0f64; 4096];
    let mut values = [0.0f64; 4096];
    price(pairs, &of.left, &of.right, gamma, &mut cost)?;
    let task = Task {
        pairs: *pairs,
        left: of.left,
        right: of.right,
        cost: &cost,
        gamma,
    };
    let mut store = StoreMut {
        lengths: &mut lengths,
        places,
        masses,
    };
    let made = solve(
        &task,
        of.goal.options,
        &mut starts,
        &mut store,
        &mut values[..n],
    )?;
    let policy = Policy {
        store: store.read(&starts),
        gamma,
    };
    let accounted = account(pairs, of, &policy)?;
    tell(n, values[0], gamma, made, &accounted)
}
