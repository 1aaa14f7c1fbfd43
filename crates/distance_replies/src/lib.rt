// A distance as numbers, for the exported functions: what is asked is made of numbers, and what the answer holds is put behind the references; a refusal is handed on, and leaves them as they were.
#![tactic(auto)]

ghost use Rattle.std.specs.Prelude.{◌≡◌};
ghost use Rattle.numbers.specs.Refuse.{code, numbered};
ghost use Rattle.distance_replies.specs.Distances.{replied, of_measured};

use distance_theory::{Distance, Goal, MetricOptions};
use numbers::refusal::Refusal;

// The discount, how near the distance is wanted, the most rounds of improvement, and how many contributions are listed.
pub fn goal_of(gamma: f64, tolerance: f64, max_rounds: usize, top: usize) -> Goal
    ensures { result ≡ record { gamma = gamma; options = record { tolerance = tolerance; max_rounds = max_rounds; top = top } } }
{
    Goal {
        gamma,
        options: MetricOptions {
            tolerance,
            max_rounds,
            top,
        },
    }
}

// A distance.
pub fn put_distance(
    answer: Result<Distance, Refusal>,
    value: &mut f64,
    error_bound: &mut f64,
    discount: &mut f64,
    pairs_explored: &mut usize,
    contributions: &mut usize,
    rounds: &mut usize,
) -> Result<(), Refusal>
    ensures { replied (code result) value.new error_bound.new discount.new pairs_explored.new contributions.new rounds.new
        ≡ of_measured (numbered answer) value.old error_bound.old discount.old pairs_explored.old contributions.old rounds.old }
{
    let d = answer?;
    *value = d.value;
    *error_bound = d.error_bound;
    *discount = d.gamma;
    *pairs_explored = d.pairs_explored;
    *contributions = d.contributions;
    *rounds = d.rounds;
    Ok(())
}
