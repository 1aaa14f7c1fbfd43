// The distance of two chains for C and Rust: a chain by its counts, initial state and columns.
ghost use Rattle.std.specs.Prelude.{◌≡◌};
ghost use Rattle.chain_theory.specs.Columns.{chain_columns};
ghost use Rattle.distance.specs.Measuring.{memory};
ghost use Rattle.distance_replies.specs.Distances.{replied};
ghost use Rattle.exports.specs.Distances.{leaving, distance_of, by_numbers};

use chain_theory::Chain;
use distance::entry::distance;
use distance_replies::{goal_of, put_distance};
use distance_theory::PairContribution;
use distance_theory::lent::Scratch;
use numbers::refusal::code;
use replies::shapes::chain_of;

// The distance of two chains, discounted by gamma, and its contributions in the row of records. The lists of pairs and the coupling store are scratch.
#[unsafe(no_mangle)]
pub extern "C" fn tanqesha_distance(
    left_states: usize,
    left_entries: usize,
    left_initial: u32,
    left_offsets: &[u32],
    left_targets: &[u32],
    left_probabilities: &[f64],
    left_observations: &[f64],
    right_states: usize,
    right_entries: usize,
    right_initial: u32,
    right_offsets: &[u32],
    right_targets: &[u32],
    right_probabilities: &[f64],
    right_observations: &[f64],
    gamma: f64,
    tolerance: f64,
    max_rounds: usize,
    top: usize,
    lefts: &mut [u32],
    rights: &mut [u32],
    index: &mut [u64],
    places: &mut [u32],
    masses: &mut [f64],
    records: &mut [PairContribution],
    value: &mut f64,
    error_bound: &mut f64,
    discount: &mut f64,
    pairs: &mut usize,
    listed: &mut usize,
    rounds: &mut usize,
) -> u32
    ensures { leaving (replied result value.new error_bound.new discount.new pairs.new listed.new rounds.new) (memory lefts.new rights.new index.new places.new masses.new records.new)
        ≡ by_numbers (distance_of left_states left_entries left_initial (chain_columns left_offsets.now left_targets.now left_probabilities.now left_observations.now) right_states right_entries right_initial (chain_columns right_offsets.now right_targets.now right_probabilities.now right_observations.now) gamma tolerance max_rounds top (memory lefts.old rights.old index.old places.old masses.old records.old)) value.old error_bound.old discount.old pairs.old listed.old rounds.old }
{
    let left = Chain {
        shape: chain_of(left_states, left_entries, left_initial),
        offsets: left_offsets,
        targets: left_targets,
        probs: left_probabilities,
        observations: left_observations,
    };
    let right = Chain {
        shape: chain_of(right_states, right_entries, right_initial),
        offsets: right_offsets,
        targets: right_targets,
        probs: right_probabilities,
        observations: right_observations,
    };
    let goal = goal_of(gamma, tolerance, max_rounds, top);
    let mut scratch = Scratch {
        lefts,
        rights,
        codes: index,
        places,
        masses,
    };
    let answer = distance(&left, &right, goal, &mut scratch, records);
    code(&put_distance(answer, value, error_bound, discount, pairs, listed, rounds))
}
