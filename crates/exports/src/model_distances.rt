// The distance of two models for C and Rust: a model by its counts, initial state and columns, a state and observations of it, and the lists lent for its chain.
ghost use Rattle.std.specs.Prelude.{◌≡◌};
ghost use Rattle.bisim_core.specs.Data.{columns};
ghost use Rattle.chain_theory.specs.Columns.{chain_columns};
ghost use Rattle.distance_theory.specs.Outcome.{bisim_distance};
ghost use Rattle.distance.specs.Measuring.{memory};
ghost use Rattle.distance_replies.specs.Distances.{replied};
ghost use Rattle.replies.specs.Answers.{initial, shape};
ghost use Rattle.exports.specs.Distances.{options, leaving_chains, chains_by_numbers};

use bisim_core::wlts::Wlts;
use bisim_distance::entry::bisim_distance;
use chain_theory::ChainStore;
use distance_replies::{goal_of, put_distance};
use distance_theory::PairContribution;
use distance_theory::lent::Scratch;
use numbers::refusal::code;
use replies::shapes::{initial_of, shape_of};
use replies::sides::observed_of;

// The distance of a state of one model to a state of another, discounted by gamma, and its contributions in the row of records. The lists lent for the chains, the lists of pairs and the coupling store are scratch.
// Stays: what is lent by `&mut` is a local of its own. With `let scratch = &mut Scratch { .. }`, and the two stores so, the call below takes one line, but the borrow checker does not cover this function: 'a struct holds at one lifetime parameter two references at two lifetimes of the signature'.
#[unsafe(no_mangle)]
pub extern "C" fn tanqesha_bisim_distance(
    left_states: usize,
    left_edges: usize,
    left_labels: usize,
    left_present: u32,
    left_start: u32,
    left_label_values: &[u32],
    left_offsets: &[u32],
    left_edge_labels: &[u32],
    left_edge_targets: &[u32],
    left_edge_weights: &[f64],
    left_state: u32,
    left_observations: &[f64],
    left_chain_offsets: &mut [u32],
    left_chain_targets: &mut [u32],
    left_chain_probabilities: &mut [f64],
    left_chain_observations: &mut [f64],
    right_states: usize,
    right_edges: usize,
    right_labels: usize,
    right_present: u32,
    right_start: u32,
    right_label_values: &[u32],
    right_offsets: &[u32],
    right_edge_labels: &[u32],
    right_edge_targets: &[u32],
    right_edge_weights: &[f64],
    right_state: u32,
    right_observations: &[f64],
    right_chain_offsets: &mut [u32],
    right_chain_targets: &mut [u32],
    right_chain_probabilities: &mut [f64],
    right_chain_observations: &mut [f64],
    gamma: f64,
    tolerance: f64,
    max_rounds: usize,
    top: usize,
    lefts: &mut [u32],
    rights: &mut [u32],
    index: &mut [u64],
    places: &mut [u32],
    masses: &mut [f64],
    records: &mut [PairContribution],
    value: &mut f64,
    error_bound: &mut f64,
    discount: &mut f64,
    pairs: &mut usize,
    listed: &mut usize,
    rounds: &mut usize,
) -> u32
    ensures { leaving_chains (replied result value.new error_bound.new discount.new pairs.new listed.new rounds.new) (memory lefts.new rights.new index.new places.new masses.new records.new) (chain_columns left_chain_offsets.new left_chain_targets.new left_chain_probabilities.new left_chain_observations.new) (chain_columns right_chain_offsets.new right_chain_targets.new right_chain_probabilities.new right_chain_observations.new)
        ≡ chains_by_numbers (bisim_distance (shape left_states left_edges left_labels (initial left_present left_start)) (columns left_label_values.now left_offsets.now left_edge_labels.now left_edge_targets.now left_edge_weights.now) left_state left_observations.now (chain_columns left_chain_offsets.old left_chain_targets.old left_chain_probabilities.old left_chain_observations.old)
        (shape right_states right_edges right_labels (initial right_present right_start)) (columns right_label_values.now right_offsets.now right_edge_labels.now right_edge_targets.now right_edge_weights.now) right_state right_observations.now (chain_columns right_chain_offsets.old right_chain_targets.old right_chain_probabilities.old right_chain_observations.old)
        gamma (options tolerance max_rounds top) (memory lefts.old rights.old index.old places.old masses.old records.old)) value.old error_bound.old discount.old pairs.old listed.old rounds.old }
{
    let left_initial = initial_of(left_present, left_start);
    let left_model = Wlts {
        shape: shape_of(left_states, left_edges, left_labels, left_initial),
        label_values: left_label_values,
        offsets: left_offsets,
        edge_labels: left_edge_labels,
        edge_targets: left_edge_targets,
        edge_weights: left_edge_weights,
    };
    let left = observed_of(left_model, left_state, left_observations);
    let right_initial = initial_of(right_present, right_start);
    let right_model = Wlts {
        shape: shape_of(right_states, right_edges, right_labels, right_initial),
        label_values: right_label_values,
        offsets: right_offsets,
        edge_labels: right_edge_labels,
        edge_targets: right_edge_targets,
        edge_weights: right_edge_weights,
    };
    let right = observed_of(right_model, right_state, right_observations);
    let goal = goal_of(gamma, tolerance, max_rounds, top);
    let mut scratch = Scratch {
        lefts,
        rights,
        codes: index,
        places,
        masses,
    };
    let mut left_chain = ChainStore {
        offsets: left_chain_offsets,
        targets: left_chain_targets,
        probs: left_chain_probabilities,
        observations: left_chain_observations,
    };
    let mut right_chain = ChainStore {
        offsets: right_chain_offsets,
        targets: right_chain_targets,
        probs: right_chain_probabilities,
        observations: right_chain_observations,
    };
    let answer = bisim_distance(
        &left,
        &mut left_chain,
        &right,
        &mut right_chain,
        goal,
        &mut scratch,
        records,
    );
    code(&put_distance(answer, value, error_bound, discount, pairs, listed, rounds))
}
