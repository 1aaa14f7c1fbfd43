// Chains for C and Rust: a model by its counts, initial state and columns, a chain by its counts, initial state and lists.
ghost use Rattle.std.specs.Prelude.{◌≡◌, [], ◌∷◌};
ghost use Rattle.bisim_core.specs.Data.{columns};
ghost use Rattle.chain_theory.specs.Columns.{chain_columns};
ghost use Rattle.chains.specs.Outcome.{rated, uniformised};
ghost use Rattle.normalise.specs.Outcome.{normalised};
ghost use Rattle.replies.specs.Answers.{initial, shape};
ghost use Rattle.replies.specs.Chains;
ghost use Rattle.replies.specs.Chains.{told, of_rated, makes, made, leaves, scaled};

use bisim_core::wlts::Wlts;
use chain_theory::{ChainMut, ChainStore};
use chains::chain;
use numbers::refusal::code;
use replies::answers;
use replies::shapes::{chain_of, initial_of, shape_of};

// The rate that covers two models: their greatest exit rate, or 1 if nothing moves.
#[unsafe(no_mangle)]
pub extern "C" fn tanqesha_common_rate(
    left_states: usize,
    left_edges: usize,
    left_labels: usize,
    left_present: u32,
    left_start: u32,
    left_label_values: &[u32],
    left_offsets: &[u32],
    left_edge_labels: &[u32],
    left_edge_targets: &[u32],
    left_edge_weights: &[f64],
    right_states: usize,
    right_edges: usize,
    right_labels: usize,
    right_present: u32,
    right_start: u32,
    right_label_values: &[u32],
    right_offsets: &[u32],
    right_edge_labels: &[u32],
    right_edge_targets: &[u32],
    right_edge_weights: &[f64],
    rate: &mut f64,
) -> u32
    ensures { told result rate.new ≡ of_rated (rated
        (shape left_states left_edges left_labels (initial left_present left_start))
        (columns left_label_values.now left_offsets.now left_edge_labels.now left_edge_targets.now left_edge_weights.now)
        (shape right_states right_edges right_labels (initial right_present right_start))
        (columns right_label_values.now right_offsets.now right_edge_labels.now right_edge_targets.now right_edge_weights.now)) rate.old }
{
    let left_initial = initial_of(left_present, left_start);
    let left = Wlts {
        shape: shape_of(left_states, left_edges, left_labels, left_initial),
        label_values: left_label_values,
        offsets: left_offsets,
        edge_labels: left_edge_labels,
        edge_targets: left_edge_targets,
        edge_weights: left_edge_weights,
    };
    let right_initial = initial_of(right_present, right_start);
    let right = Wlts {
        shape: shape_of(right_states, right_edges, right_labels, right_initial),
        label_values: right_label_values,
        offsets: right_offsets,
        edge_labels: right_edge_labels,
        edge_targets: right_edge_targets,
        edge_weights: right_edge_weights,
    };
    let answer = chain::common_rate(&left, &right);
    code(&answers::put(answer, rate))
}

// The chain of a model at a rate, with an observation of each state: where the entries of each state begin, their targets and probabilities, and the observations, over the front of the lists lent.
// What the lists hold past it is kept; a refusal leaves them as they were.
#[unsafe(no_mangle)]
pub extern "C" fn tanqesha_uniformise(
    states: usize,
    edges: usize,
    labels: usize,
    present: u32,
    start: u32,
    label_values: &[u32],
    offsets: &[u32],
    edge_labels: &[u32],
    edge_targets: &[u32],
    edge_weights: &[f64],
    rate: f64,
    observations: &[f64],
    chain_offsets: &mut [u32],
    chain_targets: &mut [u32],
    chain_probabilities: &mut [f64],
    chain_observations: &mut [f64],
    entries: &mut usize,
) -> u32
    ensures { makes (result ∷ entries.new ∷ []) (chain_columns chain_offsets.new chain_targets.new chain_probabilities.new chain_observations.new) ≡ made (uniformised
        (shape states edges labels (initial present start))
        (columns label_values.now offsets.now edge_labels.now edge_targets.now edge_weights.now)
        rate observations.now (chain_columns chain_offsets.old chain_targets.old chain_probabilities.old chain_observations.old)) entries.old }
{
    let model = Wlts {
        shape: shape_of(states, edges, labels, initial_of(present, start)),
        label_values,
        offsets,
        edge_labels,
        edge_targets,
        edge_weights,
    };
    let mut store = ChainStore {
        offsets: chain_offsets,
        targets: chain_targets,
        probs: chain_probabilities,
        observations: chain_observations,
    };
    let answer = chain::uniformise(&model, rate, observations, &mut store);
    code(&answers::put(answer.map(|made| made.entries), entries))
}

// The observations of two chains mapped to 0 to 1, by one least and one greatest over both; behind the reference, by how much they differ.
// Observations past the states are kept; a refusal leaves all as they were.
#[unsafe(no_mangle)]
pub extern "C" fn tanqesha_normalise(
    left_states: usize,
    left_entries: usize,
    left_initial: u32,
    left_offsets: &[u32],
    left_targets: &[u32],
    left_probabilities: &[f64],
    left_observations: &mut [f64],
    right_states: usize,
    right_entries: usize,
    right_initial: u32,
    right_offsets: &[u32],
    right_targets: &[u32],
    right_probabilities: &[f64],
    right_observations: &mut [f64],
    scale: &mut f64,
) -> u32
    ensures { leaves (told result scale.new) left_observations.new right_observations.new ≡ scaled (normalised
        (Chains.shape left_states left_entries left_initial)
        (chain_columns left_offsets.now left_targets.now left_probabilities.now left_observations.old)
        (Chains.shape right_states right_entries right_initial)
        (chain_columns right_offsets.now right_targets.now right_probabilities.now right_observations.old)) scale.old }
{
    let mut left = ChainMut {
        shape: chain_of(left_states, left_entries, left_initial),
        offsets: left_offsets,
        targets: left_targets,
        probs: left_probabilities,
        observations: left_observations,
    };
    let mut right = ChainMut {
        shape: chain_of(right_states, right_entries, right_initial),
        offsets: right_offsets,
        targets: right_targets,
        probs: right_probabilities,
        observations: right_observations,
    };
    let answer = normalise::normalise(&mut left, &mut right);
    code(&answers::put(answer, scale))
}
