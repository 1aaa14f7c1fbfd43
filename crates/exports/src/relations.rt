// Relations of two models for C and Rust: counts, initial state and columns of the left one, then of the right one, then the classes of each.
ghost use Rattle.std.specs.Prelude.{◌≡◌, [], ◌∷◌};
ghost use Rattle.bisim_core.specs.Data.{columns};
ghost use Rattle.epsdelta.specs.Outcome.{outcome};
ghost use Rattle.bisimilar.specs.Related.{related_outcome};
ghost use Rattle.bisimilar.specs.Outcome.{bisimilar_outcome};
ghost use Rattle.min_epsilon.specs.Outcome;
ghost use Rattle.replies.specs.Answers.{initial, shape};
ghost use Rattle.replies.specs.Relations.{leaves, answered, of_verdict, judged, sought, searched};

use bisim_core::ids::StateId;
use bisim_core::wlts::Wlts;
use bisimilar::bisimilar::epsdelta_bisimilar;
use bisimilar::related;
use epsdelta::asked::Sides;
use epsdelta::relation;
use epsdelta_theory::tolerances::Tolerances;
use min_epsilon::least;
use numbers::refusal::code;
use replies::answers;
use replies::shapes::{initial_of, shape_of};
use replies::sides::side_of;

// The relation of two models in the bytes; a refusal leaves them as they were.
#[unsafe(no_mangle)]
pub extern "C" fn tanqesha_epsdelta(
    left_states: usize,
    left_edges: usize,
    left_labels: usize,
    left_present: u32,
    left_start: u32,
    left_label_values: &[u32],
    left_offsets: &[u32],
    left_edge_labels: &[u32],
    left_edge_targets: &[u32],
    left_edge_weights: &[f64],
    right_states: usize,
    right_edges: usize,
    right_labels: usize,
    right_present: u32,
    right_start: u32,
    right_label_values: &[u32],
    right_offsets: &[u32],
    right_edge_labels: &[u32],
    right_edge_targets: &[u32],
    right_edge_weights: &[f64],
    left_classes: &[u32],
    right_classes: &[u32],
    epsilon: f64,
    rho: f64,
    relation: &mut [u8],
) -> u32
    ensures { leaves result relation.new ≡ answered (outcome
        (shape left_states left_edges left_labels (initial left_present left_start)) (columns left_label_values.now left_offsets.now left_edge_labels.now left_edge_targets.now left_edge_weights.now)
        (shape right_states right_edges right_labels (initial right_present right_start)) (columns right_label_values.now right_offsets.now right_edge_labels.now right_edge_targets.now right_edge_weights.now)
        left_classes.now right_classes.now epsilon rho relation.old) }
{
    let left_initial = initial_of(left_present, left_start);
    let left = Wlts {
        shape: shape_of(left_states, left_edges, left_labels, left_initial),
        label_values: left_label_values,
        offsets: left_offsets,
        edge_labels: left_edge_labels,
        edge_targets: left_edge_targets,
        edge_weights: left_edge_weights,
    };
    let right_initial = initial_of(right_present, right_start);
    let right = Wlts {
        shape: shape_of(right_states, right_edges, right_labels, right_initial),
        label_values: right_label_values,
        offsets: right_offsets,
        edge_labels: right_edge_labels,
        edge_targets: right_edge_targets,
        edge_weights: right_edge_weights,
    };
    let sides = Sides {
        left: side_of(left, left_classes),
        right: side_of(right, right_classes),
    };
    let tolerances = Tolerances { epsilon, rho };
    code(&relation::epsdelta(&sides, tolerances, relation))
}

// Whether a relation holds a state of the left model with one of the right.
#[unsafe(no_mangle)]
pub extern "C" fn tanqesha_related(
    left_states: usize,
    right_states: usize,
    relation: &[u8],
    s: u32,
    t: u32,
    related: &mut u32,
) -> u32
    ensures { result ∷ related.new ∷ [] ≡ of_verdict (related_outcome left_states right_states relation.now s t) related.old }
{
    let answer = related::related(left_states, right_states, relation, StateId(s), StateId(t));
    code(&answers::put(answer.map(u32::from), related))
}

// Whether the initial states of two models are related; the bytes are work space, zero at the end.
#[unsafe(no_mangle)]
pub extern "C" fn tanqesha_epsdelta_bisimilar(
    left_states: usize,
    left_edges: usize,
    left_labels: usize,
    left_present: u32,
    left_start: u32,
    left_label_values: &[u32],
    left_offsets: &[u32],
    left_edge_labels: &[u32],
    left_edge_targets: &[u32],
    left_edge_weights: &[f64],
    right_states: usize,
    right_edges: usize,
    right_labels: usize,
    right_present: u32,
    right_start: u32,
    right_label_values: &[u32],
    right_offsets: &[u32],
    right_edge_labels: &[u32],
    right_edge_targets: &[u32],
    right_edge_weights: &[f64],
    left_classes: &[u32],
    right_classes: &[u32],
    epsilon: f64,
    rho: f64,
    relation: &mut [u8],
    related: &mut u32,
) -> u32
    ensures { leaves (result ∷ related.new ∷ []) relation.new ≡ judged (bisimilar_outcome
        (shape left_states left_edges left_labels (initial left_present left_start)) (columns left_label_values.now left_offsets.now left_edge_labels.now left_edge_targets.now left_edge_weights.now)
        (shape right_states right_edges right_labels (initial right_present right_start)) (columns right_label_values.now right_offsets.now right_edge_labels.now right_edge_targets.now right_edge_weights.now)
        left_classes.now right_classes.now epsilon rho relation.old) related.old }
{
    let left_initial = initial_of(left_present, left_start);
    let left = Wlts {
        shape: shape_of(left_states, left_edges, left_labels, left_initial),
        label_values: left_label_values,
        offsets: left_offsets,
        edge_labels: left_edge_labels,
        edge_targets: left_edge_targets,
        edge_weights: left_edge_weights,
    };
    let right_initial = initial_of(right_present, right_start);
    let right = Wlts {
        shape: shape_of(right_states, right_edges, right_labels, right_initial),
        label_values: right_label_values,
        offsets: right_offsets,
        edge_labels: right_edge_labels,
        edge_targets: right_edge_targets,
        edge_weights: right_edge_weights,
    };
    let sides = Sides {
        left: side_of(left, left_classes),
        right: side_of(right, right_classes),
    };
    let tolerances = Tolerances { epsilon, rho };
    let answer = epsdelta_bisimilar(&sides, tolerances, relation);
    code(&answers::put(answer.map(u32::from), related))
}

// An ε at which the initial states of two models are related, found by halvings, if they are at ε = 1; the bytes are work space, zero at the end.
#[unsafe(no_mangle)]
pub extern "C" fn tanqesha_min_epsilon(
    left_states: usize,
    left_edges: usize,
    left_labels: usize,
    left_present: u32,
    left_start: u32,
    left_label_values: &[u32],
    left_offsets: &[u32],
    left_edge_labels: &[u32],
    left_edge_targets: &[u32],
    left_edge_weights: &[f64],
    right_states: usize,
    right_edges: usize,
    right_labels: usize,
    right_present: u32,
    right_start: u32,
    right_label_values: &[u32],
    right_offsets: &[u32],
    right_edge_labels: &[u32],
    right_edge_targets: &[u32],
    right_edge_weights: &[f64],
    left_classes: &[u32],
    right_classes: &[u32],
    rho: f64,
    relation: &mut [u8],
    present: &mut u32,
    epsilon: &mut f64,
) -> u32
    ensures { leaves (sought result present.new epsilon.new) relation.new ≡ searched (Outcome.outcome
        (shape left_states left_edges left_labels (initial left_present left_start)) (columns left_label_values.now left_offsets.now left_edge_labels.now left_edge_targets.now left_edge_weights.now)
        (shape right_states right_edges right_labels (initial right_present right_start)) (columns right_label_values.now right_offsets.now right_edge_labels.now right_edge_targets.now right_edge_weights.now)
        left_classes.now right_classes.now rho relation.old) present.old epsilon.old }
{
    let left_initial = initial_of(left_present, left_start);
    let left = Wlts {
        shape: shape_of(left_states, left_edges, left_labels, left_initial),
        label_values: left_label_values,
        offsets: left_offsets,
        edge_labels: left_edge_labels,
        edge_targets: left_edge_targets,
        edge_weights: left_edge_weights,
    };
    let right_initial = initial_of(right_present, right_start);
    let right = Wlts {
        shape: shape_of(right_states, right_edges, right_labels, right_initial),
        label_values: right_label_values,
        offsets: right_offsets,
        edge_labels: right_edge_labels,
        edge_targets: right_edge_targets,
        edge_weights: right_edge_weights,
    };
    let sides = Sides {
        left: side_of(left, left_classes),
        right: side_of(right, right_classes),
    };
    let answer = least::min_epsilon(&sides, rho, relation);
    code(&answers::put_option(answer, present, epsilon))
}
