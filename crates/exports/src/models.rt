// Numbers, labels and models for C and Rust: a built model by its counts, initial state and columns.
ghost use Rattle.std.specs.Prelude.{◌≡◌, [], ◌∷◌};
ghost use Rattle.numbers.specs.Real.{is_zero, is_valid, sum};
ghost use Rattle.bisim_core.specs.Data.{columns, transitions};
ghost use Rattle.bisim_core.specs.Ids;
ghost use Rattle.bisim_core.specs.Model;
ghost use Rattle.bisim_build.specs.Build;
ghost use Rattle.replies.specs.Answers.{initial, shape, of_interned, of_found, of_resolved, of_counted, of_start, of_successors, of_built};

use bisim_build::builder::build;
use bisim_core::ids;
use bisim_core::ids::{Interner, LabelId, StateId};
use bisim_core::wlts::Wlts;
use bisim_reader::reader;
use build_theory::lent::{Draft, Store};
use numbers::Real;
use numbers::refusal::code;
use replies::answers;
use replies::shapes::{initial_of, shape_of};

#[unsafe(no_mangle)]
pub extern "C" fn tanqesha_is_valid(x: f64) -> bool
    ensures { result ≡ is_valid x }
{
    Real(x).is_valid()
}

#[unsafe(no_mangle)]
pub extern "C" fn tanqesha_is_zero(x: f64) -> bool
    ensures { result ≡ is_zero x }
{
    Real(x).is_zero()
}

#[unsafe(no_mangle)]
pub extern "C" fn tanqesha_sum(items: &[f64]) -> f64
    ensures { result ≡ sum items.now }
{
    Real::sum(items).value()
}

#[unsafe(no_mangle)]
pub extern "C" fn tanqesha_intern(
    labels: &mut [u32],
    count: usize,
    value: u32,
    id: &mut u32,
    total: &mut usize,
) -> u32
    ensures total_after { result ∷ id.new ∷ total.new ∷ [] ≡ of_interned (Ids.interning labels.old count value).answer id.old total.old }
    ensures labels_after { labels.new ≡ (Ids.interning labels.old count value).labels }
{
    let answer = ids::intern(labels, count, value);
    code(&answers::put_pair(answer.map(|(l, n)| (l.0, n)), id, total))
}

#[unsafe(no_mangle)]
pub extern "C" fn tanqesha_get(
    labels: &[u32],
    count: usize,
    value: u32,
    present: &mut u32,
    id: &mut u32,
) -> u32
    ensures { result ∷ present.new ∷ id.new ∷ [] ≡ of_found (Ids.get labels.now count value) present.old id.old }
{
    let answer = Interner { labels, count }.get(value);
    code(&answers::put_option(answer.map(|found| found.map(|x| x.0)), present, id))
}

#[unsafe(no_mangle)]
pub extern "C" fn tanqesha_resolve(labels: &[u32], count: usize, id: u32, value: &mut u32) -> u32
    ensures { result ∷ value.new ∷ [] ≡ of_resolved (Ids.resolve labels.now count id) value.old }
{
    let answer = Interner { labels, count }.resolve(LabelId(id));
    code(&answers::put(answer, value))
}

#[unsafe(no_mangle)]
pub extern "C" fn tanqesha_build(
    states: usize,
    present: u32,
    start: u32,
    given: usize,
    sources: &[u32],
    labels: &[u32],
    targets: &[u32],
    weights: &[f64],
    label_values: &mut [u32],
    offsets: &mut [u32],
    edge_labels: &mut [u32],
    edge_targets: &mut [u32],
    edge_weights: &mut [f64],
    edges: &mut usize,
    distinct: &mut usize,
) -> u32
    ensures distinct_after { result ∷ edges.new ∷ distinct.new ∷ []
        ≡ of_built (Build.build states (initial present start) (transitions sources.now labels.now targets.now weights.now) given
        (columns label_values.old offsets.old edge_labels.old edge_targets.old edge_weights.old)).answer
        edges.old distinct.old }
    ensures edge_weights_after { columns label_values.new offsets.new edge_labels.new edge_targets.new edge_weights.new
        ≡ (Build.build states (initial present start) (transitions sources.now labels.now targets.now weights.now) given
        (columns label_values.old offsets.old edge_labels.old edge_targets.old edge_weights.old)).memory }
{
    let draft = Draft {
        states,
        initial: initial_of(present, start),
        sources,
        labels,
        targets,
        weights,
        given,
    };
    let mut store = Store {
        label_values,
        offsets,
        edge_labels,
        edge_targets,
        edge_weights,
    };
    let answer = build(&draft, &mut store);
    code(&answers::put_pair(
        answer.map(|made| (made.edges, made.labels)),
        edges,
        distinct,
    ))
}

// The number of the check that a model fails, 0 if it is accepted.
// Stays: here and below the C interface hands a model in as ten numbers and columns, and its signatures may not change; a function that makes the `Wlts` would take all ten one by one again.
#[unsafe(no_mangle)]
pub extern "C" fn tanqesha_model_refusal(
    states: usize,
    edges: usize,
    labels: usize,
    present: u32,
    start: u32,
    label_values: &[u32],
    offsets: &[u32],
    edge_labels: &[u32],
    edge_targets: &[u32],
    edge_weights: &[f64],
) -> u32
    ensures { result ≡ Model.model_refusal (shape states edges labels (initial present start))
        (columns label_values.now offsets.now edge_labels.now edge_targets.now edge_weights.now) }
{
    let model = Wlts {
        shape: shape_of(states, edges, labels, initial_of(present, start)),
        label_values,
        offsets,
        edge_labels,
        edge_targets,
        edge_weights,
    };
    code(&model.check())
}

// How many states.
#[unsafe(no_mangle)]
pub extern "C" fn tanqesha_num_states(
    states: usize,
    edges: usize,
    labels: usize,
    present: u32,
    start: u32,
    label_values: &[u32],
    offsets: &[u32],
    edge_labels: &[u32],
    edge_targets: &[u32],
    edge_weights: &[f64],
    count: &mut usize,
) -> u32
    ensures { result ∷ count.new ∷ []
        ≡ of_counted (Model.num_states (shape states edges labels (initial present start))
        (columns label_values.now offsets.now edge_labels.now edge_targets.now edge_weights.now)) count.old }
{
    let model = Wlts {
        shape: shape_of(states, edges, labels, initial_of(present, start)),
        label_values,
        offsets,
        edge_labels,
        edge_targets,
        edge_weights,
    };
    let answer = reader::num_states(&model);
    code(&answers::put(answer, count))
}

// How many edges.
#[unsafe(no_mangle)]
pub extern "C" fn tanqesha_num_transitions(
    states: usize,
    edges: usize,
    labels: usize,
    present: u32,
    start: u32,
    label_values: &[u32],
    offsets: &[u32],
    edge_labels: &[u32],
    edge_targets: &[u32],
    edge_weights: &[f64],
    count: &mut usize,
) -> u32
    ensures { result ∷ count.new ∷ []
        ≡ of_counted (Model.num_transitions (shape states edges labels (initial present start))
        (columns label_values.now offsets.now edge_labels.now edge_targets.now edge_weights.now)) count.old }
{
    let model = Wlts {
        shape: shape_of(states, edges, labels, initial_of(present, start)),
        label_values,
        offsets,
        edge_labels,
        edge_targets,
        edge_weights,
    };
    let answer = reader::num_transitions(&model);
    code(&answers::put(answer, count))
}

// How many labels.
#[unsafe(no_mangle)]
pub extern "C" fn tanqesha_num_labels(
    states: usize,
    edges: usize,
    labels: usize,
    present: u32,
    start: u32,
    label_values: &[u32],
    offsets: &[u32],
    edge_labels: &[u32],
    edge_targets: &[u32],
    edge_weights: &[f64],
    count: &mut usize,
) -> u32
    ensures { result ∷ count.new ∷ []
        ≡ of_counted (Model.num_labels (shape states edges labels (initial present start))
        (columns label_values.now offsets.now edge_labels.now edge_targets.now edge_weights.now)) count.old }
{
    let model = Wlts {
        shape: shape_of(states, edges, labels, initial_of(present, start)),
        label_values,
        offsets,
        edge_labels,
        edge_targets,
        edge_weights,
    };
    let answer = reader::num_labels(&model);
    code(&answers::put(answer, count))
}

// The initial state, if there is one.
#[unsafe(no_mangle)]
pub extern "C" fn tanqesha_initial(
    states: usize,
    edges: usize,
    labels: usize,
    present: u32,
    start: u32,
    label_values: &[u32],
    offsets: &[u32],
    edge_labels: &[u32],
    edge_targets: &[u32],
    edge_weights: &[f64],
    found: &mut u32,
    state: &mut u32,
) -> u32
    ensures { result ∷ found.new ∷ state.new ∷ []
        ≡ of_start (Model.initial (shape states edges labels (initial present start))
        (columns label_values.now offsets.now edge_labels.now edge_targets.now edge_weights.now)) found.old state.old }
{
    let model = Wlts {
        shape: shape_of(states, edges, labels, initial_of(present, start)),
        label_values,
        offsets,
        edge_labels,
        edge_targets,
        edge_weights,
    };
    let answer = reader::initial(&model);
    code(&answers::put_option(answer.map(|found| found.map(|x| x.0)), found, state))
}

// The edges of state s: from where, and up to where.
#[unsafe(no_mangle)]
pub extern "C" fn tanqesha_successors(
    states: usize,
    edges: usize,
    labels: usize,
    present: u32,
    start: u32,
    label_values: &[u32],
    offsets: &[u32],
    edge_labels: &[u32],
    edge_targets: &[u32],
    edge_weights: &[f64],
    s: u32,
    from: &mut usize,
    to: &mut usize,
) -> u32
    ensures { result ∷ from.new ∷ to.new ∷ []
        ≡ of_successors (Model.successors_of (shape states edges labels (initial present start))
        (columns label_values.now offsets.now edge_labels.now edge_targets.now edge_weights.now) s) from.old to.old }
{
    let model = Wlts {
        shape: shape_of(states, edges, labels, initial_of(present, start)),
        label_values,
        offsets,
        edge_labels,
        edge_targets,
        edge_weights,
    };
    let answer = reader::successors(&model, StateId(s));
    code(&answers::put_pair(answer, from, to))
}

// The value of a label id.
#[unsafe(no_mangle)]
pub extern "C" fn tanqesha_label(
    states: usize,
    edges: usize,
    labels: usize,
    present: u32,
    start: u32,
    label_values: &[u32],
    offsets: &[u32],
    edge_labels: &[u32],
    edge_targets: &[u32],
    edge_weights: &[f64],
    id: u32,
    value: &mut u32,
) -> u32
    ensures { result ∷ value.new ∷ []
        ≡ of_resolved (Model.label (shape states edges labels (initial present start))
        (columns label_values.now offsets.now edge_labels.now edge_targets.now edge_weights.now) id) value.old }
{
    let model = Wlts {
        shape: shape_of(states, edges, labels, initial_of(present, start)),
        label_values,
        offsets,
        edge_labels,
        edge_targets,
        edge_weights,
    };
    let answer = reader::label(&model, LabelId(id));
    code(&answers::put(answer, value))
}

// The id of a label value, if it has one.
#[unsafe(no_mangle)]
pub extern "C" fn tanqesha_label_id(
    states: usize,
    edges: usize,
    labels: usize,
    present: u32,
    start: u32,
    label_values: &[u32],
    offsets: &[u32],
    edge_labels: &[u32],
    edge_targets: &[u32],
    edge_weights: &[f64],
    value: u32,
    found: &mut u32,
    id: &mut u32,
) -> u32
    ensures { result ∷ found.new ∷ id.new ∷ []
        ≡ of_found (Model.label_id (shape states edges labels (initial present start))
        (columns label_values.now offsets.now edge_labels.now edge_targets.now edge_weights.now) value) found.old id.old }
{
    let model = Wlts {
        shape: shape_of(states, edges, labels, initial_of(present, start)),
        label_values,
        offsets,
        edge_labels,
        edge_targets,
        edge_weights,
    };
    let answer = reader::label_id(&model, value);
    code(&answers::put_option(answer.map(|found| found.map(|x| x.0)), found, id))
}
