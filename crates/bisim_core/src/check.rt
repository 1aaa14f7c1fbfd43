// The tests that a built model has to pass, each made where those before it passed.
ghost use Rattle.std.specs.Prelude.{◌≡◌, ◌&&◌, not, ℕ, ◌+◌, ◌≤◌, ◌<◌, length, get_or, ltb};
ghost use Rattle.numbers.specs.Lists.{every};
ghost use Rattle.numbers.specs.Real.{is_zero};
ghost use Rattle.bisim_core.specs.Data.{columns_of, HasOffsets, NeverFalls};
ghost use Rattle.bisim_core.specs.Ids.{distinct};
ghost use Rattle.bisim_core.specs.Edges.{others};
ghost use Rattle.bisim_core.specs.Model;
ghost use Rattle.bisim_core.specs.Model.{edge_at, begins, rises, row};

use crate::ids::single;
use crate::wlts::{Shape, Wlts, starts_outside};
use numbers::bounds::Bounds;
use numbers::{GREATEST_JOINED, LEAST_WEIGHT};
use std::ops::Range;

// ---- check 3

pub(crate) fn large(shape: Shape) -> bool
    ensures { result ≡ Model.large shape }
{
    shape.states > 2000 || shape.edges > 4096 || shape.labels > 256
}

// ---- check 4

fn thin(model: &Wlts) -> bool
    ensures { result ≡ Model.thin model.now.shape (columns_of model.now) }
{
    let shape = model.shape;
    model.offsets.len() <= shape.states
        || model.edge_labels.len() < shape.edges
        || model.edge_targets.len() < shape.edges
        || model.edge_weights.len() < shape.edges
        || model.label_values.len() < shape.labels
}

fn steady(model: &Wlts) -> bool
    requires { HasOffsets model.now }
    ensures { result ≡ Model.steady model.now.shape (columns_of model.now) }
{
    let states = model.shape.states;
    let offsets = &model.offsets[..=states];
    offsets[0] == 0 && offsets[states] as usize == model.shape.edges && offsets.is_sorted()
}

// Which edges are those of state s, as `Wlts::row` finds them: here both offsets are there.
fn edges_of(model: &Wlts, s: usize) -> Range<usize>
    requires { s + 1 < length model.now.offsets.now }
    ensures { (result.start ≡ begins (columns_of model.now) s) × (result.end ≡ begins (columns_of model.now) (s + 1)) }
{
    model.offsets[s] as usize..model.offsets[s + 1] as usize
}

// The edges of state s rise strictly: by label id, then target.
fn row_rises(model: &Wlts, s: usize) -> bool
    requires { (s + 1 < length model.now.offsets.now) × (begins (columns_of model.now) s ≤ begins (columns_of model.now) (s + 1)) × (begins (columns_of model.now) (s + 1) ≤ length model.now.edge_labels.now) × (begins (columns_of model.now) (s + 1) ≤ length model.now.edge_targets.now) }
    ensures { result ≡ rises (row (columns_of model.now) s) }
{
    let edges = edges_of(model, s);
    let labels = &model.edge_labels[edges.start..edges.end];
    let targets = &model.edge_targets[edges];
    labels.iter().zip(targets).is_sorted_by(|a, b| a < b)
}

fn rows_rise(model: &Wlts) -> bool
    requires { HasOffsets model.now × NeverFalls model.now × (get_or model.now.offsets.now model.now.shape.states 0 ≤ length model.now.edge_labels.now) × (get_or model.now.offsets.now model.now.shape.states 0 ≤ length model.now.edge_targets.now) }
    ensures { result ≡ every (λ s. rises (row (columns_of model.now) s)) model.now.shape.states }
{
    (0..model.shape.states).all(|s| row_rises(model, s))
}

// An edge's numbers are below their counts, and its weight is not zero.
fn sound(shape: Shape, label: u32, target: u32, weight: f64) -> bool
    ensures { result ≡ (ltb target shape.states && (ltb label shape.labels && not (is_zero weight))) }
{
    (target as usize) < shape.states && (label as usize) < shape.labels && weight != 0.0
}

fn sound_edges(model: &Wlts) -> bool
    requires { (model.now.shape.edges ≤ length model.now.edge_labels.now) × (model.now.shape.edges ≤ length model.now.edge_targets.now) × (model.now.shape.edges ≤ length model.now.edge_weights.now) }
    ensures { result ≡ every (λ i. Model.sound model.now.shape (edge_at (columns_of model.now) 0 i)) model.now.shape.edges }
{
    let shape = model.shape;
    (0..shape.edges).all(|i| {
        sound(
            shape,
            model.edge_labels[i],
            model.edge_targets[i],
            model.edge_weights[i],
        )
    })
}

pub(crate) fn unfit(model: &Wlts) -> bool
    ensures { result ≡ Model.unfit model.now.shape (columns_of model.now) }
{
    let shape = model.shape;
    starts_outside(shape.initial, shape.states)
        || thin(model)
        || !steady(model)
        || !rows_rise(model)
        || !sound_edges(model)
        || !single(&model.label_values[..shape.labels])
}

// ---- check 5

// What a joined weight may be.
const JOINED: Bounds = Bounds {
    least: LEAST_WEIGHT,
    greatest: GREATEST_JOINED,
};

pub(crate) fn all_weigh(model: &Wlts) -> bool
    requires { model.now.shape.edges ≤ length model.now.edge_weights.now }
    ensures { result ≡ every (λ i. Model.joined_weighs (edge_at (columns_of model.now) 0 i)) model.now.shape.edges }
{
    JOINED.hold_all(&model.edge_weights[..model.shape.edges])
}

// ---- check 6

// How many distinct targets other than s the edges of state s have. No mark is s + 1 yet; then those of s and of the targets are.
fn count_others(model: &Wlts, s: usize, marks: &mut [u32]) -> usize
    requires { (s + 1 < length model.now.offsets.now) × (begins (columns_of model.now) s ≤ begins (columns_of model.now) (s + 1)) × (begins (columns_of model.now) (s + 1) ≤ length model.now.edge_targets.now) × (s < length marks.old) × (length marks.old ≤ 2000) × (((i : ℕ) → i < begins (columns_of model.now) (s + 1) → get_or model.now.edge_targets.now i 0 < length marks.old)) × (((x : ℕ) → get_or marks.old x 0 ≤ s)) }
    ensures { (result ≡ length (distinct (others s (row (columns_of model.now) s)))) × (((x : ℕ) → get_or marks.new x 0 ≤ s + 1)) }
{
    let mark = s as u32 + 1;
    marks[s] = mark;
    let mut count = 0;
    for target in &model.edge_targets[edges_of(model, s)] {
        let t = *target as usize;
        if marks[t] != mark {
            marks[t] = mark;
            count += 1;
        }
    }
    count
}

pub(crate) fn crowded(model: &Wlts) -> bool
    requires { (model.now.shape.states ≤ 2000) × HasOffsets model.now × NeverFalls model.now × (get_or model.now.offsets.now model.now.shape.states 0 ≤ length model.now.edge_targets.now) × (((i : ℕ) → i < get_or model.now.offsets.now model.now.shape.states 0 → get_or model.now.edge_targets.now i 0 < model.now.shape.states)) }
    ensures { result ≡ Model.crowded model.now.shape (columns_of model.now) }
{
    let mut marks = [0u32; 2000];
    (0..model.shape.states).any(|s| count_others(model, s, &mut marks) > 31)
}
