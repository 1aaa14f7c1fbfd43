// What a built model that is handed in answers, once it has passed its check.
ghost use Rattle.std.specs.Prelude.{◌≡◌, IfOk};
ghost use Rattle.numbers.specs.Refuse.{code, numbered};
ghost use Rattle.bisim_core.specs.Data.{columns_of};
ghost use Rattle.bisim_core.specs.Model;
ghost use Rattle.bisim_core.specs.Model.{model_refusal, num_states, num_transitions, num_labels, successors_of, label_id};

use bisim_core::ids::{LabelId, StateId};
use bisim_core::wlts::{Shape, Wlts};
use numbers::refusal::Refusal;
use numbers::seek;

// The counts of a model that passes.
fn checked(model: &Wlts) -> Result<Shape, Refusal>
    ensures refusal { code result ≡ model_refusal model.now.shape (columns_of model.now) }
    ensures counts { IfOk result (λ shape. shape ≡ model.now.shape) }
{
    model.check()?;
    Ok(model.shape)
}

#[tactic(auto, using(numbers::proofs::Refuses::answered_ok), unfolding(bisim_core::specs::Model::num_states))]
pub fn num_states(model: &Wlts) -> Result<usize, Refusal>
    ensures { numbered result ≡ num_states model.now.shape (columns_of model.now) }
{
    Ok(checked(model)?.states)
}

// The edges, once equal transitions are joined and zero weights dropped.
#[tactic(auto, using(numbers::proofs::Refuses::answered_ok), unfolding(bisim_core::specs::Model::num_transitions))]
pub fn num_transitions(model: &Wlts) -> Result<usize, Refusal>
    ensures { numbered result ≡ num_transitions model.now.shape (columns_of model.now) }
{
    Ok(checked(model)?.edges)
}

#[tactic(auto, using(numbers::proofs::Refuses::answered_ok), unfolding(bisim_core::specs::Model::num_labels))]
pub fn num_labels(model: &Wlts) -> Result<usize, Refusal>
    ensures { numbered result ≡ num_labels model.now.shape (columns_of model.now) }
{
    Ok(checked(model)?.labels)
}

#[tactic(auto, using(numbers::proofs::Refuses::answered_ok), unfolding(bisim_core::specs::Model::initial))]
pub fn initial(model: &Wlts) -> Result<Option<StateId>, Refusal>
    ensures { numbered result ≡ Model.initial model.now.shape (columns_of model.now) }
{
    let shape = checked(model)?;
    Ok(shape.initial)
}

// Where the edges of s are: out of range, 4.
// Stays: a `Range` would be plainer here by its last two lines, but `successors_of` answers two numbers, as exports and replay do: `|r| (r.start, r.end)` would stand in the contract and in both callers.
pub fn successors(model: &Wlts, s: StateId) -> Result<(usize, usize), Refusal>
    ensures { numbered result ≡ successors_of model.now.shape (columns_of model.now) s.0 }
{
    let at = s.0 as usize;
    model.check_with(at >= model.shape.states)?;
    let edges = model.row(at);
    Ok((edges.start, edges.end))
}

// The label value of an id: out of range, 4.
pub fn label(model: &Wlts, id: LabelId) -> Result<u32, Refusal>
    ensures { numbered result ≡ Model.label model.now.shape (columns_of model.now) id.0 }
{
    let at = id.0 as usize;
    model.check_with(at >= model.shape.labels)?;
    Ok(model.label_values[at])
}

// The id of a label value, if it has one.
#[tactic(auto, unfolding(bisim_core::specs::Model::label_id))]
pub fn label_id(model: &Wlts, value: u32) -> Result<Option<LabelId>, Refusal>
    ensures { numbered result ≡ label_id model.now.shape (columns_of model.now) value }
{
    let counts = checked(model)?;
    let place = seek(&model.label_values[..counts.labels], value);
    Ok(place.map(|at| LabelId(at as u32)))
}
