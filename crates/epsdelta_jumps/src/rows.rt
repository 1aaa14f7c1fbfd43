// The rows of the states of a model.
ghost use Rattle.std.specs.Prelude.{◌≡◌, ℕ, ◌+◌, ◌≤◌, ◌<◌, length, get_or};
ghost use Rattle.bisim_core.specs.Data.{columns_of};
ghost use Rattle.bisim_core.specs.Model;
ghost use Rattle.bisim_core.specs.Model.{begins};
ghost use Rattle.epsdelta_theory.specs.Jumps;
ghost use Rattle.parts.specs.Jumping.{HasRows};
ghost use Rattle.epsdelta_jumps.specs.declared.store.RowStore.{RowStore};
ghost use Rattle.epsdelta_jumps.specs.Store.{SameStore, LaidInTo};

use crate::rates::State;
use crate::store::RowStore;
use bisim_core::wlts::Wlts;

// The rows of a model whose state 0 is number off, behind those of the states before it, whose jumps end at place `at`. Where the jumps of all end.
pub(crate) fn model_rows(model: &Wlts, off: usize, at: usize, rows: &mut RowStore) -> usize
    requires model { HasRows model.now × (off ≤ 2000) × (at ≤ 4096) }
    requires room { (off + model.now.shape.states ≤ length rows.old.exits.now) × (off + model.now.shape.states < length rows.old.starts.now) × (at + begins (columns_of model.now) model.now.shape.states ≤ length rows.old.targets.now) × (at + begins (columns_of model.now) model.now.shape.states ≤ length rows.old.probs.now) }
    requires start { get_or rows.old.starts.now off 0 ≡ at }
    ensures lists { SameStore rows.old rows.new }
    ensures end { (result ≤ at + begins (columns_of model.now) model.now.shape.states) × (get_or rows.new.starts.now (off + model.now.shape.states) 0 ≡ result) }
    ensures laid { (J : Jumps.Jumps) (V : RowStore) → off + model.now.shape.states ≤ length J → ((s : ℕ) → s < model.now.shape.states → get_or J (off + s) Jumps.no_row ≡ Jumps.row off (Model.row (columns_of model.now) s))
        → off + model.now.shape.states ≤ length V.exits.now → off + model.now.shape.states < length V.starts.now → LaidInTo J off V rows.old → LaidInTo J (off + model.now.shape.states) V rows.new }
{
    let mut end = at;
    for s in 0..model.shape.states {
        let state = State {
            model: &*model,
            s,
            off,
        };
        end = state.fill(end, rows);
        rows.starts[off + s + 1] = end as u32;
    }
    end
}

// The rows of two models side by side: the right one's states are numbered after the left's.
pub(crate) fn both_rows(left: &Wlts, right: &Wlts, rows: &mut RowStore)
    requires models { HasRows left.now × HasRows right.now }
    requires room { (left.now.shape.states + right.now.shape.states ≤ length rows.old.exits.now) × (left.now.shape.states + right.now.shape.states < length rows.old.starts.now) × (begins (columns_of left.now) left.now.shape.states + begins (columns_of right.now) right.now.shape.states ≤ length rows.old.targets.now) × (begins (columns_of left.now) left.now.shape.states + begins (columns_of right.now) right.now.shape.states ≤ length rows.old.probs.now) }
    ensures lists { SameStore rows.old rows.new }
    ensures laid { (J : Jumps.Jumps) → left.now.shape.states + right.now.shape.states ≤ length J → ((s : ℕ) → s < left.now.shape.states → get_or J s Jumps.no_row ≡ Jumps.row 0 (Model.row (columns_of left.now) s))
        → ((s : ℕ) → s < right.now.shape.states → get_or J (left.now.shape.states + s) Jumps.no_row ≡ Jumps.row left.now.shape.states (Model.row (columns_of right.now) s))
        → LaidInTo J (left.now.shape.states + right.now.shape.states) rows.old rows.new }
{
    rows.starts[0] = 0;
    let at = model_rows(left, 0, 0, rows);
    model_rows(right, left.shape.states, at, rows);
}
