// `Jumps::union` of epsdelta.rs: two models side by side, in lists that the caller lends.
ghost use Rattle.std.specs.Prelude.{◌≡◌, ◌+◌, OnOk, OnErr};
ghost use Rattle.bisim_core.specs.Data.{columns_of};
ghost use Rattle.bisim_core.specs.Model.{model};
ghost use Rattle.epsdelta_theory.specs.Jumps;
ghost use Rattle.epsdelta_jumps.specs.declared.jumps.Fault.TheVariants.{Refused};
ghost use Rattle.epsdelta_jumps.specs.Store.{SameStore, cramped, LaidIn};
ghost use Rattle.epsdelta_jumps.specs.Union;

use crate::rows::both_rows;
use crate::store::RowStore;
use bisim_core::wlts::Wlts;
use numbers::refusal::Refusal;
use parts::refusals::earlier;

// Why there are no rows: a model is refused, or a list that is lent is short.
#[derive(Clone, Copy, Debug, PartialEq, Eq)]
pub enum Fault {
    Refused(Refusal),
    Short,
}

impl From<Refusal> for Fault {
    ghost from_gives = { λ r f. f ≡ Refused r };

    fn from(refusal: Refusal) -> Fault {
        Fault::Refused(refusal)
    }
}

// Whether one of the four lists is too short for so many states and edges.
fn short(states: usize, edges: usize, rows: &RowStore) -> bool
    ensures { result ≡ cramped states edges rows.now }
{
    rows.exits.len() < states
        || rows.starts.len() <= states
        || rows.targets.len() < edges
        || rows.probs.len() < edges
}

// The rows of two models, the right one's states numbered after the left's. `exits` then has the exit rate of each state, and its jumps are at starts[s]..starts[s + 1] of `targets` and `probs`.
// `exits` needs a place for each state, `starts` one more, `targets` and `probs` one for each edge. What the lists hold past the rows is kept; after a fault they are as they were.
pub fn union(left: &Wlts, right: &Wlts, rows: &mut RowStore) -> Result<(), Fault>
    ensures answer { Union.faulted result ≡ Union.joined left.now.shape (columns_of left.now) right.now.shape (columns_of right.now) (cramped (left.now.shape.states + right.now.shape.states) (left.now.shape.edges + right.now.shape.edges) rows.old) }
    ensures lists { SameStore rows.old rows.new }
    ensures laid { OnOk result (LaidIn (Jumps.union (model left.now.shape (columns_of left.now)) (model right.now.shape (columns_of right.now))) rows.old rows.new) }
    ensures kept { OnErr result (rows.new ≡ rows.old) }
{
    earlier(left.check(), right.check())?;
    let states = left.shape.states + right.shape.states;
    let edges = left.shape.edges + right.shape.edges;
    if short(states, edges, rows) {
        return Err(Fault::Short);
    }
    both_rows(left, right, rows);
    Ok(())
}
