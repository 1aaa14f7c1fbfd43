// `build`: a model from transitions in columns.
ghost use Rattle.std.specs.Prelude.{◌≤◌, length};
ghost use Rattle.build_theory.specs.Lent.{kept};
ghost use Rattle.bisim_build.specs.Lent.{Built};

use crate::write;
use bisim_core::wlts::Shape;
use bisim_edges::planner::plan;
use build_theory::keys::Triple;
use build_theory::lent::{Draft, PlanLists, Store};
use numbers::refusal::Refusal;

// `build`, with work space for the transitions given, if they are not too many.
fn build_in(draft: &Draft, store: &mut Store, triples: &mut [Triple]) -> Result<Shape, Refusal>
    requires { draft.now.given ≤ 4096 → draft.now.given ≤ length triples.old }
    ensures outcome { Built draft.now result store.old store.new }
    ensures same_lists { kept store.old store.new }
{
    let short = write::short(draft, store);
    let mut lists = PlanLists {
        label_values: &mut *store.label_values,
        triples: &mut *triples,
        edge_weights: &mut *store.edge_weights,
    };
    let (edges, labels) = plan(draft, short, &mut lists)?;
    write::fill(&triples[..edges], draft.states, store);
    Ok(Shape {
        states: draft.states,
        edges,
        labels,
        initial: draft.initial,
    })
}

// `build`, with work space for N transitions: as many as are given, if they are not too many.
fn build_with<const N: usize>(draft: &Draft, store: &mut Store) -> Result<Shape, Refusal>
    requires { (N ≤ 4096) × (draft.now.given ≤ 4096 → draft.now.given ≤ N) }
    ensures outcome { Built draft.now result store.old store.new }
    ensures same_lists { kept store.old store.new }
{
    let mut triples = [Triple(0); N];
    build_in(draft, store, &mut triples)
}

// The model of a draft, its columns in the store. Turned back with the first check that fails: then the store is left as it was.
pub fn build(draft: &Draft, store: &mut Store) -> Result<Shape, Refusal>
    ensures outcome { Built draft.now result store.old store.new }
    ensures same_lists { kept store.old store.new }
{
    if draft.given <= 256 {
        build_with::<256>(draft, store)
    } else {
        build_with::<4096>(draft, store)
    }
}
