// The results, written into the columns lent.
ghost use Rattle.std.specs.Prelude.{◌≡◌, List, ◌||◌, ◌+◌, ◌*◌, ◌≤◌, ◌<◌, ltb, Float, length, map};
ghost use Rattle.numbers.specs.Lists.{over, span};
ghost use Rattle.build_theory.specs.Edges;
ghost use Rattle.build_theory.specs.Lent.{kept};
ghost use Rattle.build_theory.proofs.Steps.{Rising, edges_in, FirstFrom, Writable, Written};
ghost use Rattle.build_theory.proofs.Planning.{numbers};

use build_theory::keys::Triple;
use build_theory::lent::{Draft, Store};

// 7, by the lengths of the lists that a plan does not fill.
pub(crate) fn short(draft: &Draft, store: &Store) -> bool
    ensures { result ≡ (ltb (length store.now.offsets.now) (draft.now.states + 1) || (ltb (length store.now.edge_labels.now) draft.now.given || ltb (length store.now.edge_targets.now) draft.now.given)) }
{
    let given = draft.given;
    store.offsets.len() <= draft.states
        || store.edge_labels.len() < given
        || store.edge_targets.len() < given
}

// The first of triples[p..] whose source is not below s.
fn first_from(triples: &[Triple], p: usize, s: u64) -> usize
    requires { p ≤ length triples.now }
    ensures { FirstFrom (numbers triples.now) p (s * 524288) result }
{
    let n = triples.len();
    (p..n).find(|k| triples[*k].source() >= s).unwrap_or(n)
}

// Each offset is how many triples have a source below its place.
fn write_offsets(triples: &[Triple], offsets: &mut [u32])
    requires { (length triples.now ≤ 4096) × Rising (numbers triples.now) }
    ensures { (U : List Float) → offsets.new ≡ map (λ s. Edges.below s (edges_in (numbers triples.now) U)) (span 0 (length offsets.old)) }
{
    let mut p = 0;
    for (s, offset) in offsets.iter_mut().enumerate() {
        p = first_from(triples, p, s as u64);
        *offset = p as u32;
    }
}

fn write_edges(triples: &[Triple], labels: &mut [u32], targets: &mut [u32])
    requires { Writable (numbers triples.now) labels.old targets.old }
    ensures { Written (numbers triples.now) labels.old targets.old labels.new targets.new }
{
    for (i, triple) in triples.iter().enumerate() {
        labels[i] = triple.label();
        targets[i] = triple.target();
    }
}

// Offsets, label ids and targets of triples.
pub(crate) fn fill(triples: &[Triple], states: usize, store: &mut Store)
    requires { Writable (numbers triples.now) store.old.edge_labels.now store.old.edge_targets.now × (length triples.now ≤ 4096) × (states ≤ 2000) × (states < length store.old.offsets.now) × Rising (numbers triples.now) }
    ensures edges { Written (numbers triples.now) store.old.edge_labels.now store.old.edge_targets.now store.new.edge_labels.now store.new.edge_targets.now }
    ensures offsets { (U : List Float) → store.new.offsets.now ≡ over (Edges.offsets states (edges_in (numbers triples.now) U)) store.old.offsets.now }
    ensures labels { store.new.label_values.now ≡ store.old.label_values.now }
    ensures weights { store.new.edge_weights.now ≡ store.old.edge_weights.now }
    ensures same_lists { kept store.old store.new }
{
    write_offsets(triples, &mut store.offsets[..=states]);
    write_edges(triples, store.edge_labels, store.edge_targets);
}
