// Links written into rows of heads and capacities, two places each.
ghost use Rattle.std.specs.Prelude.{◌≡◌, ◌+◌, ◌≤◌, ◌<◌, true, ◌&&◌, [], ◌∷◌, cond, is_some, length};
ghost use Rattle.numbers.specs.Lists.{over};
ghost use Rattle.epsdelta_theory.specs.FlowTest;
ghost use Rattle.epsdelta_theory.proofs.LinkRows.{source_row, sink_row};
ghost use Rattle.flow_links.specs.Lent.{test_fits, test_links, test_room, places_if};
ghost use Rattle.flow_links.specs.Rows.{Same, Room, Wrote, Bounded, crosses_at, crosses, links};

use crate::rows::Test;
use numbers::infinity;

// Rows that links are written into, and the next place in them.
// Stays: `LinkRows` of transport_links has a cost for each link, and its links come by number, so that it needs no next place; one type for both would lend a row that one of them does not have.
#[derive(Drop)]
pub(crate) struct LinkRows<'a> {
    heads: &'a mut [u32],
    caps: &'a mut [f64],
    next: usize,
}

// Writes a link, and its reverse after it.
fn put(rows: &mut LinkRows, from: usize, to: usize, cap: f64)
    requires free { Room rows.old (record { from = from; to = to; cap = cap } ∷ []) }
    requires from_bound { (from ≤ 65) × (to ≤ 65) }
    ensures added { Wrote (record { from = from; to = to; cap = cap } ∷ []) rows.old rows.new }
    ensures same { Same rows.old rows.new }
{
    let e = rows.next;
    rows.heads[e] = to as u32;
    rows.heads[e + 1] = from as u32;
    rows.caps[e] = cap;
    rows.caps[e + 1] = 0.0;
    rows.next = e + 2;
}

// The links from the source to nodes 0 and on, with these rates.
fn add_sources(rates: &[f64], source: usize, rows: &mut LinkRows)
    requires rates_len_bound { (length rates.now ≤ source) × (source ≤ 65) }
    requires free { Room rows.old (source_row source 0 rates.now) }
    ensures added { Wrote (source_row source 0 rates.now) rows.old rows.new }
    ensures same { Same rows.old rows.new }
{
    for (i, rate) in rates.iter().enumerate() {
        put(rows, source, i, *rate);
    }
}

// The links from nodes `first` and on to the sink.
// Stays: add_sources and add_sinks are two, since the definitions of what they write are; one function would take the ends as a closure and its links as a ghost parameter.
fn add_sinks(rates: &[f64], first: usize, sink: usize, rows: &mut LinkRows)
    requires rates_bound { (first + length rates.now ≤ sink) × (sink ≤ 65) }
    requires free { Room rows.old (sink_row sink first rates.now) }
    ensures added { Wrote (sink_row sink first rates.now) rows.old rows.new }
    ensures same { Same rows.old rows.new }
{
    for (i, rate) in rates.iter().enumerate() {
        put(rows, first + i, sink, *rate);
    }
}

// The links from left target `node` to the right targets that are related with it.
fn add_cross(test: &Test, node: usize, rows: &mut LinkRows)
    requires bounds { (node < length test.now.left.targets.now) × Bounded test.now }
    requires free { Room rows.old (crosses_at test.now node) }
    ensures added { Wrote (crosses_at test.now node) rows.old rows.new }
    ensures same { Same rows.old rows.new }
{
    let first = test.left.targets.len();
    let u = test.left.targets[node];
    for (j, v) in test.right.targets.iter().enumerate() {
        if test.related(u, *v) {
            put(rows, node, first + j, infinity());
        }
    }
}

// The links between targets that are related.
fn add_crosses(test: &Test, rows: &mut LinkRows)
    requires bounds { Bounded test.now }
    requires free { Room rows.old (crosses test.now) }
    ensures added { Wrote (crosses test.now) rows.old rows.new }
    ensures same { Same rows.old rows.new }
{
    for i in 0..test.left.targets.len() {
        add_cross(test, i, rows);
    }
}

// Writes the links of a flow test.
fn put_links(test: &Test, rows: &mut LinkRows)
    requires fitting { test_fits test.now ≡ true }
    requires free { Room rows.old (links test.now) }
    ensures added { Wrote (links test.now) rows.old rows.new }
    ensures same { Same rows.old rows.new }
{
    let a = test.left.targets.len();
    let source = a + test.right.targets.len();
    add_sources(test.left.rates, source, rows);
    add_sinks(test.right.rates, a, source + 1, rows);
    add_crosses(test, rows);
}

// Whether so many places are room for the links of a test whose rows fit, if all targets are related.
// Stays: the number is that of `Masses::places` (transport_theory), on which this crate does not stand. As a function of two counts in flow_theory, below both, it would be public, and so an Option that is None over 32 on a side: a definition, a law, a wrong program and a way out for these two lines, a way that rows of at most 31 targets never take.
fn has_room(test: &Test, places: usize) -> bool
    requires { (length test.now.left.targets.now ≤ 31) × (length test.now.right.targets.now ≤ 31) }
    ensures { result ≡ test_room test.now places }
{
    let left = test.left.targets.len();
    let right = test.right.targets.len();
    2 * (left + right + left * right) <= places
}

// Writes the links of a flow test over lent rows, heads and capacities; gives how many places they take. Where the test's rows do not fit, or there is no room for all links between their targets, nothing is written.
// Stays: heads and caps are two arrays of the one caller's bench: by a `LinkRows` it would write `&mut LinkRows { heads: &mut self.heads, caps: &mut self.caps, next: 0 }` for `&mut self.heads, &mut self.caps`, and the contract would promise besides that both are the ones lent.
pub fn write_links(test: &Test, heads: &mut [u32], caps: &mut [f64]) -> Option<usize>
    ensures places { result ≡ places_if (test_fits test.now && (test_room test.now (length heads.old) && test_room test.now (length caps.old))) (FlowTest.heads (test_links test.now)) }
    ensures heads_after { heads.new ≡ cond (is_some result) (over (FlowTest.heads (test_links test.now)) heads.old) heads.old }
    ensures caps_after { caps.new ≡ cond (is_some result) (over (FlowTest.caps (test_links test.now)) caps.old) caps.old }
{
    if !test.fits() || !has_room(test, heads.len()) || !has_room(test, caps.len()) {
        return None;
    }
    let mut rows = LinkRows {
        heads,
        caps,
        next: 0,
    };
    put_links(test, &mut rows);
    Some(rows.next)
}
