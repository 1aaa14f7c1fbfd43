// Whether lists hold rows that marks and sweeps can read, and what is read of them.
ghost use Rattle.std.specs.Prelude.{◌≡◌, ◌&&◌, ◌≤◌, ◌<◌, ◌+◌, leb, ltb, length, get_or};
ghost use Rattle.numbers.specs.Lists.{every};
ghost use Rattle.epsdelta_theory.specs.Relation.{relation_bytes};
ghost use Rattle.flow_links.proofs.RowsRead.{states_of, entries};
ghost use Rattle.epsdelta_sweeps.specs.Leading.{Paired, TestOf};
ghost use Rattle.epsdelta_sweeps.specs.Read.{stands_in};

use crate::changes::Memory;
use epsdelta_theory::relation_bytes;
use flow_links::rows::{Row, Rows, Test};

// The entries of state s, from its start up to the next.
fn part<'a, T>(starts: &[u32], list: &'a [T], s: usize) -> &'a [T]
    requires { (s + 1 < length starts.now) × (get_or starts.now s 0 ≤ get_or starts.now (s + 1) 0) × (get_or starts.now (s + 1) 0 ≤ length list.now) }
    ensures { result.now ≡ entries starts.now list.now s }
{
    &list[starts[s] as usize..starts[s + 1] as usize]
}

// The row of state s.
pub(crate) fn row<'a>(rows: &Rows<'a>, s: usize) -> Row<'a>
    requires { (s + 1 < length rows.now.starts.now) × (get_or rows.now.starts.now s 0 ≤ get_or rows.now.starts.now (s + 1) 0) × (get_or rows.now.starts.now (s + 1) 0 ≤ length rows.now.targets.now) × (get_or rows.now.starts.now (s + 1) 0 ≤ length rows.now.probs.now) }
    ensures { (result.targets.now ≡ entries rows.now.starts.now rows.now.targets.now s) × (result.rates.now ≡ entries rows.now.starts.now rows.now.probs.now s) }
{
    Row {
        targets: part(rows.starts, rows.targets, s),
        rates: part(rows.starts, rows.probs, s),
    }
}

// The flow test from s to t.
// Stays: rows and memory are two, here and in unchanged, lay and answer: a struct of both would be made at each of their five calls, of terms and memory, for a parameter less in each of the four.
pub(crate) fn test<'a>(rows: &Rows<'a>, memory: &'a Memory, s: usize, t: usize) -> Test<'a>
    requires { Paired rows.now s t }
    ensures { TestOf rows.now memory.now s t result }
{
    Test {
        left: row(rows, s),
        right: row(rows, t),
        states: rows.exits.len(),
        relation: memory.relation,
    }
}

// Whether the jumps of state s are there, and a flow test takes its row.
// Stays: by get(a..b) it takes a second function beside `row`, which cuts without a test for each pair: one that answers an Option by four `?`, with a clause for None that says these three tests.
fn stands(rows: &Rows, s: usize) -> bool
    requires { s + 1 < length rows.now.starts.now }
    ensures { result ≡ stands_in rows.now s }
{
    let a = rows.starts[s];
    let b = rows.starts[s + 1];
    a <= b
        && b as usize <= rows.targets.len()
        && b as usize <= rows.probs.len()
        && row(rows, s).fits()
}

// Whether this holds of every state.
pub(crate) fn all_stand(rows: &Rows) -> bool
    requires { (states_of rows.now ≤ 2000) × (states_of rows.now < length rows.now.starts.now) }
    ensures { result ≡ every (stands_in rows.now) (states_of rows.now) }
{
    (0..rows.exits.len()).all(
        |s|
            requires { s + 1 < length rows.now.starts.now }
        { stands(rows, s) },
    )
}

// Whether there are at most 2,000 states, and a start for each, a class, and bytes for the relation.
pub(crate) fn long_enough(rows: &Rows, classes: usize, bytes: usize) -> bool
    ensures { result ≡ (leb (states_of rows.now) 2000 && (leb (states_of rows.now) classes && (ltb (states_of rows.now) (length rows.now.starts.now) && leb (relation_bytes (states_of rows.now)) bytes))) }
{
    let states = rows.exits.len();
    states <= 2000
        && states <= classes
        && states < rows.starts.len()
        && relation_bytes(states) <= bytes
}
