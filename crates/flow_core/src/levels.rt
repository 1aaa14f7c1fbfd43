// The levels of a phase: how many links with capacity left each node is away from the source.
ghost use Rattle.flow_theory.proofs.LevelRows.{Searchable, InRows};
ghost use Rattle.flow_core.specs.Steps.{NodeScannable, NodeScanned};
ghost use Rattle.std.specs.Prelude.{◌≡◌, replicate};
ghost use Rattle.flow_theory.proofs.Links.{WellFormed};
ghost use Rattle.flow_theory.specs.Levels;
ghost use Rattle.flow_theory.specs.Network.{Net, nodes};
ghost use Rattle.flow_theory.specs.Levels.{unset};

use flow_check::{Course, Network};
use numbers::EPS;

// The level of a node that has none.
// Stays: with levels as Options, runs on networks of 66 nodes and 964 added links take 7 % more instructions (built by rustc -O3).
pub(crate) const UNSET: usize = usize::MAX;

// The nodes that got a level, in that order: the first `end` of these.
#[derive(Clone, Copy)]
struct Queue {
    nodes: [usize; 66],
    end: usize,
}

// Looks along the links that leave u: a head without a level gets the next one, and joins the queue.
// Stays: the count is a local while it looks: as a field beside an array that is written into it stays in memory, and a run on `flow_31_sparse` takes 31,780 instructions instead of 31,496.
fn scan(net: &Network, caps: &[f64], u: usize, level: &mut [usize], queue: &mut Queue)
    requires { NodeScannable net.now caps.now u level.old queue.old }
    ensures { NodeScanned net.now caps.now u level.old queue.old level.new queue.new }
{
    let mut end = queue.end;
    for link in net.leaving(u) {
        let e = *link as usize;
        let v = net.heads[e] as usize;
        if caps[e] > EPS && level[v] == UNSET {
            level[v] = level[u] + 1;
            queue.nodes[end] = v;
            end += 1;
        }
    }
    queue.end = end;
}

// Sets the levels, from the source on; they come in unset.
pub(crate) fn levels(course: &Course, caps: &[f64], level: &mut [usize])
    requires { Searchable course.now.net.heads.now course.now.net.list.now course.now.net.starts.now caps.now course.now.ends.source level.old (replicate 66 0) }
    ensures { (N : Net) → WellFormed N → InRows N course.now.net.heads.now course.now.net.list.now course.now.net.starts.now course.now.ends.source → level.old ≡ replicate (nodes N) unset → level.new ≡ Levels.levels N caps.now }
{
    let mut queue = Queue {
        nodes: [0; 66],
        end: 1,
    };
    let net = &course.net;
    let source = course.ends.source;
    level[source] = 0;
    queue.nodes[0] = source;
    let mut first: usize = 0;
    // Stays: the queue grows while it is walked, which a `for` over it or over its length can't do.
    while first < queue.end {
        let u = queue.nodes[first];
        first += 1;
        scan(net, caps, u, level, &mut queue);
    }
}
