// The flow tests that sweeps ask for, on one network.
ghost use Rattle.std.specs.Prelude.{◌≡◌, ◌<◌, ◌+◌, ◌-◌, List, Float, length};
ghost use Rattle.numbers.specs.Refuse.{numbered};
ghost use Rattle.flow.specs.declared.network.FlowNetwork.{FlowNetwork};
ghost use Rattle.flow.specs.Filled.{flow_rows};
ghost use Rattle.flow_links.proofs.RowsRead.{states_of};
ghost use Rattle.epsdelta_sweeps.specs.Place.{Same};
ghost use Rattle.epsdelta_sweeps.specs.Leading.{place_of, Paired, Answers, Asking, FromTest, RunsOut, ToEnd};

use crate::changes::Memory;
use crate::place::{Asked, Terms};
use crate::rows::test;
use crate::sweeps::settle;
use flow::network::FlowNetwork;
use flow::rows::flow_rows;
use flow_check::Ends;
use flow_core::Flow;
use flow_links::links::write_links;
use flow_links::rows::Rows;
use numbers::refusal::Refusal;

// The links of a flow test in rows: the places that they take, the nodes, and the test's ends.
#[derive(Clone, Copy)]
struct Laid {
    places: usize,
    nodes: usize,
    ends: Ends,
}

// A network for flow tests, and rows for the links of one: those of two states with 31 jumps each take 2,046 places.
#[derive(Drop)]
struct Bench {
    net: FlowNetwork,
    heads: [u32; 2046],
    caps: [f64; 2046],
    costs: [f64; 2046],
}

impl Bench {
    // Writes the links of the flow test that is asked for.
    // Stays: these rows fit, so that `write_links` gives a number; `?` for `unwrap_or(0)` would make Options of the answers of two functions, none of them ever None.
    fn lay(&mut self, rows: &Rows, memory: &Memory, asked: Asked) -> Laid
        requires { Paired rows.now asked.s asked.t }
        ensures { (N : FlowNetwork) → length N.links ≡ 2176 → length N.list ≡ 2176 → (costs : List Float) → length costs ≡ 2046
            → Answers rows.now memory.now asked (flow_rows N self.new.heads self.new.caps costs result.places result.nodes result.ends.source result.ends.sink).answer }
    {
        let forth = test(rows, memory, asked.s, asked.t);
        let test = if asked.back { forth.back() } else { forth };
        let source = test.left.targets.len() + test.right.targets.len();
        Laid {
            places: write_links(&test, &mut self.heads, &mut self.caps).unwrap_or(0),
            nodes: source + 2,
            ends: Ends {
                source,
                sink: source + 1,
            },
        }
    }

    // The flow test that is asked for.
    fn answer(&mut self, rows: &Rows, memory: &Memory, asked: Asked) -> Result<Flow, Refusal>
        requires { Paired rows.now asked.s asked.t }
        ensures { Answers rows.now memory.now asked (numbered result) }
    {
        let w = self.lay(rows, memory, asked);
        let _link = self.net.links[0]; // for the proof: a read tells how long the network's arrays are
        flow_rows(
            &mut self.net,
            &mut self.heads,
            &mut self.caps,
            &mut self.costs,
            w.places,
            w.nodes,
            w.ends,
        )
    }

    // The sweeps from the test that is asked for up to the next.
    fn resume(&mut self, terms: &Terms, memory: &mut Memory, asked: Asked) -> Result<(), Asked>
        requires { Asking terms.now memory.old asked }
        ensures { ToEnd (FromTest terms.now memory.old (place_of asked) asked.back memory.new) (states_of terms.now.rows) result × Same memory.old memory.new }
    {
        let answer = self.answer(&terms.rows, memory, asked);
        settle(terms, memory, asked, answer)
    }

    // Sweeps from a test that is asked for until one without a strike, and makes each test that they ask for.
    fn run(&mut self, terms: &Terms, memory: &mut Memory, first: Asked)
        requires { Asking terms.now memory.old first }
        ensures { RunsOut terms.now memory.old first memory.new }
    {
        let mut asked = first;
        while let Err(next) = self.resume(terms, memory, asked) {
            asked = next;
        }
    }
}

// The same on a network that is made here.
pub(crate) fn with_rows(terms: &Terms, memory: &mut Memory, first: Asked)
    requires { Asking terms.now memory.old first }
    ensures { RunsOut terms.now memory.old first memory.new }
{
    let mut bench = Bench {
        net: FlowNetwork::empty(),
        heads: [0; 2046],
        caps: [0.0; 2046],
        costs: [0.0; 2046],
    };
    bench.run(terms, memory, first)
}
