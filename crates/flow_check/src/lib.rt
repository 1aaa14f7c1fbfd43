// Refusal 15: the check of a network handed in, over rows of numbers.
#![tactic(auto)]

ghost use Rattle.std.specs.Prelude.{◌≡◌};
ghost use Rattle.flow_check.specs.Lent.{leaving};

mod index; // index.rt: node lists as rows
pub mod check; // check.rt: the check

// The links of a network, a lent slice for each column, and its node lists; links 2k and 2k + 1 are an added link and its reverse.
#[derive(Clone, Copy, Debug)]
pub struct Network<'a> {
    pub heads: &'a [u32], // the node where each link ends
    pub costs: &'a [f64], // its cost for a unit
    pub starts: &'a [u32; 67], // node u's links are list[starts[u]..starts[u + 1]]
    pub list: &'a [u32],
    pub nodes: usize,
}

impl<'a> Network<'a> {
    // The links that leave node u; none where there is no such node, or the list ends before its part does.
    // Stays: two tests, for `self.list.get(from..to).unwrap_or(&[])`, by which a run on 31 targets a side (`flow_31_sparse`) takes 13 % more instructions, since its two results meet before the caller looks at them.
    pub fn leaving(&self, u: usize) -> &'a [u32]
        ensures { result.now ≡ leaving self.now u }
    {
        if 66 <= u {
            return &[];
        }
        let from = self.starts[u] as usize;
        let to = self.starts[u + 1] as usize;
        if to < from || self.list.len() < to {
            return &[];
        }
        &self.list[from..to]
    }
}

// Where a flow comes from, and where it goes.
#[derive(Clone, Copy, Debug, PartialEq, Eq)]
pub struct Ends {
    pub source: usize,
    pub sink: usize,
}

// What stays in a run: the network, and its ends.
// Stays: the capacities stand beside it. With them as a `&mut` field each function of a run would have one parameter less, and a promise more that heads, costs, starts, list, nodes and ends are as they were, since a field behind `&mut` says nothing of itself after a call.
#[derive(Clone, Copy, Debug)]
pub struct Course<'a> {
    pub net: Network<'a>,
    pub ends: Ends,
}

// A link that is to be added: from a node to a node, its capacity and its cost for a unit.
#[derive(Clone, Copy, Debug, PartialEq)]
pub struct Edge {
    pub from: usize,
    pub to: usize,
    pub cap: f64,
    pub cost: f64,
}
