// Networks of links, and the flow run on one that is lent.
ghost use Rattle.flow.specs.Network as nets;
ghost use Rattle.flow.specs.Network.{heads_of, caps_of, costs_of, with_caps, with_links, flow_through, flown, flow_in, ClaimedOn, seen, seen_in, bare, made, made_or_empty, fits_on, grown, leaves, added};
ghost use Rattle.flow_theory.proofs.ListRows.{Indexable};
ghost use Rattle.numbers.specs.Lists.{over};
ghost use Rattle.numbers.specs.Refuse.{numbered, code};
ghost use Rattle.std.specs.Prelude.{◌≡◌, ◌+◌, ◌≤◌, length};

use flow_check::{Course, Edge, Ends, Network, check};
use flow_core::{Flow, rows};
use numbers::refusal::Refusal;

// A link: the node that it leads to, the capacity left, and its cost for a unit.
#[repr(C)]
#[derive(Clone, Copy)]
pub struct Link {
    pub head: u32,
    pub cap: f64,
    pub cost: f64,
}

// A network: links 2k and 2k + 1 are an added link and its reverse; node u's list is list[starts[u]..starts[u + 1]].
// Stays: links beside a count, since the C interface lends a network as these rows.
#[repr(C)]
#[derive(Clone, Copy)]
pub struct FlowNetwork {
    pub links: [Link; 2176],
    pub count: usize,
    pub nodes: usize,
    pub starts: [u32; 67],
    pub list: [u32; 2176],
}

// Copies heads, capacities and costs of the links to the front of rows.
// Stays: three rows by themselves. Of a struct of three lent slices max_flow_in would lend two fields on as shared beside the third, and what they hold afterwards is not known (docs/PROVING.md, Pitfalls); of a struct by value, as in `transport_in`, a contract has only what it was at entry; one of three arrays of N numbers was written and proves, but asks more of who calls `flow_rows` than slices of any length.
fn unpack(links: &[Link], heads: &mut [u32], caps: &mut [f64], costs: &mut [f64])
    requires { (length links.now ≤ length heads.old) × (length links.now ≤ length caps.old) × (length links.now ≤ length costs.old) }
    ensures { (heads.new ≡ over (heads_of (length links.now) links.now) heads.old) × (caps.new ≡ over (caps_of (length links.now) links.now) caps.old) × (costs.new ≡ over (costs_of (length links.now) links.now) costs.old) }
{
    for (i, link) in links.iter().enumerate() {
        heads[i] = link.head;
        caps[i] = link.cap;
        costs[i] = link.cost;
    }
}

// Copies the heads of the links into a row.
// Stays: beside `unpack`, which goes over the links once. Made of this, it would cut `heads` for the call and go over them a second time for the other two rows.
fn unpack_heads(links: &[Link], heads: &mut [u32])
    requires { length heads.old ≡ length links.now }
    ensures { heads.new ≡ heads_of (length links.now) links.now }
{
    for (i, link) in links.iter().enumerate() {
        heads[i] = link.head;
    }
}

// The network as the check and the run see it: heads and costs of its links are the first of these rows.
fn in_rows<'a>(net: &'a FlowNetwork, heads: &'a [u32], costs: &'a [f64]) -> Network<'a>
    requires { (net.now.count ≤ length heads.now) × (net.now.count ≤ length costs.now) }
    ensures { seen result ≡ seen_in net.now heads.now costs.now }
{
    let n = net.count;
    Network {
        heads: &heads[..n],
        costs: &costs[..n],
        starts: &net.starts,
        list: &net.list,
        nodes: net.nodes,
    }
}

// Whether a network passes the check but for source and sink.
fn net_fits(net: &FlowNetwork) -> bool
    requires { net.now.count ≤ 2176 }
    ensures { result ≡ fits_on net.now }
{
    let n = net.count;
    let mut heads = [0u32; 2176];
    let mut caps = [0.0; 2176];
    let mut costs = [0.0; 2176];
    unpack(&net.links[..n], &mut heads, &mut caps, &mut costs);
    in_rows(net, &heads, &costs).fits(&caps[..n])
}

// Takes the two links after those in use, and makes the node lists with them; it is never refused, as there is room.
// Stays: a Result that is always Ok, since `node_lists` answers one, and here it is neither dropped nor unwrapped: add_edge's own answer is this one.
fn grow(net: &mut FlowNetwork) -> Result<(), Refusal>
    requires { (net.old.count ≤ 2174) × (net.old.nodes ≤ 66) × Indexable (heads_of (net.old.count + 2) net.old.links) net.old.nodes }
    ensures { leaves (code result) net.new ≡ leaves 0 (grown net.old net.old.links) }
{
    let n = net.count + 2;
    let mut heads = [0u32; 2176];
    unpack_heads(&net.links[..n], &mut heads[..n]);
    check::node_lists(&heads[..n], net.nodes, &mut net.starts, &mut net.list)?;
    net.count = n;
    Ok(())
}

// The run on the network through lent rows, in which heads, capacities and costs of its links stand meanwhile.
// Stays: three rows, for the reason that `unpack` gives.
pub(crate) fn max_flow_in(
    net: &mut FlowNetwork,
    heads: &mut [u32],
    caps: &mut [f64],
    costs: &mut [f64],
    ends: Ends,
) -> Result<Flow, Refusal>
    requires { (net.old.count ≤ 2176) × (net.old.count ≤ length heads.old) × (net.old.count ≤ length caps.old) × (net.old.count ≤ length costs.old) }
    ensures { flown (numbered result) net.new heads.new caps.new costs.new ≡ flow_in net.old heads.old caps.old costs.old ends.source ends.sink }
{
    let n = net.count;
    unpack(&net.links[..n], heads, caps, costs);
    let lent = in_rows(net, heads, costs);
    let answer = rows::max_flow_rows(&Course { net: lent, ends }, &mut caps[..n]);
    net.keep_caps(&caps[..n]);
    answer
}

// The run through rows of N entries, all of which are cleared first.
fn max_flow_with<const N: usize>(net: &mut FlowNetwork, ends: Ends) -> Result<Flow, Refusal>
    requires { (net.old.count ≤ N) × (N ≤ 2176) }
    ensures { nets.ends (numbered result) net.new ≡ flow_through net.old ends.source ends.sink }
{
    let mut heads = [0u32; N];
    let mut caps = [0.0; N];
    let mut costs = [0.0; N];
    max_flow_in(net, &mut heads, &mut caps, &mut costs, ends)
}

impl FlowNetwork {
    // A network of no nodes.
    pub fn empty() -> FlowNetwork
        ensures { result ≡ bare 0 }
    {
        let link = Link {
            head: 0,
            cap: 0.0,
            cost: 0.0,
        };
        FlowNetwork {
            links: [link; 2176],
            count: 0,
            nodes: 0,
            starts: [0; 67],
            list: [0; 2176],
        }
    }

    // A network of so many nodes, without links.
    pub fn new(nodes: usize) -> Result<FlowNetwork, Refusal>
        ensures { numbered result ≡ made nodes }
    {
        if nodes > 66 {
            return Err(Refusal::NetworkOrMasses);
        }
        let mut net = FlowNetwork::empty();
        net.nodes = nodes;
        Ok(net)
    }

    // The network that `new` makes, or one of no nodes where that refuses.
    pub fn new_or_empty(nodes: usize) -> FlowNetwork
        ensures { result ≡ made_or_empty nodes }
    {
        match FlowNetwork::new(nodes) {
            Ok(network) => network,
            Err(_) => FlowNetwork::empty(),
        }
    }

    // Adds a link, and its reverse of capacity 0 and the cost negated; a refusal leaves the network as it is.
    pub fn add_edge(&mut self, edge: Edge) -> Result<(), Refusal>
        ensures { leaves (code result) self.new ≡ added self.old edge.from edge.to edge.cap edge.cost }
    {
        let n = self.count;
        if n > 2174 || !edge.fits(self.nodes) || !net_fits(self) {
            return Err(Refusal::NetworkOrMasses);
        }
        self.links[n] = Link {
            head: edge.to as u32,
            cap: edge.cap,
            cost: edge.cost,
        };
        self.links[n + 1] = Link {
            head: edge.from as u32,
            cap: 0.0,
            cost: -edge.cost,
        };
        grow(self)
    }

    // The first links take these capacities, as many as there are of both.
    pub fn keep_caps(&mut self, caps: &[f64])
        ensures { self.new ≡ with_links self.old (with_caps self.old.links caps.now) }
    {
        let n = caps.len().min(2176);
        for (j, cap) in caps[..n].iter().enumerate() {
            self.links[j].cap = *cap;
        }
    }

    // The maximum flow from source to sink: the links keep the capacities that the run leaves.
    pub fn max_flow(&mut self, ends: Ends) -> Result<Flow, Refusal>
        ensures { (nets.ends (numbered result) self.new ≡ flow_through self.old ends.source ends.sink) × ClaimedOn self.old ends.source ends.sink }
    {
        let count = self.count;
        if count > 2176 {
            return Err(Refusal::NetworkOrMasses);
        }
        if count <= 128 {
            return max_flow_with::<128>(self, ends);
        }
        if count <= 512 {
            return max_flow_with::<512>(self, ends);
        }
        max_flow_with::<2176>(self, ends)
    }
}
