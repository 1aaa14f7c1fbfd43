// Networks of links and their maximum flow for C and Rust: over rows of numbers, and on a network that is lent, laid out as C has it.
ghost use Rattle.std.specs.Prelude.{◌≡◌, length, IfOk, eqb};
ghost use Rattle.numbers.specs.Refuse.{numbered, code};
ghost use Rattle.flow_check.specs.Refusal.{refused_unless};
ghost use Rattle.flow_core.specs.Outcome;
ghost use Rattle.flow_core.specs.Outcome.{Claimed};
ghost use Rattle.flow.specs.Network;
ghost use Rattle.flow.specs.Network.{ClaimedOn, leaves, made, added};
ghost use Rattle.replies.specs.Flows.{told, of_flow};
ghost use Rattle.exports.specs.Networks.{flow_rows, network_refusal, kept};

use flow::network::FlowNetwork;
use flow_check::{Course, Edge, Ends};
use flow_core::{Flow, rows};
use numbers::refusal::{Refusal, code};
use replies::answers;

// A network in rows as C lends them.
// Stays: beside flow_check's Network, since C lends the starts as a list of any length, and there are 67 of them in a network.
#[derive(Clone, Copy)]
struct Rows<'a> {
    heads: &'a [u32],
    costs: &'a [f64],
    starts: &'a [u32],
    list: &'a [u32],
    nodes: usize,
}

impl<'a> Rows<'a> {
    // The network, where there are 67 starts.
    fn network(&self) -> Result<flow_check::Network<'a>, Refusal>
        ensures number { code result ≡ refused_unless (eqb (length self.now.starts.now) 67) }
        ensures rows { IfOk result (λ net. (net.heads.now ≡ self.now.heads.now) × (net.costs.now ≡ self.now.costs.now) × (net.starts.now ≡ self.now.starts.now) × (net.list.now ≡ self.now.list.now) × (net.nodes ≡ self.now.nodes)) }
    {
        Ok(flow_check::Network {
            heads: self.heads,
            costs: self.costs,
            starts: self.starts.as_array().ok_or(Refusal::NetworkOrMasses)?,
            list: self.list,
            nodes: self.nodes,
        })
    }
}

fn flow_rows(lent: &Rows, caps: &mut [f64], ends: Ends) -> Result<Flow, Refusal>
    ensures { Outcome.ends (numbered result) caps.new ≡ flow_rows lent.now.heads.now caps.old lent.now.costs.now lent.now.starts.now lent.now.list.now lent.now.nodes ends.source ends.sink }
{
    let net = lent.network()?;
    rows::max_flow_rows(&Course { net, ends }, caps)
}

// Whether a network is accepted with these capacities, source and sink.
fn check_rows(lent: &Rows, caps: &[f64], ends: Ends) -> Result<(), Refusal>
    ensures { code result ≡ network_refusal lent.now.heads.now caps.now lent.now.costs.now lent.now.starts.now lent.now.list.now lent.now.nodes ends.source ends.sink }
{
    let net = lent.network()?;
    if (Course { net, ends }).accepts(caps) {
        Ok(())
    } else {
        Err(Refusal::NetworkOrMasses)
    }
}

// The maximum flow from source to sink; the capacities are left as the run leaves them.
#[unsafe(no_mangle)]
pub extern "C" fn tanqesha_max_flow_rows(
    heads: &[u32],
    caps: &mut [f64],
    costs: &[f64],
    starts: &[u32],
    list: &[u32],
    nodes: usize,
    source: usize,
    sink: usize,
    flow: &mut f64,
    phases: &mut usize,
    pushes: &mut usize,
) -> u32
    ensures pushes_after { told result flow.new phases.new pushes.new
        ≡ of_flow (flow_rows heads.now caps.old costs.now starts.now list.now nodes source sink).answer
        flow.old phases.old pushes.old }
    ensures caps_after { caps.new ≡ (flow_rows heads.now caps.old costs.now starts.now list.now nodes source sink).caps }
    ensures claimed { Claimed heads.now caps.old costs.now starts.now list.now nodes source sink }
{
    let lent = Rows {
        heads,
        costs,
        starts,
        list,
        nodes,
    };
    let answer = flow_rows(&lent, caps, Ends { source, sink });
    code(&answers::put_flow(answer, flow, phases, pushes))
}

// The number of the check that a network fails, 0 if it is accepted.
#[unsafe(no_mangle)]
pub extern "C" fn tanqesha_network_refusal(
    heads: &[u32],
    caps: &[f64],
    costs: &[f64],
    starts: &[u32],
    list: &[u32],
    nodes: usize,
    source: usize,
    sink: usize,
) -> u32
    ensures { result ≡ network_refusal heads.now caps.now costs.now starts.now list.now nodes source sink }
{
    let lent = Rows {
        heads,
        costs,
        starts,
        list,
        nodes,
    };
    code(&check_rows(&lent, caps, Ends { source, sink }))
}

// Puts a network of so many nodes without links in place of the one lent; a refusal leaves that as it is.
fn renew(net: &mut FlowNetwork, nodes: usize) -> Result<(), Refusal>
    ensures { leaves (code result) net.new ≡ kept (made nodes) net.old }
{
    *net = FlowNetwork::new(nodes)?;
    Ok(())
}

// A network of so many nodes without links.
#[unsafe(no_mangle)]
pub extern "C" fn tanqesha_new_network(nodes: usize, net: &mut FlowNetwork) -> u32
    ensures { leaves result net.new ≡ kept (made nodes) net.old }
{
    code(&renew(net, nodes))
}

// The network with a link from one node to another, and its reverse of capacity 0 and the cost negated.
#[unsafe(no_mangle)]
pub extern "C" fn tanqesha_add_edge(
    net: &mut FlowNetwork,
    from: usize,
    to: usize,
    capacity: f64,
    cost: f64,
) -> u32
    ensures { leaves result net.new ≡ added net.old from to capacity cost }
{
    let edge = Edge {
        from,
        to,
        cap: capacity,
        cost,
    };
    code(&net.add_edge(edge))
}

// The maximum flow from source to sink on a network: its links keep the capacities that the run leaves.
#[unsafe(no_mangle)]
pub extern "C" fn tanqesha_max_flow(
    net: &mut FlowNetwork,
    source: usize,
    sink: usize,
    flow: &mut f64,
    phases: &mut usize,
    pushes: &mut usize,
) -> u32
    ensures { (told result flow.new phases.new pushes.new
        ≡ of_flow (Network.flow_through net.old source sink).answer flow.old phases.old pushes.old)
        × (net.new ≡ (Network.flow_through net.old source sink).network)
        × ClaimedOn net.old source sink }
{
    let answer = net.max_flow(Ends { source, sink });
    code(&answers::put_flow(answer, flow, phases, pushes))
}
