// Links in rows of heads and capacities, put into a network that is lent, and the run on it.
ghost use Rattle.std.specs.Prelude.{◌≡◌, ◌≤◌, length};
ghost use Rattle.numbers.specs.Refuse.{numbered, code};
ghost use Rattle.flow_check.specs.Refusal.{refused_unless};
ghost use Rattle.flow.specs.Network.{flown};
ghost use Rattle.flow.specs.Filled.{stored, heads_make, filled_if, flow_rows};

use crate::network;
use crate::network::{FlowNetwork, Link};
use flow_check::{Ends, check};
use flow_core::Flow;
use numbers::refusal::Refusal;

// Puts these heads and capacities over the network's first links; the links added cost 0, their reverses its negation.
// Stays: by `heads.iter().zip(caps).enumerate()` it would write `*cap` for `caps[i]`, but the loop has no place i then, only what was yielded: that link i, head i and cap i come together is an induction over the steps of `enumerate`, of which std has no law (`zip_turn` is of a zip alone).
fn store_links(net: &mut FlowNetwork, heads: &[u32], caps: &[f64], nodes: usize)
    requires { (length heads.now ≤ 2176) × (length caps.now ≡ length heads.now) }
    ensures { net.new ≡ stored net.old heads.now caps.now (length heads.now) nodes }
{
    let mut cost = 0.0;
    for (i, head) in heads.iter().enumerate() {
        net.links[i] = Link {
            head: *head,
            cap: caps[i],
            cost,
        };
        cost = -cost;
    }
    net.count = heads.len();
    net.nodes = nodes;
}

// Fills the network with the links of the rows and their node lists; the network stays as it was where the rows make no network.
// Stays: two rows, which flow_rows cuts off the three that it is lent by themselves (`network::unpack` says why).
fn fill(net: &mut FlowNetwork, heads: &[u32], caps: &[f64], nodes: usize) -> Result<(), Refusal>
    requires { length caps.now ≡ length heads.now }
    ensures fits { code result ≡ refused_unless (heads_make heads.now nodes) }
    ensures filled { net.new ≡ filled_if (heads_make heads.now nodes) net.old heads.now caps.now (length heads.now) nodes }
{
    check::node_lists(heads, nodes, &mut net.starts, &mut net.list)?;
    store_links(net, heads, caps, nodes);
    Ok(())
}

// The maximum flow from source to sink on a network that is lent and filled with the links of the rows' first n places, two for each added link; the rows keep the capacities and the costs of the links.
// Stays: three rows, for the reason that `network::unpack` gives. With slices cut by the caller n would go, but not the two tests of lengths, and the promise for longer rows, that they stay as they were from n on, would have to be shown by each caller from what the cuts leave.
pub fn flow_rows(
    net: &mut FlowNetwork,
    heads: &mut [u32],
    caps: &mut [f64],
    costs: &mut [f64],
    n: usize,
    nodes: usize,
    ends: Ends,
) -> Result<Flow, Refusal>
    ensures { flown (numbered result) net.new heads.new caps.new costs.new ≡ flow_rows net.old heads.old caps.old costs.old n nodes ends.source ends.sink }
{
    if heads.len() < n || caps.len() < n || costs.len() < n {
        return Err(Refusal::NetworkOrMasses);
    }
    fill(net, &heads[..n], &caps[..n], nodes)?;
    network::max_flow_in(net, heads, caps, costs, ends)
}
