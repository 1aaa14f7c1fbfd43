// Work space for many transports: a network for the links of each, and rows for its rounds.
ghost use Rattle.std.specs.Prelude.{◌≡◌, ◌≤◌, length};
ghost use Rattle.transport.specs.Moving.{Moved};
ghost use Rattle.transport.specs.Lent.{same_columns, Planable, Carried, Loadable};
ghost use Rattle.transport.specs.Network.{stored, network_of, clear};

use crate::plan::{Plan, PlanRows, write_plan};
use flow::network::{FlowNetwork, Link};
use transport_core::rows::{Links, ship_rows};
use transport_links::links::{LinkRows, write_links};
use transport_theory::Masses;

// A network, and rows of heads, capacities and costs for its links. What it holds is work space: only the next call's own writing touches it.
#[derive(Drop)]
pub struct Bench {
    net: FlowNetwork,
    heads: [u32; 2176],
    caps: [f64; 2176],
    prices: [f64; 2176],
}

// Puts links from rows over the network's first ones.
fn store_links(net: &mut FlowNetwork, links: &Links, caps: &[f64], nodes: usize)
    requires { (length links.now.heads.now ≤ 2176) × (length caps.now ≡ length links.now.heads.now) × (length links.now.prices.now ≡ length links.now.heads.now) }
    ensures { net.new ≡ stored net.old links.now.heads.now caps.now links.now.prices.now nodes }
{
    for (i, head) in links.heads.iter().enumerate() {
        net.links[i] = Link {
            head: *head,
            cap: caps[i],
            cost: links.prices[i],
        };
    }
    net.count = links.heads.len();
    net.nodes = nodes;
}

// The rounds on the links of these masses, and the plan: the links are stored in the network, listed by node there, and keep the capacities that the rounds leave.
fn ship_in(
    net: &mut FlowNetwork,
    of: &Masses,
    links: &Links,
    caps: &mut [f64],
    plan: &mut PlanRows,
) -> Plan
    requires { Carried of.now links.now caps.old net.old.list plan.old }
    ensures transported { Moved of.now plan.old result plan.new }
    ensures same { same_columns plan.old plan.new }
    ensures network { net.new ≡ network_of of.now net.old }
{
    store_links(net, links, caps, of.left.len() + of.right.len() + 2);
    ship_rows(of, links, caps, &mut net.starts, &mut net.list);
    net.keep_caps(caps);
    write_plan(of, caps, plan)
}

// The same over rows with room for the links.
// Stays: `unwrap_or(0)`, for the reason that `transport_in` gives.
fn carry_in(net: &mut FlowNetwork, of: &Masses, mut rows: LinkRows, plan: &mut PlanRows) -> Plan
    requires { Loadable of.now rows net.old.list plan.old }
    ensures transported { Moved of.now plan.old result plan.new }
    ensures same { same_columns plan.old plan.new }
    ensures network { net.new ≡ network_of of.now net.old }
{
    let places = write_links(of, &mut rows).unwrap_or(0);
    let LinkRows {
        heads,
        caps,
        prices,
    } = rows;
    let links = Links {
        heads: &heads[..places],
        prices: &prices[..places],
    };
    ship_in(net, of, &links, &mut caps[..places], plan)
}

impl Bench {
    // One whose numbers are all 0.
    pub fn new() -> Bench
        ensures { result ≡ clear }
    {
        Bench {
            net: FlowNetwork::empty(),
            heads: [0; 2176],
            caps: [0.0; 2176],
            prices: [0.0; 2176],
        }
    }

    // Moves the masses on the network.
    pub(crate) fn carry(&mut self, of: &Masses, plan: &mut PlanRows) -> Plan
        requires { Planable of.now plan.old }
        ensures transported { Moved of.now plan.old result plan.new }
        ensures same { same_columns plan.old plan.new }
        ensures network { self.new.net ≡ network_of of.now self.old.net }
    {
        let _link = self.net.links[0]; // for the proof: a read tells how long the network's arrays are
        let rows = LinkRows {
            heads: &mut self.heads,
            caps: &mut self.caps,
            prices: &mut self.prices,
        };
        carry_in(&mut self.net, of, rows, plan)
    }
}
