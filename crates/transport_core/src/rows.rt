// The rounds on links in rows: these are checked, listed by node, and sailed.
ghost use Rattle.std.specs.Prelude.{◌≡◌, ◌+◌, ◌≤◌, length};
ghost use Rattle.transport_theory.proofs.RoundRows.{roads_of, Sailable, Shipped};
ghost use Rattle.transport_theory.proofs.TransportRows.{shipped_rows};
ghost use Rattle.transport_theory.proofs.Sending.{sizes_fit, sent, send};

use crate::run;
use flow_check::{Course, Ends, Network, check};
use numbers::{EPS, ONE, Real, larger, smaller};
use transport_theory::Masses;

// What a run only reads of its links: the node where each ends, and its cost.
#[derive(Clone, Copy, Debug)]
pub struct Links<'a> {
    pub heads: &'a [u32],
    pub prices: &'a [f64],
}

// The rounds on links that are listed by node; gives what remains.
// Stays: `unwrap_or(0)`, where `few` says that there are places. Handed down they would be a parameter, a `requires` that they are those of the masses, and an answer in ship_rows that shows it.
fn ship_listed(of: &Masses, net: &Network, caps: &mut [f64]) -> f64
    requires few { (length of.now.left.now ≤ 32) × (length of.now.right.now ≤ 32) }
    requires nodes { net.now.nodes ≡ length of.now.left.now + length of.now.right.now + 2 }
    requires sailable { Sailable (roads_of net.now (record { source = length of.now.left.now + length of.now.right.now; sink = length of.now.left.now + length of.now.right.now + 1 })) net.now.starts.now net.now.list.now caps.old }
    ensures { Shipped (shipped_rows of.now.left.now of.now.right.now net.now.heads.now caps.old net.now.costs.now) result caps.new }
{
    let source = of.left.len() + of.right.len();
    let course = Course {
        net: *net,
        ends: Ends {
            source,
            sink: source + 1,
        },
    };
    let ta = Real::sum(of.left).value();
    let tb = Real::sum(of.right).value();
    let places = of.places().unwrap_or(0);
    run::ship(
        &course,
        caps,
        smaller(ta, tb),
        EPS * larger(ta, ONE),
        2 * places + 16,
    )
}

// At most 32 masses on a side, and a capacity and a cost for each link.
fn sizes_fit(of: &Masses, links: &Links, caps: &[f64]) -> bool
    ensures { result ≡ sizes_fit (length of.now.left.now) (length of.now.right.now) (length links.now.heads.now) (length caps.now) (length links.now.prices.now) }
{
    let count = links.heads.len();
    of.few() && caps.len() == count && links.prices.len() == count
}

// The rounds of `transport` between two lists of masses on links in rows; gives what remains. The capacities are left as the rounds leave them, and starts and list have the links by node. Where the links do not fit, all three stay as they were.
pub fn ship_rows(
    of: &Masses,
    links: &Links,
    caps: &mut [f64],
    starts: &mut [u32; 67],
    list: &mut [u32],
) -> Option<f64>
    ensures { sent result caps.new starts.new list.new ≡ send of.now.left.now of.now.right.now links.now.heads.now caps.old links.now.prices.now starts.old list.old }
{
    if !sizes_fit(of, links, caps) {
        return None;
    }
    let nodes = of.left.len() + of.right.len() + 2;
    check::node_lists(links.heads, nodes, starts, list).ok()?;
    let net = Network {
        heads: links.heads,
        costs: links.prices,
        starts,
        list,
        nodes,
    };
    Some(ship_listed(of, &net, caps))
}
