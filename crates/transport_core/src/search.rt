// Bellman-Ford: how far each node is from the source, over links with capacity left, and the link that leads to it.
ghost use Rattle.transport_core.specs.Search.{LinksRelaxable, LinksRelaxed, TreePassable, TreePassed, TreeSearched, same_size};

use flow_check::Network;
use numbers::{EPS, MARGIN};

// What a search fills: the distance of each node, and the link that leads to it.
#[derive(Debug, Drop)]
pub(crate) struct Tree<'a> {
    pub(crate) dist: &'a mut [f64],
    pub(crate) via: &'a mut [usize],
}

// Tries the links that leave u: a head that is nearer over u by more than the margin gets that distance. Gives whether there was any, or had been before.
// Stays: with `changed |= relax(..)` and no `before`, replay_transport takes 1.4 % more instructions.
fn relax(
    net: &Network,
    caps: &[f64],
    links: &[u32],
    u: usize,
    tree: &mut Tree,
    before: bool,
) -> bool
    requires { LinksRelaxable net.now links.now caps.now u tree.old }
    ensures relaxed { LinksRelaxed net.now links.now caps.now u tree.old before tree.new result }
    ensures sizes { same_size tree.old tree.new }
{
    let mut changed = before;
    for link in links {
        let e = *link as usize;
        let v = net.heads[e] as usize;
        if caps[e] > EPS {
            let d = tree.dist[u] + net.costs[e];
            if d < tree.dist[v] - MARGIN {
                tree.dist[v] = d;
                tree.via[v] = e;
                changed = true;
            }
        }
    }
    changed
}

// All nodes in order, those that are reached; gives whether a distance has changed.
fn pass(net: &Network, caps: &[f64], tree: &mut Tree) -> bool
    requires { TreePassable net.now caps.now tree.old }
    ensures passed { TreePassed net.now caps.now tree.old tree.new result }
    ensures sizes { same_size tree.old tree.new }
{
    let mut changed = false;
    for u in 0..tree.dist.len() {
        if !tree.dist[u].is_infinite() {
            // Stays: by `Network::leaving`, which tests what is known here, replay_transport takes 7 % more instructions.
            let from = net.starts[u] as usize;
            let to = net.starts[u + 1] as usize;
            changed = relax(net, caps, &net.list[from..to], u, tree, changed);
        }
    }
    changed
}

// At most as many passes as there are nodes, up to one that changes nothing.
pub(crate) fn search(net: &Network, caps: &[f64], tree: &mut Tree)
    requires { TreePassable net.now caps.now tree.old }
    ensures { TreeSearched net.now caps.now tree.old tree.new }
{
    for _ in 0..tree.dist.len() {
        if !pass(net, caps, tree) {
            return;
        }
    }
}
