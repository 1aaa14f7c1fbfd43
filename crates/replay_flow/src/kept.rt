// What is to be as it was.
use flow::network::{FlowNetwork, Link};
use replay_text::text;

// From where on the rows are kept: heads and costs of the links, their capacities, the starts, the node lists.
#[derive(Clone, Copy)]
pub struct Untouched {
    pub links: usize,
    pub caps: usize,
    pub starts: usize,
    pub list: usize,
}

fn same_ends(a: &Link, b: &Link) -> bool {
    a.head == b.head && text::alike(a.cost, b.cost)
}

fn same_caps(a: &Link, b: &Link) -> bool {
    text::alike(a.cap, b.cap)
}

// The links from `from` on are the same, by `same`.
fn links_kept<F: Fn(&Link, &Link) -> bool>(
    before: &[Link],
    after: &[Link],
    from: usize,
    same: F,
) -> bool
    requires { F.IsAlwaysCallable same }
{
    before.iter().zip(after).skip(from).all(|(a, b)| same(a, b))
}

fn numbers_kept(before: &[u32], after: &[u32], from: usize) -> bool {
    before.iter().skip(from).eq(after.iter().skip(from))
}

// Nodes, and the rows from where they are kept.
pub fn kept(before: &FlowNetwork, after: &FlowNetwork, from: Untouched) -> bool {
    links_kept(&before.links, &after.links, from.links, same_ends)
        && links_kept(&before.links, &after.links, from.caps, same_caps)
        && numbers_kept(&before.starts, &after.starts, from.starts)
        && numbers_kept(&before.list, &after.list, from.list)
        && before.nodes == after.nodes
}
