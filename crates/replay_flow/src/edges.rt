// The kind `edge`: a link added to a network.
use crate::entries::Entry;
use crate::kept::Untouched;
use crate::lent::Left;
use crate::nets::Listed;
use crate::{kept, lent, nets};
use flow::network::{FlowNetwork, Link};
use flow_check::Edge;
use replay_text::lists::front;
use replay_text::text::Reader;
use replay_text::values::Value;

// Two places more than n, where there is room.
fn two_more(n: usize) -> usize {
    n.min(2174) + 2
}

// A field of each link, in a list of its own.
pub(crate) fn expect_field<T: Value, F: Fn(&Link) -> T>(r: &mut Reader, links: &[Link], field: F)
    requires { F.IsAlwaysCallable field }
{
    r.name();
    r.expect(links.len());
    for link in links {
        r.expect(field(link));
    }
}

// The links: each field in a list of its own.
fn expect_links(r: &mut Reader, links: &[Link]) {
    expect_field(r, links, |link| link.head);
    expect_field(r, links, |link| link.cap);
    expect_field(r, links, |link| link.cost);
}

// The network with the link asked for, and its reverse, after its links; none where an end has over 32 bits, or there is no room.
fn with_link(mut net: FlowNetwork, x: Edge) -> Option<FlowNetwork> {
    let to = u32::try_from(x.to).ok()?;
    let from = u32::try_from(x.from).ok()?;
    let count = net.count;
    if count >= 2175 {
        return None;
    }
    net.links[count] = Link {
        head: to,
        cap: x.cap,
        cost: x.cost,
    };
    net.links[count + 1] = Link {
        head: from,
        cap: 0.0,
        cost: -x.cost,
    };
    Some(net)
}

// What the lists of the answer do not show: past them all is kept, but for a link added there.
fn same_else(l: Listed, x: Edge, made: Left<()>) -> bool {
    let before = match made.answer {
        Ok(()) => with_link(l.net, x),
        Err(_) => Some(l.net).filter(|net| net.count == made.net.count),
    };
    let n = two_more(l.links);
    let from = Untouched {
        links: n,
        caps: n,
        starts: l.starts,
        list: two_more(l.list),
    };
    before.is_some_and(|before| kept::kept(&before, &made.net, from))
}

fn compare(r: &mut Reader, l: Listed, x: Edge, made: Left<()>) {
    r.expect_answer(made.answer.map(|()| made.net.count));
    expect_links(r, front(&made.net.links, two_more(l.links)));
    r.expect_list(front(&made.net.starts, l.starts));
    r.expect_list(front(&made.net.list, two_more(l.list)));
    r.compared(same_else(l, x, made));
}

pub fn run(r: &mut Reader) {
    let l = nets::read(r);
    let x = Edge {
        from: r.next_number_field() as usize,
        to: r.next_number_field() as usize,
        cap: r.next_real_field(),
        cost: r.next_real_field(),
    };
    let made = lent::add_edge(l.net, x);
    compare(r, l, x, made);
    r.count(Entry::AddEdge as usize);
}
