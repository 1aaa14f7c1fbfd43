// The kind `flow`: the maximum flow on a network.
use crate::edges::expect_field;
use crate::entries::Entry;
use crate::kept::Untouched;
use crate::{kept, lent, nets};
use flow::network::FlowNetwork;
use flow_check::Ends;
use replay_text::lists::front;
use replay_text::text::Reader;

// Only capacities of the n links listed may change.
fn same_else(before: &FlowNetwork, after: &FlowNetwork, n: usize) -> bool {
    before.count == after.count
        && kept::kept(
            before,
            after,
            Untouched {
                links: 0,
                caps: n,
                starts: 0,
                list: 0,
            },
        )
}

pub fn run(r: &mut Reader) {
    let l = nets::read(r);
    let ends = Ends {
        source: r.next_number_field() as usize,
        sink: r.next_number_field() as usize,
    };
    let ran = lent::max_flow(l.net, ends);
    r.expect_answer(ran.answer.map(|f| (f.flow, f.phases, f.pushes)));
    expect_field(r, front(&ran.net.links, l.links), |link| link.cap);
    r.compared(same_else(&l.net, &ran.net, l.links));
    r.count(Entry::MaxFlow as usize);
}
