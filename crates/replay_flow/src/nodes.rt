// The kind `nodes`: a new network.
use crate::entries::Entry;
use crate::kept::Untouched;
use crate::{kept, nets};
use flow::network::FlowNetwork;
use replay_text::text::Reader;

// A new network has no links, and zeros in all rows.
fn is_blank(net: &FlowNetwork) -> bool {
    net.count == 0
        && kept::kept(
            &nets::blank(net.nodes),
            net,
            Untouched {
                links: 0,
                caps: 0,
                starts: 0,
                list: 0,
            },
        )
}

pub fn run(r: &mut Reader) {
    let nodes = r.next_number_field() as usize;
    let made = FlowNetwork::new(nodes);
    r.expect_answer(made.map(|net| net.nodes));
    if let Ok(net) = made {
        r.compared(is_blank(&net));
    }
    r.count(Entry::New as usize);
}
