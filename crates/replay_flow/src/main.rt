// Runs the entries of networks on the stored cases of standard input, and compares each answer, and all lent memory, with the stored ones.
// The names of lines are skipped. A case whose values are not as laid out, or with a list that is too long, differs.
#![tactic(auto)]

mod edges; // edges.rt: the kind `edge`
mod entries; // entries.rt: the entries that answers are counted for
mod flows; // flows.rt: the kind `flow`
mod kept; // kept.rt: what is to be as it was
mod lent; // lent.rt: a network lent to an entry, and taken back
mod nets; // nets.rt: networks as rows of numbers
mod nodes; // nodes.rt: the kind `nodes`

use entries::Entry;
use replay_text::cases;
use replay_text::tally::Counts;
use replay_text::text::Reader;
use std::io;

fn run_kind(r: &mut Reader) {
    match r.next_kind() {
        b"flow" => flows::run(r),
        b"edge" => edges::run(r),
        b"nodes" => nodes::run(r),
        _ => r.unknown(),
    }
}

fn main(rt: HostRuntime) -> io::Result<()> {
    let text = cases::read(&mut rt.reader(), rt.alloc())?;
    let mut r = Reader::new(&text, Counts::new());
    for _ in 0..cases::MOST {
        if r.at_end() {
            break;
        }
        run_kind(&mut r);
        r.next_case();
    }
    let counts = r.counts;
    counts.print(&rt, "flow max_flow", Entry::MaxFlow as usize);
    counts.print(&rt, "edge add_edge", Entry::AddEdge as usize);
    counts.print(&rt, "nodes new", Entry::New as usize);
    counts.print_end(&rt);
    Ok(())
}
