// Runs `distance` on the stored cases of standard input, and compares each answer, its contributions and what scratch holds then with the stored ones.
// The names of lines are skipped. A case whose values are not as laid out, or with a list that is too long, differs.
#![tactic(auto)]

mod runs; // runs.rt: the kind `distance`

use replay_measures::scratch::Lists;
use replay_text::cases;
use replay_text::tally::Counts;
use replay_text::text::Reader;
use std::io;

// Stays: one function for the four programs of one kind would take what runs a case as a closure, and so ask of its callers that it can be called.
fn main(rt: HostRuntime) -> io::Result<()> {
    let text = cases::read(&mut rt.reader(), rt.alloc())?;
    let mut lists = Lists::new();
    let mut r = Reader::new(&text, Counts::new());
    for _ in 0..cases::MOST {
        if r.at_end() {
            break;
        }
        if r.is_next_kind(b"distance") {
            runs::run(&mut r, &mut lists);
            r.count(0);
        }
        r.next_case();
    }
    let counts = r.counts;
    counts.print(&rt, "distance distance", 0);
    counts.print_end(&rt);
    Ok(())
}
