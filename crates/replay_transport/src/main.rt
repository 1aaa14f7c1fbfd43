// Runs `transport` on the stored cases of standard input, and compares each answer and the whole lent columns with the stored ones.
// The names of lines are skipped. A case whose values are not as laid out, or with a list that is too long, differs.
#![tactic(auto)]

mod plans; // plans.rt: a stored case, its answer and its columns

use replay_text::cases;
use replay_text::tally::Counts;
use replay_text::text::Reader;
use std::io;

// Stays: one function for the four programs of one kind would take what runs a case as a closure, and so ask of its callers that it can be called.
fn main(rt: HostRuntime) -> io::Result<()> {
    let text = cases::read(&mut rt.reader(), rt.alloc())?;
    let mut r = Reader::new(&text, Counts::new());
    for _ in 0..cases::MOST {
        if r.at_end() {
            break;
        }
        // A kind is told by its first eight letters.
        if r.is_next_kind(b"transpor") {
            plans::run(&mut r);
            r.count(0);
        }
        r.next_case();
    }
    let counts = r.counts;
    counts.print(&rt, "transport transport", 0);
    counts.print_end(&rt);
    Ok(())
}
