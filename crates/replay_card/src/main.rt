// Runs the report on the stored cards of standard input, and compares each answer and the whole store with the stored ones.
// The names of lines are skipped. A case whose values are not as laid out, or with a list that is too long, differs.
#![tactic(auto)]

mod cards; // cards.rt: a stored card, its report and the store

use replay_text::cases;
use replay_text::tally::Counts;
use replay_text::text::Reader;
use std::io;

// Stays: one function for the four programs of one kind would take what runs a case as a closure, and so ask of its callers that it can be called.
fn main(rt: HostRuntime) -> io::Result<()> {
    let mut card = [0u8; 10500];
    let mut out = [0u8; 26662];
    let text = cases::read(&mut rt.reader(), rt.alloc())?;
    let mut r = Reader::new(&text, Counts::new());
    for _ in 0..cases::MOST {
        if r.at_end() {
            break;
        }
        if r.is_next_kind(b"card") {
            cards::run(&mut r, &mut card, &mut out);
            r.count(0);
        }
        r.next_case();
    }
    let counts = r.counts;
    counts.print(&rt, "card report", 0);
    counts.print_end(&rt);
    Ok(())
}
