// Runs `bisim_distance` on the stored cases of standard input, and compares each answer, its contributions and what scratch holds then with the stored ones.
// The names of lines are skipped. A case whose values are not as laid out, or with a list that is too long, differs.
#![tactic(auto)]

mod models; // models.rt: the kind `bisim_distance`
mod side; // side.rt: a model in the text

use replay_measures::scratch::Lists;
use replay_text::cases;
use replay_text::tally::Counts;
use replay_text::text::Reader;
use side::Side;
use std::io;

// Stays: one function for the four programs of one kind would take what runs a case as a closure, and so ask of its callers that it can be called.
fn main(rt: HostRuntime) -> io::Result<()> {
    let text = cases::read(&mut rt.reader(), rt.alloc())?;
    let mut left = Side::new();
    let mut right = Side::new();
    let mut lists = Lists::new();
    let mut r = Reader::new(&text, Counts::new());
    for _ in 0..cases::MOST {
        if r.at_end() {
            break;
        }
        // A kind is told by its first eight letters.
        if r.is_next_kind(b"bisim_di") {
            models::run(&mut r, &mut left, &mut right, &mut lists);
            r.count(0);
        }
        r.next_case();
    }
    let counts = r.counts;
    counts.print(&rt, "bisim_distance bisim_distance", 0);
    counts.print_end(&rt);
    Ok(())
}
