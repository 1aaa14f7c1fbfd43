// Runs the entries about chains on the stored cases of standard input, and compares each answer, and all lent memory, with the stored ones.
// The names of lines are skipped. A case whose values are not as laid out, or with a list that is too long, differs.
#![tactic(auto)]

mod entries; // entries.rt: the entries that answers are counted for
mod made; // made.rt: the kind `uniformise`
mod rates; // rates.rt: the kind `rate`
mod scaled; // scaled.rt: the kind `normalise`

use entries::Entry;
use replay_text::cases;
use replay_text::tally::Counts;
use replay_text::text::Reader;
use std::io;

// A kind is told by its first eight letters.
fn run_kind(r: &mut Reader) {
    match r.next_kind() {
        b"rate" => rates::run(r),
        b"uniformi" => made::run(r),
        b"normalis" => scaled::run(r),
        _ => r.unknown(),
    }
}

fn main(rt: HostRuntime) -> io::Result<()> {
    let text = cases::read(&mut rt.reader(), rt.alloc())?;
    let mut r = Reader::new(&text, Counts::new());
    for _ in 0..cases::MOST {
        if r.at_end() {
            break;
        }
        run_kind(&mut r);
        r.next_case();
    }
    let counts = r.counts;
    counts.print(&rt, "rate common_rate", Entry::CommonRate as usize);
    counts.print(&rt, "uniformise uniformise", Entry::Uniformise as usize);
    counts.print(&rt, "normalise normalise", Entry::Normalise as usize);
    counts.print_end(&rt);
    Ok(())
}
