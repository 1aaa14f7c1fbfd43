// Runs the entries about relations on the stored cases of standard input, and compares each answer, and all lent memory, with the stored ones.
// The names of lines are skipped. A case whose values are not as laid out, or with a list that is too long, differs.
#![tactic(auto)]

mod entries; // entries.rt: the entries that answers are counted for
mod relations; // relations.rt: the kinds `relation` and `related`
mod store; // store.rt: the bytes lent for a relation

use entries::Entry;
use replay_text::cases;
use replay_text::tally::Counts;
use replay_text::text::Reader;
use std::io;

fn run_kind(r: &mut Reader, bytes: &mut [u8]) {
    match r.next_kind() {
        b"relation" => relations::run(r, bytes),
        b"related" => relations::run_related(r, bytes),
        _ => r.unknown(),
    }
}

fn print_all(rt: &impl Print, counts: &Counts) {
    counts.print(rt, "relation epsdelta", Entry::Epsdelta as usize);
    counts.print(
        rt,
        "relation epsdelta_bisimilar",
        Entry::EpsdeltaBisimilar as usize,
    );
    counts.print(rt, "relation min_epsilon", Entry::MinEpsilon as usize);
    counts.print(rt, "related", Entry::Related as usize);
    counts.print_end(rt);
}

fn main(rt: HostRuntime) -> io::Result<()> {
    let mut bytes = [0u8; 501502];
    let text = cases::read(&mut rt.reader(), rt.alloc())?;
    let mut r = Reader::new(&text, Counts::new());
    for _ in 0..cases::MOST {
        if r.at_end() {
            break;
        }
        run_kind(&mut r, &mut bytes);
        r.next_case();
    }
    print_all(&rt, &r.counts);
    Ok(())
}
