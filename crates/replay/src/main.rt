// Runs the entries of numbers, labels and models on the stored cases of standard input, and compares each answer, and all lent memory, with the stored ones.
// The names of lines are skipped. A case whose values are not as laid out, or with a list that is too long, differs.
#![tactic(auto)]

mod builds; // builds.rt: the kind `build`
mod entries; // entries.rt: the entries that answers are counted for
mod labels; // labels.rt: the kinds `intern` and `label`
mod models; // models.rt: the kind `model`
mod reals; // reals.rt: the kind `real`

use entries::Entry;
use replay_text::cases;
use replay_text::tally::Counts;
use replay_text::text::Reader;
use std::io;

fn run_kind(r: &mut Reader) {
    match r.next_kind() {
        b"real" => reals::run(r),
        b"intern" => labels::run_intern(r),
        b"label" => labels::run_label(r),
        b"build" => builds::run(r),
        b"model" => models::run(r),
        _ => r.unknown(),
    }
}

// What is printed before an entry's counts.
const TITLES: [(&str, Entry); 15] = [
    ("real is_valid", Entry::IsValid),
    ("real is_zero", Entry::IsZero),
    ("real sum", Entry::Sum),
    ("intern", Entry::Intern),
    ("label get", Entry::Get),
    ("label resolve", Entry::Resolve),
    ("build", Entry::Build),
    ("model model_refusal", Entry::ModelRefusal),
    ("model num_states", Entry::NumStates),
    ("model num_transitions", Entry::NumTransitions),
    ("model num_labels", Entry::NumLabels),
    ("model initial", Entry::Initial),
    ("model successors", Entry::Successors),
    ("model label", Entry::Label),
    ("model label_id", Entry::LabelId),
];

fn print_all(rt: &impl Print, counts: &Counts) {
    for (title, entry) in TITLES {
        counts.print(rt, title, entry as usize);
    }
    counts.print_end(rt);
}

fn main(rt: HostRuntime) -> io::Result<()> {
    let text = cases::read(&mut rt.reader(), rt.alloc())?;
    let mut r = Reader::new(&text, Counts::new());
    for _ in 0..cases::MOST {
        if r.at_end() {
            break;
        }
        run_kind(&mut r);
        r.next_case();
    }
    print_all(&rt, &r.counts);
    Ok(())
}
