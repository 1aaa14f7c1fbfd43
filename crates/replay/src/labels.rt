// The kinds `intern` and `label`: the label ids of bisim_core::ids.
use crate::entries::Entry;
use bisim_core::ids::{Interner, LabelId, intern};
use replay_text::text::Reader;

// The answer, and the list as `intern` leaves it.
pub fn run_intern(r: &mut Reader) {
    let mut store = [0u32; 2112];
    let labels = r.next_list_field(&mut store);
    let count = r.next_number_field() as usize;
    let value = r.next_short_field();
    r.expect_answer(intern(labels, count, value));
    r.expect_list(labels);
    r.count(Entry::Intern as usize);
}

pub fn run_label(r: &mut Reader) {
    let mut store = [0u32; 2112];
    let labels = r.next_list_field(&mut store);
    let count = r.next_number_field() as usize;
    let value = r.next_short_field();
    let id = LabelId(r.next_short_field());
    let interner = Interner { labels, count };
    let found = interner.get(value);
    let resolved = interner.resolve(id);
    r.check(Entry::Get as usize, found);
    r.check(Entry::Resolve as usize, resolved);
}
