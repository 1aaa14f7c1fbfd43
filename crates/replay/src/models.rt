// The kind `model`: the check of a built model, and its readers.
use crate::entries::Entry;
use bisim_core::ids::{LabelId, StateId};
use bisim_core::wlts::Wlts;
use bisim_reader::reader;
use replay_text::columns::Model;
use replay_text::text::Reader;

// The check, and the counts.
fn check_counts(r: &mut Reader, model: &Wlts) {
    r.check(Entry::ModelRefusal as usize, model.check());
    r.check(Entry::NumStates as usize, reader::num_states(model));
    r.check(
        Entry::NumTransitions as usize,
        reader::num_transitions(model),
    );
    r.check(Entry::NumLabels as usize, reader::num_labels(model));
}

// What is asked beside a model.
#[derive(Clone, Copy)]
struct Asked {
    state: StateId,
    id: LabelId,
    value: u32,
}

// The readers of a state, a label and the initial state.
fn check_readers(r: &mut Reader, x: Asked, model: &Wlts) {
    r.check(Entry::Initial as usize, reader::initial(model));
    r.check(
        Entry::Successors as usize,
        reader::successors(model, x.state),
    );
    r.check(Entry::Label as usize, reader::label(model, x.id));
    r.check(Entry::LabelId as usize, reader::label_id(model, x.value));
}

pub fn run(r: &mut Reader) {
    let mut model = Model::new();
    model.read_next(r);
    let x = Asked {
        state: StateId(r.next_short_field()),
        id: LabelId(r.next_short_field()),
        value: r.next_short_field(),
    };
    let lent = model.lent();
    check_counts(r, &lent);
    check_readers(r, x, &lent);
}
