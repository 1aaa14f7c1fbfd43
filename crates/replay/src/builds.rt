// The kind `build`: a model from transitions in columns.
use crate::entries::Entry;
use bisim_build::builder::build;
use build_theory::lent::{Draft, Store};
use replay_text::text::Reader;

// The columns lent, as they are filled beforehand; the answer, and the columns at the end.
fn run_lent(r: &mut Reader, draft: &Draft) {
    let mut label_values = [0u32; 2112];
    let mut offsets = [0u32; 2112];
    let mut edge_labels = [0u32; 2112];
    let mut edge_targets = [0u32; 2112];
    let mut edge_weights = [0.0f64; 2112];
    let mut store = Store {
        label_values: r.next_list_field(&mut label_values),
        offsets: r.next_list_field(&mut offsets),
        edge_labels: r.next_list_field(&mut edge_labels),
        edge_targets: r.next_list_field(&mut edge_targets),
        edge_weights: r.next_list_field(&mut edge_weights),
    };
    let answer = build(draft, &mut store);
    r.expect_answer(answer.map(|shape| (shape.edges, shape.labels)));
    r.expect_list(store.label_values);
    r.expect_list(store.offsets);
    r.expect_list(store.edge_labels);
    r.expect_list(store.edge_targets);
    r.expect_list(store.edge_weights);
}

pub fn run(r: &mut Reader) {
    let mut sources = [0u32; 2112];
    let mut labels = [0u32; 2112];
    let mut targets = [0u32; 2112];
    let mut weights = [0.0f64; 2112];
    let draft = Draft {
        states: r.next_number_field() as usize,
        initial: r.next_initial_field(),
        given: r.next_number_field() as usize,
        sources: r.next_list_field(&mut sources),
        labels: r.next_list_field(&mut labels),
        targets: r.next_list_field(&mut targets),
        weights: r.next_list_field(&mut weights),
    };
    run_lent(r, &draft);
    r.count(Entry::Build as usize);
}
