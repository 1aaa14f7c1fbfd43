// The kind `uniformise`: a model, a rate, observations and the lists lent for the chain; how many entries it has, and the lists afterwards.
use crate::entries::Entry;
use bisim_core::wlts::Wlts;
use chain_theory::ChainStore;
use chains::chain::uniformise;
use replay_text::columns::Model;
use replay_text::text::Reader;

// The lists lent for the chain; the answer, and the lists as `uniformise` leaves them.
fn run_lent(r: &mut Reader, model: &Wlts, rate: f64, observations: &[f64]) {
    let mut offsets = [0u32; 100];
    let mut targets = [0u32; 100];
    let mut probs = [0.0f64; 100];
    let mut seen = [0.0f64; 100];
    let mut store = ChainStore {
        offsets: r.next_list_field(&mut offsets),
        targets: r.next_list_field(&mut targets),
        probs: r.next_list_field(&mut probs),
        observations: r.next_list_field(&mut seen),
    };
    let answer = uniformise(model, rate, observations, &mut store);
    r.expect_answer(answer.map(|chain| chain.entries));
    r.expect_list(store.offsets);
    r.expect_list(store.targets);
    r.expect_list(store.probs);
    r.expect_list(store.observations);
}

pub fn run(r: &mut Reader) {
    let mut model = Model::new();
    let mut observations = [0.0f64; 100];
    model.read_next(r);
    let rate = r.next_real_field();
    let observations = r.next_list_field(&mut observations);
    run_lent(r, &model.lent(), rate, observations);
    r.count(Entry::Uniformise as usize);
}
