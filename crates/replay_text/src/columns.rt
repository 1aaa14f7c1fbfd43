// A built model in the text: counts, initial state and columns.
ghost use Rattle.std.specs.Prelude.{◌≡◌, ◌-◌, not, eqb, min, take, replicate, is_some, IfSome, None};
ghost use Rattle.replay_text.specs.Reading.{Lasts};
ghost use Rattle.replay_text.specs.Words.{whole_or_none, whole, short, real, field_word, past_field, field_size, listed, past_list, list_at};
ghost use Rattle.replay_text.specs.Words.{absent, next_whole, past_whole, next_short, past_word, past_next_field, next_field_size, next_listed, past_next_list, next_list_at, list_within, within_at, next_real, past_real};

use crate::lists::front;
use crate::text::{ABSENT, Reader};
use crate::values::{Entry, NextEntry, Value};
use bisim_core::ids::StateId;
use bisim_core::wlts::{Shape, Wlts};

// Room for a column, and how many of its entries are read.
#[derive(Drop)]
pub struct Column<T, const N: usize> {
    entries: [T; N],
    count: usize,
}

impl<T: Value + Copy, const N: usize> Column<T, N> {
    pub fn new() -> Column<T, N>
        ensures { (result.entries ≡ replicate N T.none) × (result.count ≡ 0) }
    {
        Column {
            entries: [T::zero(); N],
            count: 0,
        }
    }

    pub fn read(&self) -> &[T]
        ensures { result.now ≡ take self.now.count self.now.entries }
    {
        front(&self.entries, self.count)
    }
}

impl<T: Entry, const N: usize> Column<T, N> {
    pub fn fill(&mut self, r: &mut Reader)
        ensures read { (self.new.count ≡ field_size N r.old.rest.now) × (r.new.rest.now ≡ past_list N r.old.rest.now) }
        ensures entries { take self.new.count self.new.entries ≡ listed T.said N r.old.rest.now }
        ensures lasts { Lasts r.old r.new }
    {
        let size = r.size_field(self.entries.len());
        r.read_each(&mut self.entries[..size]);
        self.count = size;
    }
}

// The same where a value need not be a whole word.
impl<T: NextEntry, const N: usize> Column<T, N> {
    pub fn fill_next(&mut self, r: &mut Reader)
        ensures read { (self.new.count ≡ next_field_size N r.old.rest.now) × (r.new.rest.now ≡ past_next_list T.past N r.old.rest.now) }
        ensures entries { take self.new.count self.new.entries ≡ next_listed T.said T.past N r.old.rest.now }
        ensures lasts { Lasts r.old r.new }
    {
        self.fill_within(N, r);
    }

    // As `fill_next`, with room for so many entries at most: how much room is left.
    pub fn fill_within(&mut self, room: usize, r: &mut Reader) -> usize
        ensures read { (self.new.count ≡ next_field_size (min room N) r.old.rest.now) × (r.new.rest.now ≡ past_next_list T.past (min room N) r.old.rest.now) }
        ensures entries { take self.new.count self.new.entries ≡ next_listed T.said T.past (min room N) r.old.rest.now }
        ensures left { result ≡ room - next_field_size (min room N) r.old.rest.now }
        ensures lasts { Lasts r.old r.new }
    {
        let n = r.next_size_field(room.min(self.entries.len()));
        r.next_each(&mut self.entries[..n]);
        self.count = n;
        room - n
    }
}

// A model that is read, in memory of its own.
#[derive(Drop)]
pub struct Model {
    shape: Shape,
    label_values: Column<u32, 2112>,
    offsets: Column<u32, 2112>,
    edge_labels: Column<u32, 2112>,
    edge_targets: Column<u32, 2112>,
    edge_weights: Column<f64, 2112>,
}

impl Reader<'_> {
    // A state, or `-` for none; a number of over 32 bits is state 0.
    #[tactic(auto, unfolding(crate::specs::Words::next_short))]
    pub fn next_initial_field(&mut self) -> Option<StateId>
        ensures read { (is_some result ≡ not (eqb (next_whole (past_word self.old.rest.now)) absent)) × IfSome result (λ s. s.0 ≡ next_short (past_word self.old.rest.now)) × (self.new.rest.now ≡ past_next_field self.old.rest.now) }
        ensures lasts { Lasts self.old self.new }
    {
        let x = self.next_number_field();
        if x == ABSENT {
            return None;
        }
        Some(StateId(u32::try_from(x).unwrap_or(0)))
    }

    pub fn next_shape(&mut self) -> Shape
        ensures read { (result.states ≡ next_whole (past_word self.old.rest.now)) × (result.edges ≡ next_whole (past_word (past_next_field self.old.rest.now))) × (result.labels ≡ next_whole (past_word (past_next_field (past_next_field self.old.rest.now))))
            × (self.new.rest.now ≡ past_next_field (past_next_field (past_next_field (past_next_field self.old.rest.now)))) }
        ensures initial { (is_some result.initial ≡ not (eqb (next_whole (past_word (past_next_field (past_next_field (past_next_field self.old.rest.now))))) absent)) × IfSome result.initial (λ s. s.0 ≡ next_short (past_word (past_next_field (past_next_field (past_next_field self.old.rest.now))))) }
        ensures lasts { Lasts self.old self.new }
    {
        Shape {
            states: self.next_number_field() as usize,
            edges: self.next_number_field() as usize,
            labels: self.next_number_field() as usize,
            initial: self.next_initial_field(),
        }
    }
}

impl Model {
    // No state, and columns without entries.
    pub fn new() -> Model
        ensures shape { result.shape ≡ record { states = 0; edges = 0; labels = 0; initial = None } }
        ensures lists { (result.label_values.count ≡ 0) × (result.offsets.count ≡ 0) × (result.edge_labels.count ≡ 0) × (result.edge_targets.count ≡ 0) × (result.edge_weights.count ≡ 0) }
    {
        Model {
            shape: Shape {
                states: 0,
                edges: 0,
                labels: 0,
                initial: None,
            },
            label_values: Column::new(),
            offsets: Column::new(),
            edge_labels: Column::new(),
            edge_targets: Column::new(),
            edge_weights: Column::new(),
        }
    }

    pub fn read(&mut self, r: &mut Reader)
        ensures read { (self.new.shape.states ≡ whole (field_word r.old.rest.now)) × (self.new.shape.edges ≡ whole (field_word (past_field r.old.rest.now))) × (self.new.shape.labels ≡ whole (field_word (past_field (past_field r.old.rest.now)))) }
        ensures initial { (is_some self.new.shape.initial ≡ is_some (whole_or_none (field_word (past_field (past_field (past_field r.old.rest.now)))))) × IfSome self.new.shape.initial (λ s. s.0 ≡ short (field_word (past_field (past_field (past_field r.old.rest.now))))) }
        ensures numbers { (take self.new.label_values.count self.new.label_values.entries ≡ listed short 2112 (list_at 0 r.old.rest.now)) × (take self.new.offsets.count self.new.offsets.entries ≡ listed short 2112 (list_at 1 r.old.rest.now))
            × (take self.new.edge_labels.count self.new.edge_labels.entries ≡ listed short 2112 (list_at 2 r.old.rest.now)) × (take self.new.edge_targets.count self.new.edge_targets.entries ≡ listed short 2112 (list_at 3 r.old.rest.now)) }
        ensures weights { take self.new.edge_weights.count self.new.edge_weights.entries ≡ listed real 2112 (list_at 4 r.old.rest.now) }
        ensures rest { r.new.rest.now ≡ list_at 5 r.old.rest.now }
        ensures lasts { Lasts r.old r.new }
    {
        self.shape = r.shape();
        self.label_values.fill(r);
        self.offsets.fill(r);
        self.edge_labels.fill(r);
        self.edge_targets.fill(r);
        self.edge_weights.fill(r);
    }

    // The same where a value need not be a whole word.
    pub fn read_next(&mut self, r: &mut Reader)
        ensures read { (self.new.shape.states ≡ next_whole (past_word r.old.rest.now)) × (self.new.shape.edges ≡ next_whole (past_word (past_next_field r.old.rest.now))) × (self.new.shape.labels ≡ next_whole (past_word (past_next_field (past_next_field r.old.rest.now)))) }
        ensures initial { (is_some self.new.shape.initial ≡ not (eqb (next_whole (past_word (past_next_field (past_next_field (past_next_field r.old.rest.now))))) absent)) × IfSome self.new.shape.initial (λ s. s.0 ≡ next_short (past_word (past_next_field (past_next_field (past_next_field r.old.rest.now))))) }
        ensures numbers { (take self.new.label_values.count self.new.label_values.entries ≡ next_listed next_short past_whole 2112 (next_list_at 0 r.old.rest.now)) × (take self.new.offsets.count self.new.offsets.entries ≡ next_listed next_short past_whole 2112 (next_list_at 1 r.old.rest.now))
            × (take self.new.edge_labels.count self.new.edge_labels.entries ≡ next_listed next_short past_whole 2112 (next_list_at 2 r.old.rest.now)) × (take self.new.edge_targets.count self.new.edge_targets.entries ≡ next_listed next_short past_whole 2112 (next_list_at 3 r.old.rest.now)) }
        ensures weights { take self.new.edge_weights.count self.new.edge_weights.entries ≡ next_listed next_real past_real 2112 (next_list_at 4 r.old.rest.now) }
        ensures rest { r.new.rest.now ≡ past_next_list past_real 2112 (next_list_at 4 r.old.rest.now) }
        ensures lasts { Lasts r.old r.new }
    {
        self.shape = r.next_shape();
        self.label_values.fill_next(r);
        self.offsets.fill_next(r);
        self.edge_labels.fill_next(r);
        self.edge_targets.fill_next(r);
        self.edge_weights.fill_next(r);
    }

    // As `read_next`, where the columns of whole numbers have room for so many entries together, and the weights for so many: how much room is left behind these.
    pub fn read_within(&mut self, numbers: usize, weights: usize, r: &mut Reader) -> usize
        ensures read { (self.new.shape.states ≡ next_whole (past_word r.old.rest.now)) × (self.new.shape.edges ≡ next_whole (past_word (past_next_field r.old.rest.now))) × (self.new.shape.labels ≡ next_whole (past_word (past_next_field (past_next_field r.old.rest.now)))) }
        ensures initial { (is_some self.new.shape.initial ≡ not (eqb (next_whole (past_word (past_next_field (past_next_field (past_next_field r.old.rest.now))))) absent)) × IfSome self.new.shape.initial (λ s. s.0 ≡ next_short (past_word (past_next_field (past_next_field (past_next_field r.old.rest.now))))) }
        ensures numbers { (take self.new.label_values.count self.new.label_values.entries ≡ list_within 0 numbers (next_list_at 0 r.old.rest.now)) × (take self.new.offsets.count self.new.offsets.entries ≡ list_within 1 numbers (next_list_at 0 r.old.rest.now))
            × (take self.new.edge_labels.count self.new.edge_labels.entries ≡ list_within 2 numbers (next_list_at 0 r.old.rest.now)) × (take self.new.edge_targets.count self.new.edge_targets.entries ≡ list_within 3 numbers (next_list_at 0 r.old.rest.now)) }
        ensures weights { take self.new.edge_weights.count self.new.edge_weights.entries ≡ next_listed next_real past_real (min weights 2112) (within_at 4 numbers (next_list_at 0 r.old.rest.now)) }
        ensures rest { r.new.rest.now ≡ past_next_list past_real (min weights 2112) (within_at 4 numbers (next_list_at 0 r.old.rest.now)) }
        ensures left { result ≡ weights - next_field_size (min weights 2112) (within_at 4 numbers (next_list_at 0 r.old.rest.now)) }
        ensures lasts { Lasts r.old r.new }
    {
        self.shape = r.next_shape();
        let room = self.label_values.fill_within(numbers, r);
        let room = self.offsets.fill_within(room, r);
        let room = self.edge_labels.fill_within(room, r);
        self.edge_targets.fill_within(room, r);
        self.edge_weights.fill_within(weights, r)
    }

    pub fn lent<'a>(&'a self) -> Wlts<'a>
        ensures { (result.shape ≡ self.now.shape) × (result.label_values.now ≡ take self.now.label_values.count self.now.label_values.entries) × (result.offsets.now ≡ take self.now.offsets.count self.now.offsets.entries)
            × (result.edge_labels.now ≡ take self.now.edge_labels.count self.now.edge_labels.entries) × (result.edge_targets.now ≡ take self.now.edge_targets.count self.now.edge_targets.entries) × (result.edge_weights.now ≡ take self.now.edge_weights.count self.now.edge_weights.entries) }
    {
        Wlts {
            shape: self.shape,
            label_values: self.label_values.read(),
            offsets: self.offsets.read(),
            edge_labels: self.edge_labels.read(),
            edge_targets: self.edge_targets.read(),
            edge_weights: self.edge_weights.read(),
        }
    }
}
