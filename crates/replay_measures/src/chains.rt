// A chain in the text, with its observations.
ghost use Rattle.std.specs.Prelude.{◌≡◌, ◌+◌, ◌≤◌, length, min, replicate};
ghost use Rattle.numbers.specs.Real.{nought};
ghost use Rattle.replay_text.specs.Reading.{Lasts};
ghost use Rattle.replay_measures.specs.Marks.{mark};

use crate::asked::ChainRooms;
use crate::scratch::{expect_held, marked};
use bisim_core::ids::StateId;
use chain_theory::{ChainMut, ChainShape, ChainStore};
use replay_text::lists::{front, front_mut};
use replay_text::text::Reader;

fn read_shape(r: &mut Reader) -> ChainShape
    ensures { Lasts r.old r.new }
{
    ChainShape {
        states: r.next_number_field() as usize,
        entries: r.next_number_field() as usize,
        initial: StateId(r.next_short_field()),
    }
}

// Room for the lists of a chain.
#[derive(Drop)]
pub struct Store {
    pub offsets: [u32; 200],
    pub targets: [u32; 200],
    pub probs: [f64; 200],
    pub seen: [f64; 200],
}

impl Store {
    // All lists of zeros.
    pub fn new() -> Store
        ensures numbers { (result.offsets ≡ replicate 200 0) × (result.targets ≡ replicate 200 0) }
        ensures reals { (result.probs ≡ replicate 200 nought) × (result.seen ≡ replicate 200 nought) }
    {
        Store {
            offsets: [0; 200],
            targets: [0; 200],
            probs: [0.0; 200],
            seen: [0.0; 200],
        }
    }

    // Each list has room for 200 entries, and each value is a whole word.
    pub fn read<'a>(&'a mut self, r: &mut Reader) -> ChainMut<'a>
        ensures { Lasts r.old r.new }
    {
        let Store {
            offsets,
            targets,
            probs,
            seen,
        } = self;
        ChainMut {
            shape: ChainShape {
                states: r.number_field() as usize,
                entries: r.number_field() as usize,
                initial: StateId(r.short_field()),
            },
            offsets: r.list_field(offsets),
            targets: r.list_field(targets),
            probs: r.list_field(probs),
            observations: r.list_field(seen),
        }
    }

    // The same where a value need not be a whole word, with room for 200 entries of the lists of whole numbers together, and of the others.
    pub fn read_together<'a>(&'a mut self, r: &mut Reader) -> ChainMut<'a>
        ensures room { (length result.offsets.now + length result.targets.now ≤ 200) × (length result.probs.now + length result.observations.now ≤ 200) }
        ensures lasts { Lasts r.old r.new }
    {
        let Store {
            offsets,
            targets,
            probs,
            seen,
        } = self;
        let shape = read_shape(r);
        let offsets = r.next_list_field(offsets);
        let targets = r.next_list_field(front_mut(targets, 200 - offsets.len()));
        let probs = r.next_list_field(probs);
        let observations = r.next_list_field(front_mut(seen, 200 - probs.len()));
        ChainMut {
            shape,
            offsets,
            targets,
            probs,
            observations,
        }
    }

    // As `read_together`, with room for 100 entries of each list.
    pub fn read_apart<'a>(&'a mut self, r: &mut Reader) -> ChainMut<'a>
        ensures room { (length result.offsets.now ≤ 100) × (length result.targets.now ≤ 100) × (length result.probs.now ≤ 100) × (length result.observations.now ≤ 100) }
        ensures lasts { Lasts r.old r.new }
    {
        let Store {
            offsets,
            targets,
            probs,
            seen,
        } = self;
        ChainMut {
            shape: read_shape(r),
            offsets: r.next_list_field(&mut offsets[..100]),
            targets: r.next_list_field(&mut targets[..100]),
            probs: r.next_list_field(&mut probs[..100]),
            observations: r.next_list_field(&mut seen[..100]),
        }
    }

    // All lists marked, so many entries of each.
    pub fn lend<'a>(&'a mut self, rooms: ChainRooms) -> ChainStore<'a>
        ensures numbers { (result.offsets.now ≡ replicate (min rooms.offsets 200) 77) × (result.targets.now ≡ replicate (min rooms.targets 200) 77) }
        ensures reals { (result.probs.now ≡ replicate (min rooms.probs 200) mark) × (result.observations.now ≡ replicate (min rooms.seen 200) mark) }
    {
        let Store {
            offsets,
            targets,
            probs,
            seen,
        } = self;
        ChainStore {
            offsets: marked(front_mut(offsets, rooms.offsets)),
            targets: marked(front_mut(targets, rooms.targets)),
            probs: marked(front_mut(probs, rooms.probs)),
            observations: marked(front_mut(seen, rooms.seen)),
        }
    }

    // What the lists hold, where they were lent.
    pub fn expect(&self, r: &mut Reader, rooms: ChainRooms)
        ensures { Lasts r.old r.new }
    {
        expect_held(r, front(&self.offsets, rooms.offsets));
        expect_held(r, front(&self.targets, rooms.targets));
        expect_held(r, front(&self.probs, rooms.probs));
        expect_held(r, front(&self.seen, rooms.seen));
    }
}
