// What is asked beside two chains or two models: the goal, and how much is lent.
ghost use Rattle.replay_text.specs.Reading.{Lasts};

use distance_theory::{Goal, MetricOptions};
use replay_text::text::Reader;

pub fn read(r: &mut Reader) -> Goal
    ensures { Lasts r.old r.new }
{
    Goal {
        gamma: r.next_real_field(),
        options: MetricOptions {
            tolerance: r.next_real_field(),
            max_rounds: r.next_number_field() as usize,
            top: r.next_number_field() as usize,
        },
    }
}

// How many entries of each list are lent for a run, and how many records.
#[derive(Clone, Copy, Debug)]
pub struct Rooms {
    pub lefts: usize,
    pub rights: usize,
    pub codes: usize,
    pub places: usize,
    pub masses: usize,
    pub records: usize,
}

// How many entries of each list are lent for a chain: the first four of six counts.
#[derive(Clone, Copy, Debug)]
pub struct ChainRooms {
    pub offsets: usize,
    pub targets: usize,
    pub probs: usize,
    pub seen: usize,
}

// Up to six counts, and zeros behind them.
fn counts(r: &mut Reader) -> [usize; 6]
    ensures { Lasts r.old r.new }
{
    let mut counts = [0u32; 6];
    r.next_list_field(&mut counts);
    counts.map(|n| n as usize)
}

pub fn read_rooms(r: &mut Reader) -> Rooms
    ensures { Lasts r.old r.new }
{
    let [lefts, rights, codes, places, masses, records] = counts(r);
    Rooms {
        lefts,
        rights,
        codes,
        places,
        masses,
        records,
    }
}

pub fn read_chain_rooms(r: &mut Reader) -> ChainRooms
    ensures { Lasts r.old r.new }
{
    let [offsets, targets, probs, seen, ..] = counts(r);
    ChainRooms {
        offsets,
        targets,
        probs,
        seen,
    }
}
