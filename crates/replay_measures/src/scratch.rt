// The scratch that is lent: filled with marks before a call, and looked at after it.
ghost use Rattle.std.specs.Prelude.{◌≡◌, min, length, replicate};
ghost use Rattle.numbers.specs.Real.{nought};
ghost use Rattle.replay_text.specs.Reading.{Lasts};
ghost use Rattle.replay_measures.specs.Marks.{mark};

use crate::asked::Rooms;
use distance_theory::lent::Scratch;
use replay_text::lists::{all_are, front, front_mut};
use replay_text::text::Reader;
use replay_text::values::Value;

const MARK: u32 = 77;

const CODE_MARK: u64 = 7777;

const REAL_MARK: f64 = 7.5;

// A number with a mark, which stands for what a list held before it was lent.
pub trait Mark: Value + Copy + PartialEq {
    ghost marked: { Self };

    fn mark() -> Self
        ensures { result ≡ marked };
}

impl Mark for u32 {
    ghost marked = { 77 };

    fn mark() -> u32 {
        MARK
    }
}

impl Mark for u64 {
    ghost marked = { 7777 };

    fn mark() -> u64 {
        CODE_MARK
    }
}

impl Mark for f64 {
    ghost marked = { mark };

    fn mark() -> f64 {
        REAL_MARK
    }
}

// What a list holds, by its number in the text. A list of no entries holds its marks.
#[derive(Clone, Copy)]
enum Holding {
    Marks = 0,
    Zeros = 1,
    Others = 2,
}

// The list, each entry marked.
pub(crate) fn marked<'a, T: Mark>(xs: &'a mut [T]) -> &'a mut [T]
    requires infallible { T.Clone.is_infallible T.marked }
    requires exact { (y : _) → T.Clone.is_clone T.marked y → y ≡ T.marked }
    ensures { result.now ≡ replicate (length xs.old) T.marked }
{
    xs.fill(T::mark());
    xs
}

// What a list that was marked holds.
fn held<T: Mark>(xs: &[T]) -> Holding {
    if all_are(xs, T::mark()) {
        Holding::Marks
    } else if all_are(xs, T::zero()) {
        Holding::Zeros
    } else {
        Holding::Others
    }
}

// What a list that was lent holds is as stored.
pub(crate) fn expect_held<T: Mark>(r: &mut Reader, xs: &[T])
    ensures { Lasts r.old r.new }
{
    r.expect(held(xs) as u32);
}

// The line begins: its name, and how many lists there are.
pub fn expect_lists(r: &mut Reader, n: u64)
    ensures { Lasts r.old r.new }
{
    r.name();
    r.expect(n);
}

// It ends with the records behind the contributions, which are kept; no row of records is lent here.
pub fn expect_kept(r: &mut Reader)
    ensures { Lasts r.old r.new }
{
    r.expect(0u64);
}

// Room for the lists that are lent for a run.
#[derive(Drop)]
pub struct Lists {
    lefts: [u32; 4200],
    rights: [u32; 4200],
    codes: [u64; 4200],
    places: [u32; 4200],
    masses: [f64; 4200],
}

impl Lists {
    // All lists of zeros.
    pub fn new() -> Lists
        ensures numbers { (result.lefts ≡ replicate 4200 0) × (result.rights ≡ replicate 4200 0) × (result.places ≡ replicate 4200 0) }
        ensures codes { result.codes ≡ replicate 4200 0 }
        ensures reals { result.masses ≡ replicate 4200 nought }
    {
        Lists {
            lefts: [0; 4200],
            rights: [0; 4200],
            codes: [0; 4200],
            places: [0; 4200],
            masses: [0.0; 4200],
        }
    }

    // All marked, so many entries of each.
    pub fn lend<'a>(&'a mut self, rooms: Rooms) -> Scratch<'a>
        ensures numbers { (result.lefts.now ≡ replicate (min rooms.lefts 4200) 77) × (result.rights.now ≡ replicate (min rooms.rights 4200) 77) × (result.places.now ≡ replicate (min rooms.places 4200) 77) }
        ensures codes { result.codes.now ≡ replicate (min rooms.codes 4200) 7777 }
        ensures reals { result.masses.now ≡ replicate (min rooms.masses 4200) mark }
    {
        let Lists {
            lefts,
            rights,
            codes,
            places,
            masses,
        } = self;
        Scratch {
            lefts: marked(front_mut(lefts, rooms.lefts)),
            rights: marked(front_mut(rights, rooms.rights)),
            codes: marked(front_mut(codes, rooms.codes)),
            places: marked(front_mut(places, rooms.places)),
            masses: marked(front_mut(masses, rooms.masses)),
        }
    }

    // What they hold.
    pub fn expect(&self, r: &mut Reader, rooms: Rooms)
        ensures { Lasts r.old r.new }
    {
        expect_held(r, front(&self.lefts, rooms.lefts));
        expect_held(r, front(&self.rights, rooms.rights));
        expect_held(r, front(&self.codes, rooms.codes));
        expect_held(r, front(&self.places, rooms.places));
        expect_held(r, front(&self.masses, rooms.masses));
    }
}
