// Lists in the text: a name, a count, and so many values.
ghost use Rattle.std.specs.Prelude.{◌≡◌, ◌≤◌, length, take, drop};
ghost use Rattle.std.specs.List.{list_all};
ghost use Rattle.replay_text.specs.Reading.{Lasts};
ghost use Rattle.replay_text.specs.Words.{values, behind as beyond, next_field_size, past_next_field, next_listed, past_next_list};

use crate::text::Reader;
use crate::values::{NextEntry, Value};

// The first n entries; all where there are fewer.
// Stays: cut by each caller it would be this line at each, since `&xs[..n]` stops where n is past the end.
pub fn front<'a, T>(xs: &'a [T], n: usize) -> &'a [T]
    ensures { result.now ≡ take n xs.now }
{
    xs.get(..n).unwrap_or(xs)
}

// The same of a list that is lent.
// Stays: as `front`.
pub fn front_mut<'a, T>(xs: &'a mut [T], n: usize) -> &'a mut [T]
    ensures { result.now ≡ take n xs.old }
{
    let end = n.min(xs.len());
    &mut xs[..end]
}

// What stands behind the first n entries; nothing where there are fewer.
// Stays: as `front`.
pub fn behind<'a, T>(xs: &'a [T], n: usize) -> &'a [T]
    ensures { result.now ≡ drop n xs.now }
{
    xs.get(n..).unwrap_or(&[])
}

// Each entry is x.
pub fn all_are<T: Copy + PartialEq>(xs: &[T], x: T) -> bool
    ensures { result ≡ list_all (λ y. T.eq y x) xs.now }
{
    xs.iter().all(|y| *y == x)
}

impl Reader<'_> {
    // How many entries there are; more than there is room for is a fault, and 0.
    #[tactic(auto, unfolding(crate::specs::Words::next_field_size))]
    pub fn next_size_field(&mut self, room: usize) -> usize
        ensures read { (result ≡ next_field_size room self.old.rest.now) × (self.new.rest.now ≡ past_next_field self.old.rest.now) }
        ensures room { result ≤ room }
        ensures lasts { Lasts self.old self.new }
    {
        let n = self.next_number_field() as usize;
        self.found(Some(n).filter(|n| *n <= room))
    }

    // The entries of a list, one behind the other.
    pub(crate) fn next_each<T: NextEntry>(&mut self, list: &mut [T])
        ensures read { (list.new ≡ values T.said T.past (length list.old) self.old.rest.now) × (self.new.rest.now ≡ beyond T.past (length list.old) self.old.rest.now) }
        ensures lasts { Lasts self.old self.new }
    {
        for entry in list.iter_mut() {
            *entry = T::read_next(self);
        }
    }

    // A list of entries, which goes to the front of `out`: that front.
    pub fn next_list_field<'b, T: NextEntry>(&mut self, out: &'b mut [T]) -> &'b mut [T]
        ensures read { (result.now ≡ next_listed T.said T.past (length out.old) self.old.rest.now) × (self.new.rest.now ≡ past_next_list T.past (length out.old) self.old.rest.now) }
        ensures room { length result.now ≤ length out.old }
        ensures lasts { Lasts self.old self.new }
    {
        let n = self.next_size_field(out.len());
        let list = front_mut(out, n);
        self.next_each(list);
        list
    }

    // The list stored is the list given.
    pub fn expect_list<T: Value + Copy>(&mut self, xs: &[T])
        ensures { Lasts self.old self.new }
    {
        self.name();
        self.expect(xs.len());
        for x in xs {
            self.expect(*x);
        }
    }
}
