// The rows of jumps that flow tests read.
ghost use Rattle.std.specs.Prelude.{◌≡◌, ◌≤◌, ◌+◌, ◌*◌, ◌%◌};
ghost use Rattle.numbers.specs.Bits.{bit_at};

use numbers::bit;

// The rows of as many states as there are exit rates: the exit rate of each, and its jumps at starts[s]..starts[s + 1] of targets and probs.
#[derive(Clone, Copy, Debug)]
pub struct Rows<'a> {
    pub exits: &'a [f64],
    pub starts: &'a [u32],
    pub targets: &'a [u32],
    pub probs: &'a [f64],
}

// One row: a target and a rate for each jump.
// Stays: `Row` of chain_theory has a target and a number for each too, but neither crate stands on the other, and what each tests of its row differs: here at most 31 rates from 0 to 2^40, there probabilities.
#[derive(Clone, Copy, Debug)]
pub struct Row<'a> {
    pub targets: &'a [u32],
    pub rates: &'a [f64],
}

// A flow test between two rows against a relation over so many states: bit u * states + v of it says whether v is related with u.
#[derive(Clone, Copy, Debug)]
pub struct Test<'a> {
    pub left: Row<'a>,
    pub right: Row<'a>,
    pub states: usize,
    pub relation: &'a [u8],
}

impl<'a> Test<'a> {
    // Whether state v is related with state u, by their numbers: the bit u * states + v, counted modulo 2^64. Where v is past the last state that is the bit of another pair; past the relation's end none is set.
    pub fn related(&self, u: u32, v: u32) -> bool
        ensures every { result ≡ bit_at self.now.relation.now ((u * self.now.states + v) % 18446744073709551616) }
        ensures bit { self.now.states ≤ 2000 → result ≡ bit_at self.now.relation.now (u * self.now.states + v) }
    {
        let row = (u as usize).wrapping_mul(self.states);
        bit(self.relation, row.wrapping_add(v as usize))
    }

    // The test back, from the right row to the left one.
    pub fn back(&self) -> Test<'a>
        ensures { (result.left ≡ self.now.right) × (result.right ≡ self.now.left) × (result.states ≡ self.now.states) × (result.relation ≡ self.now.relation) }
    {
        Test {
            left: self.right,
            right: self.left,
            ..*self
        }
    }
}
