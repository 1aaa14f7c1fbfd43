// Values in the text.
ghost use Rattle.std.specs.Prelude.{◌≡◌, ℕ, List, Some, false};
ghost use Rattle.numbers.specs.Real.{nought};
ghost use Rattle.replay_text.specs.Reading.{Lasts};
ghost use Rattle.replay_text.specs.Words.{first_word, past_word, short, byte, real, next_short, next_byte, next_real, past_whole, past_real};

use crate::text;
use crate::text::Reader;
use bisim_core::ids::{LabelId, StateId};

// What an answer is made of. Each type has an impl of its own.
pub trait Value: Sized {
    // What stands for it on a refusal.
    ghost none: { Self };

    // Stays: one for all that are numbers (`impl<T: Into<u64>>`) would meet those of f64 and of an Option, and by `Default` an Option's would be None.
    fn zero() -> Self
        ensures { result ≡ none };

    // The one stored is this one.
    // Stays: as `zero`.
    fn expect(self, r: &mut Reader)
        ensures { Lasts r.old r.new };
}

// A value that lists are made of.
pub trait Entry: Value + Copy {
    // The one that a word says.
    ghost said: { List ℕ → Self };

    // One from the text.
    fn read(r: &mut Reader) -> Self
        ensures read { (result ≡ said (first_word r.old.rest.now)) × (r.new.rest.now ≡ past_word r.old.rest.now) }
        ensures lasts { Lasts r.old r.new };
}

// The same where a value need not be a whole word.
pub trait NextEntry: Value + Copy {
    // The one that a text begins with, and what stands behind it.
    ghost said: { List ℕ → Self };

    ghost past: { List ℕ → List ℕ };

    // One from the text.
    fn read_next(r: &mut Reader) -> Self
        ensures read { (result ≡ said r.old.rest.now) × (r.new.rest.now ≡ past r.old.rest.now) }
        ensures lasts { Lasts r.old r.new };
}

impl Value for () {
    ghost none = { tt };

    fn zero() -> () {
        ()
    }

    fn expect(self, r: &mut Reader) {
        r.compared(true);
    }
}

impl Value for u64 {
    ghost none = { 0 };

    fn zero() -> u64 {
        0
    }

    fn expect(self, r: &mut Reader) {
        let stored = r.next_number();
        r.compared(stored == self);
    }
}

impl Value for u32 {
    ghost none = { 0 };

    fn zero() -> u32 {
        0
    }

    fn expect(self, r: &mut Reader) {
        u64::from(self).expect(r);
    }
}

impl Value for u8 {
    ghost none = { 0 };

    fn zero() -> u8 {
        0
    }

    fn expect(self, r: &mut Reader) {
        u64::from(self).expect(r);
    }
}

impl Value for usize {
    ghost none = { 0 };

    fn zero() -> usize {
        0
    }

    fn expect(self, r: &mut Reader) {
        (self as u64).expect(r);
    }
}

// 1 where it holds.
impl Value for bool {
    ghost none = { false };

    fn zero() -> bool {
        false
    }

    fn expect(self, r: &mut Reader) {
        u64::from(self).expect(r);
    }
}

impl Value for f64 {
    ghost none = { nought };

    fn zero() -> f64 {
        0.0
    }

    fn expect(self, r: &mut Reader) {
        let stored = r.next_real();
        r.compared(text::alike(stored, self));
    }
}

impl Value for StateId {
    ghost none = { record { 0 = 0 } };

    fn zero() -> StateId {
        StateId(0)
    }

    fn expect(self, r: &mut Reader) {
        self.0.expect(r);
    }
}

impl Value for LabelId {
    ghost none = { record { 0 = 0 } };

    fn zero() -> LabelId {
        LabelId(0)
    }

    fn expect(self, r: &mut Reader) {
        self.0.expect(r);
    }
}

// None is written `-`.
impl<T: Value> Value for Option<T> {
    ghost none = { Some T.none };

    fn zero() -> Option<T> {
        Some(T::zero())
    }

    fn expect(self, r: &mut Reader) {
        match self {
            Some(x) => x.expect(r),
            None => text::ABSENT.expect(r),
        }
    }
}

impl<A: Value, B: Value> Value for (A, B) {
    ghost none = { (A.none, B.none) };

    fn zero() -> (A, B) {
        (A::zero(), B::zero())
    }

    fn expect(self, r: &mut Reader) {
        self.0.expect(r);
        self.1.expect(r);
    }
}

impl<A: Value, B: Value, C: Value> Value for (A, B, C) {
    ghost none = { (A.none, B.none, C.none) };

    fn zero() -> (A, B, C) {
        (A::zero(), B::zero(), C::zero())
    }

    fn expect(self, r: &mut Reader) {
        self.0.expect(r);
        self.1.expect(r);
        self.2.expect(r);
    }
}

impl Entry for u32 {
    ghost said = { short };

    fn read(r: &mut Reader) -> u32 {
        r.short()
    }
}

impl Entry for u8 {
    ghost said = { byte };

    #[tactic(auto, unfolding(crate::specs::Words::byte))]
    fn read(r: &mut Reader) -> u8 {
        let x = r.short();
        r.found(u8::try_from(x).ok())
    }
}

impl Entry for f64 {
    ghost said = { real };

    fn read(r: &mut Reader) -> f64 {
        r.real()
    }
}

impl NextEntry for u32 {
    ghost said = { next_short };

    ghost past = { past_whole };

    fn read_next(r: &mut Reader) -> u32 {
        r.next_short()
    }
}

// A number of over 8 bits is 0.
impl NextEntry for u8 {
    ghost said = { next_byte };

    ghost past = { past_whole };

    #[tactic(auto, unfolding(crate::specs::Words::next_byte))]
    fn read_next(r: &mut Reader) -> u8 {
        let x = r.next_short();
        u8::try_from(x).unwrap_or(0)
    }
}

impl NextEntry for f64 {
    ghost said = { next_real };

    ghost past = { past_real };

    fn read_next(r: &mut Reader) -> f64 {
        r.next_real()
    }
}
