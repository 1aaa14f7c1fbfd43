// The text of cases: words and numbers between single blanks and line feeds.
ghost use Rattle.std.specs.Prelude.{◌≡◌, true, false, ◌<◌, ◌&&◌, not, cond, eqb, length, drop, IfSome, IfNone, Some};
ghost use Rattle.replay_text.specs.Words.{in_word, digit_of, grown, next_digits, float_of, past, word_size, first_word, past_word, begins_absent, next_whole, past_whole, next_short, next_real, past_bits, past_real};
ghost use Rattle.replay_text.specs.Reading.{Placed, Kept, Lasts, same};
ghost use Rattle.replay_text.specs.Tally.{Ready, agrees as agreed, tallied, other_tallied, closed_in_line};

use crate::lists::front;
use crate::tally::Counts;
use crate::values::Value;

// Stands for an absent number, which is written `-`.
pub(crate) const ABSENT: u64 = 0xffff_ffff_ffff_ffff;

// What is still to come of a text, how its case has gone so far, and what has been counted.
#[derive(Clone, Copy)]
pub struct Reader<'a> {
    pub rest: &'a [u8],
    pub faulty: bool, // the text has not been as laid out
    pub differs: bool, // an answer since the last count is not the one stored
    pub counts: Counts,
}

fn within_word(b: u8) -> bool
    ensures { result ≡ in_word b }
{
    b != b'\n' && b != b' '
}

// The digit that a byte is, to that base.
// Stays: `char::to_digit` takes capitals too, with which no number of a case is written, and wants of each caller a base from 2 to 36.
#[tactic(auto, unfolding(crate::specs::Words::digit_of))]
pub(crate) fn digit(b: u8, base: u64) -> Option<u64>
    ensures below { IfSome result (λ x. x < base) }
    ensures read { result ≡ digit_of base b }
{
    let x = match b {
        b'0'..=b'9' => u64::from(b - b'0'),
        b'a'..=b'f' => u64::from(b - b'a') + 10,
        _ => return None,
    };
    (x < base).then_some(x)
}

// A number with a digit more; none where it is no digit, or the number has over 64 bits.
pub(crate) fn with_digit(x: u64, b: u8, base: u64) -> Option<u64>
    ensures { result ≡ grown base (Some x) (digit_of base b) }
{
    x.checked_mul(base)?.checked_add(digit(b, base)?)
}

// The bit of the sign, and the bits of infinity: what is above them, the sign apart, is a NaN's.
const SIGN: u64 = 0x8000_0000_0000_0000;

const INFINITY: u64 = 0x7ff0_0000_0000_0000;

// The number that has these bits.
#[tactic(auto, unfolding(crate::specs::Words::float_of))]
pub(crate) fn of_bits(bits: u64) -> f64
    ensures { result ≡ float_of bits }
{
    if bits % SIGN > INFINITY {
        return f64::NAN;
    }
    f64::from_bits(bits)
}

// Two zeros are the same, and so are two NaNs; otherwise the bits are.
pub fn alike(x: f64, y: f64) -> bool
    ensures { result ≡ same x y }
{
    x == y || (x.is_nan() && y.is_nan())
}

impl<'a> Reader<'a> {
    pub fn new(text: &'a [u8], counts: Counts) -> Reader<'a>
        ensures { (result.rest.now ≡ text.now) × (result.faulty ≡ false) × (result.differs ≡ false) × (result.counts ≡ counts) }
    {
        Reader {
            rest: text,
            faulty: false,
            differs: false,
            counts,
        }
    }

    // The text is not as laid out.
    pub fn fault(&mut self)
        ensures { (self.new.rest ≡ self.old.rest) × (self.new.faulty ≡ true) × Lasts self.old self.new }
    {
        self.faulty = true;
    }

    // An answer is the stored one, or differs.
    // Stays: the bool is what a comparison has found, and picks no body.
    pub fn compared(&mut self, agrees: bool)
        ensures { (self.new.rest ≡ self.old.rest) × (agrees ≡ false → self.new.differs ≡ true) × Lasts self.old self.new }
    {
        self.differs |= !agrees;
    }

    // The answer is counted: the next has no differences so far.
    fn settle(&mut self)
        ensures { Placed self.old self.new × (self.new.faulty ≡ self.old.faulty) × (self.new.differs ≡ false) }
    {
        self.differs = false;
    }

    pub fn at_end(&self) -> bool
        ensures { result ≡ eqb (length self.now.rest.now) 0 }
    {
        self.rest.is_empty()
    }

    // The next byte, which is passed.
    pub(crate) fn advance(&mut self) -> Option<u8>
        ensures { (self.new.rest.now ≡ drop 1 self.old.rest.now) × Kept self.old self.new }
    {
        let (first, rest) = self.rest.split_first()?;
        self.rest = rest;
        Some(*first)
    }

    // A word of `size` bytes has ended: what follows it is passed.
    #[tactic(auto, unfolding(crate::specs::Words::past))]
    pub(crate) fn ended(&mut self, size: usize)
        ensures read { self.new.rest.now ≡ past size self.old.rest.now }
        ensures lasts { Lasts self.old self.new }
    {
        if size == 0 || self.rest.first().is_some_and(|b| within_word(*b)) {
            self.fault();
            return;
        }
        self.advance();
    }

    // The bytes of a word, at most 32: what ends it is still to come.
    fn letters(&mut self) -> &'a [u8]
        ensures read { (result.now ≡ first_word self.old.rest.now) × (self.new.rest.now ≡ drop (word_size self.old.rest.now) self.old.rest.now) }
        ensures size { length result.now ≡ word_size self.old.rest.now }
        ensures lasts { Lasts self.old self.new }
    {
        let text = self.rest;
        let room = front(text, 32);
        let size = room
            .iter()
            .position(|b| !within_word(*b))
            .unwrap_or(room.len());
        let (word, rest) = text.split_at(size);
        self.rest = rest;
        word
    }

    // A word of at most 32 bytes.
    pub fn word(&mut self) -> &'a [u8]
        ensures read { (result.now ≡ first_word self.old.rest.now) × (self.new.rest.now ≡ past_word self.old.rest.now) }
        ensures lasts { Lasts self.old self.new }
    {
        let word = self.letters();
        self.ended(word.len());
        word
    }

    // A word that need not be looked at.
    pub fn name(&mut self)
        ensures read { self.new.rest.now ≡ past_word self.old.rest.now }
        ensures lasts { Lasts self.old self.new }
    {
        self.word();
    }

    // What is read; 0 and a fault where there is nothing.
    pub(crate) fn found<T: Default>(&mut self, x: Option<T>) -> T
        ensures read { (self.new.rest ≡ self.old.rest) × IfSome x (λ y. result ≡ y) × IfNone x (T.is_default result) }
        ensures lasts { Lasts self.old self.new }
    {
        match x {
            Some(x) => x,
            None => {
                self.fault();
                T::default()
            }
        }
    }

    // ---- a value is what a text goes on with, as far as it can be read

    // The number that the bytes of a word make. A byte that is no digit, or a number of over 64 bits, is a fault, and the number begins anew behind it.
    // Stays: `u64::from_str_radix` takes a sign and capitals too, with which no number of a case is written, and a text in place of bytes.
    fn digits(&mut self, word: &[u8], base: u64) -> u64
        ensures read { (result ≡ next_digits base word.now) × (self.new.rest ≡ self.old.rest) }
        ensures lasts { Lasts self.old self.new }
    {
        let mut x = 0;
        for b in word {
            x = self.found(with_digit(x, *b, base));
        }
        x
    }

    fn at_absent(&self) -> bool
        ensures { result ≡ begins_absent self.now.rest.now }
    {
        self.rest.first() == Some(&b'-')
    }

    // A whole number, or `-`, which is passed alone.
    #[tactic(auto, unfolding(crate::specs::Words::next_whole, crate::specs::Words::past_whole))]
    pub(crate) fn next_number(&mut self) -> u64
        ensures read { (result ≡ next_whole self.old.rest.now) × (self.new.rest.now ≡ past_whole self.old.rest.now) }
        ensures lasts { Lasts self.old self.new }
    {
        if self.at_absent() {
            self.advance();
            self.ended(1);
            return ABSENT;
        }
        let word = self.word();
        self.digits(word, 10)
    }

    // The digits of a bit pattern have ended, which are 16.
    #[tactic(auto, unfolding(crate::specs::Words::past_bits))]
    fn bits_ended(&mut self, size: usize)
        ensures read { self.new.rest.now ≡ past_bits size self.old.rest.now }
        ensures lasts { Lasts self.old self.new }
    {
        if size == 16 {
            self.ended(16);
        } else {
            self.fault();
        }
    }

    // The 16 hexadecimal digits of a bit pattern.
    #[tactic(auto, unfolding(crate::specs::Words::next_real))]
    pub(crate) fn next_real(&mut self) -> f64
        ensures read { (result ≡ next_real self.old.rest.now) × (self.new.rest.now ≡ past_real self.old.rest.now) }
        ensures lasts { Lasts self.old self.new }
    {
        let word = self.letters();
        let bits = self.digits(word, 16);
        self.bits_ended(word.len());
        of_bits(bits)
    }

    // A number of 32 bits: anything else is a fault.
    #[tactic(auto, unfolding(crate::specs::Words::next_short))]
    pub(crate) fn next_short(&mut self) -> u32
        ensures read { (result ≡ next_short self.old.rest.now) × (self.new.rest.now ≡ past_whole self.old.rest.now) }
        ensures lasts { Lasts self.old self.new }
    {
        let x = self.next_number();
        self.found(u32::try_from(x).ok())
    }

    // ---- fields: a name, which need not be looked at, and what follows it

    pub fn next_number_field(&mut self) -> u64
        ensures read { (result ≡ next_whole (past_word self.old.rest.now)) × (self.new.rest.now ≡ past_whole (past_word self.old.rest.now)) }
        ensures lasts { Lasts self.old self.new }
    {
        self.name();
        self.next_number()
    }

    pub fn next_short_field(&mut self) -> u32
        ensures read { (result ≡ next_short (past_word self.old.rest.now)) × (self.new.rest.now ≡ past_whole (past_word self.old.rest.now)) }
        ensures lasts { Lasts self.old self.new }
    {
        self.name();
        self.next_short()
    }

    pub fn next_real_field(&mut self) -> f64
        ensures read { (result ≡ next_real (past_word self.old.rest.now)) × (self.new.rest.now ≡ past_real (past_word self.old.rest.now)) }
        ensures lasts { Lasts self.old self.new }
    {
        self.name();
        self.next_real()
    }

    // ---- what is stored is compared with what came

    pub fn expect<T: Value>(&mut self, x: T)
        ensures { Lasts self.old self.new }
    {
        x.expect(self);
    }

    // ---- what is told is counted

    pub(crate) fn agrees(&self) -> bool
        ensures { result ≡ agreed self.now }
    {
        !self.faulty && !self.differs
    }

    // Counts an answer of an entry, and makes ready for the next.
    pub fn count(&mut self, entry: usize)
        ensures { (self.new.counts ≡ tallied self.old.counts entry (agreed self.old)) × Ready self.old self.new × (self.new.rest ≡ self.old.rest) }
    {
        let agrees = self.agrees();
        self.counts.count(entry, agrees);
        self.settle();
    }

    // A case that cannot be read.
    pub fn unknown(&mut self)
        ensures { (self.new.counts ≡ other_tallied self.old.counts) × Ready self.old self.new × (self.new.rest ≡ self.old.rest) }
    {
        self.counts.count_other();
        self.settle();
    }

    // The counts once a case has ended behind which others stand: where it is as laid out so far, more text in its line is one difference.
    pub fn end_in_line(&self) -> Counts
        ensures { result ≡ closed_in_line self.now }
    {
        let mut counts = self.counts;
        if !self.faulty && self.within_line() {
            counts.count_other();
        }
        counts
    }
}
