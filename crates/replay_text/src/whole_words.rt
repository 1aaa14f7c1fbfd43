// Values that are whole words: a word that is none is a fault, and is passed.
ghost use Rattle.std.specs.Prelude.{◌≡◌, ◌≢◌, ◌≤◌, true, false, length, is_some, IfSome};
ghost use Rattle.replay_text.specs.Reading.{Lasts};
ghost use Rattle.replay_text.specs.Tally.{Counted, other_tallied, closed};
ghost use Rattle.replay_text.specs.Words.{digits, first_word, past_word, whole, whole_or_none, short, real, values, behind as beyond, field_word, field_size, past_field, listed, past_list};

use crate::lists::front_mut;
use crate::tally::Counts;
use crate::text::{Reader, of_bits, with_digit};
use crate::values::Entry;
use bisim_core::ids::StateId;
use bisim_core::wlts::Shape;

// The number that digits make; none where one is no digit, or the number has over 64 bits.
// Stays: `u64::from_str_radix` takes a sign and capitals too, with which no number of a case is written, and a text in place of bytes.
fn parsed(bytes: &[u8], base: u64) -> Option<u64>
    ensures { result ≡ digits base bytes.now }
{
    let mut x = 0u64;
    for b in bytes {
        x = with_digit(x, *b, base)?;
    }
    Some(x)
}

impl<'a> Reader<'a> {
    // A whole number, or `-` for none.
    #[tactic(auto, unfolding(crate::specs::Words::whole_or_none))]
    pub(crate) fn number_or_none(&mut self) -> Option<u64>
        ensures read { (result ≡ whole_or_none (first_word self.old.rest.now)) × (self.new.rest.now ≡ past_word self.old.rest.now) }
        ensures lasts { Lasts self.old self.new }
    {
        match self.word() {
            b"-" => None,
            word => Some(self.found(parsed(word, 10))),
        }
    }

    // A whole number.
    #[tactic(auto, unfolding(crate::specs::Words::whole))]
    pub(crate) fn number(&mut self) -> u64
        ensures read { (result ≡ whole (first_word self.old.rest.now)) × (self.new.rest.now ≡ past_word self.old.rest.now) }
        ensures lasts { Lasts self.old self.new }
    {
        let x = self.number_or_none();
        self.found(x)
    }

    // The 16 hexadecimal digits of a bit pattern.
    #[tactic(auto, unfolding(crate::specs::Words::real))]
    pub(crate) fn real(&mut self) -> f64
        ensures read { (result ≡ real (first_word self.old.rest.now)) × (self.new.rest.now ≡ past_word self.old.rest.now) }
        ensures lasts { Lasts self.old self.new }
    {
        let word = self.word();
        let bits = if word.len() == 16 {
            parsed(word, 16)
        } else {
            None
        };
        of_bits(self.found(bits))
    }

    // A number of 32 bits: anything else is a fault.
    #[tactic(auto, unfolding(crate::specs::Words::short))]
    pub(crate) fn short(&mut self) -> u32
        ensures read { (result ≡ short (first_word self.old.rest.now)) × (self.new.rest.now ≡ past_word self.old.rest.now) }
        ensures lasts { Lasts self.old self.new }
    {
        let x = self.number();
        self.found(u32::try_from(x).ok())
    }

    // ---- fields: a name, which need not be looked at, and what follows it

    pub fn number_field(&mut self) -> u64
        ensures read { (result ≡ whole (first_word (past_word self.old.rest.now))) × (self.new.rest.now ≡ past_word (past_word self.old.rest.now)) }
        ensures lasts { Lasts self.old self.new }
    {
        self.name();
        self.number()
    }

    pub fn short_field(&mut self) -> u32
        ensures read { (result ≡ short (first_word (past_word self.old.rest.now))) × (self.new.rest.now ≡ past_word (past_word self.old.rest.now)) }
        ensures lasts { Lasts self.old self.new }
    {
        self.name();
        self.short()
    }

    pub fn real_field(&mut self) -> f64
        ensures read { (result ≡ real (first_word (past_word self.old.rest.now))) × (self.new.rest.now ≡ past_word (past_word self.old.rest.now)) }
        ensures lasts { Lasts self.old self.new }
    {
        self.name();
        self.real()
    }

    // How many entries there are; more than there is room for is a fault, and 0.
    #[tactic(auto, unfolding(crate::specs::Words::field_size))]
    pub fn size_field(&mut self, room: usize) -> usize
        ensures read { (result ≡ field_size room self.old.rest.now) × (self.new.rest.now ≡ past_word (past_word self.old.rest.now)) }
        ensures room { result ≤ room }
        ensures lasts { Lasts self.old self.new }
    {
        let n = self.number_field() as usize;
        self.found(Some(n).filter(|n| *n <= room))
    }

    // The entries of a list, one behind the other.
    pub(crate) fn read_each<T: Entry>(&mut self, list: &mut [T])
        ensures read { (list.new ≡ values (λ t. T.said (first_word t)) past_word (length list.old) self.old.rest.now) × (self.new.rest.now ≡ beyond past_word (length list.old) self.old.rest.now) }
        ensures lasts { Lasts self.old self.new }
    {
        for entry in list.iter_mut() {
            *entry = T::read(self);
        }
    }

    // A list of entries, which goes to the front of `out`: that front.
    pub fn list_field<'b, T: Entry>(&mut self, out: &'b mut [T]) -> &'b mut [T]
        ensures read { (result.now ≡ listed T.said (length out.old) self.old.rest.now) × (self.new.rest.now ≡ past_list (length out.old) self.old.rest.now) }
        ensures room { length result.now ≤ length out.old }
        ensures lasts { Lasts self.old self.new }
    {
        let n = self.size_field(out.len());
        let list = front_mut(out, n);
        self.read_each(list);
        list
    }

    // A state, or `-` for none.
    #[tactic(auto, unfolding(crate::specs::Words::short, crate::specs::Words::whole))]
    pub fn initial_field(&mut self) -> Option<StateId>
        ensures read { (is_some result ≡ is_some (whole_or_none (field_word self.old.rest.now))) × IfSome result (λ s. s.0 ≡ short (field_word self.old.rest.now)) × (self.new.rest.now ≡ past_field self.old.rest.now) }
        ensures lasts { Lasts self.old self.new }
    {
        self.name();
        let x = self.number_or_none()?;
        Some(StateId(self.found(u32::try_from(x).ok())))
    }

    pub fn shape(&mut self) -> Shape
        ensures read { (result.states ≡ whole (field_word self.old.rest.now)) × (result.edges ≡ whole (field_word (past_field self.old.rest.now))) × (result.labels ≡ whole (field_word (past_field (past_field self.old.rest.now))))
            × (self.new.rest.now ≡ past_field (past_field (past_field (past_field self.old.rest.now)))) }
        ensures initial { (is_some result.initial ≡ is_some (whole_or_none (field_word (past_field (past_field (past_field self.old.rest.now)))))) × IfSome result.initial (λ s. s.0 ≡ short (field_word (past_field (past_field (past_field self.old.rest.now))))) }
        ensures lasts { Lasts self.old self.new }
    {
        Shape {
            states: self.number_field() as usize,
            edges: self.number_field() as usize,
            labels: self.number_field() as usize,
            initial: self.initial_field(),
        }
    }

    // ---- a case that is cut out beforehand

    // The kind of a case, which its first line says.
    pub fn kind(&mut self) -> &'a [u8]
        ensures read { (result.now ≡ field_word self.old.rest.now) × (self.new.rest.now ≡ past_field self.old.rest.now) }
        ensures lasts { Lasts self.old self.new }
    {
        self.name(); // `case`
        self.word()
    }

    // Whether a case is of this kind; one of another kind is counted.
    pub fn is_kind(&mut self, kind: &[u8]) -> bool
        ensures rest { self.new.rest.now ≡ past_field self.old.rest.now }
        ensures known { result ≡ true → (field_word self.old.rest.now ≡ kind.now) × Lasts self.old self.new }
        ensures other { result ≡ false → (field_word self.old.rest.now ≢ kind.now) × (self.new.counts ≡ other_tallied self.old.counts) × Counted self.old self.new }
    {
        if self.kind() == kind {
            return true;
        }
        self.unknown();
        false
    }

    // The counts once a case has ended: where it is as laid out so far, more text is one difference.
    pub fn end(&self) -> Counts
        ensures { result ≡ closed self.now }
    {
        let mut counts = self.counts;
        if !self.faulty && !self.at_end() {
            counts.count_other();
        }
        counts
    }
}
