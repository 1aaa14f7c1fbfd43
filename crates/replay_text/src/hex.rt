// Bytes in the text, written with two hexadecimal digits for each: a name, a count of bytes, and one word of digits; no word where there are none.
ghost use Rattle.std.specs.Prelude.{◌≡◌, ◌≤◌, ◌<◌, length};
ghost use Rattle.replay_text.specs.Reading.{Lasts};
ghost use Rattle.replay_text.specs.Words.{hex, past_hex, pair, past_pair, closed, bytes, past_bytes, next_bytes, past_next_bytes};

use crate::lists;
use crate::text::{Reader, digit};

impl Reader<'_> {
    // One digit; 0 and a fault where there is none.
    // Stays: a digit is passed only where there is one, so that by `found` there would be a test before it, whose two ways come together again.
    #[tactic(auto, unfolding(crate::specs::Words::hex, crate::specs::Words::past_hex, crate::specs::Words::digit_of))]
    fn hex_digit(&mut self) -> u64
        ensures read { (result ≡ hex self.old.rest.now) × (self.new.rest.now ≡ past_hex self.old.rest.now) }
        ensures below { result < 16 }
        ensures lasts { Lasts self.old self.new }
    {
        let Some(x) = self.rest.first().and_then(|b| digit(*b, 16)) else {
            self.fault();
            return 0;
        };
        self.advance();
        x
    }

    // A byte of two digits.
    fn pair(&mut self) -> u8
        ensures read { (result ≡ pair self.old.rest.now) × (self.new.rest.now ≡ past_pair self.old.rest.now) }
        ensures lasts { Lasts self.old self.new }
    {
        let high = self.hex_digit();
        let low = self.hex_digit();
        (high * 16 + low) as u8
    }

    // The word of n bytes has ended: what follows it is passed.
    #[tactic(auto, unfolding(crate::specs::Words::closed))]
    fn closed(&mut self, n: usize)
        ensures read { self.new.rest.now ≡ closed n self.old.rest.now }
        ensures lasts { Lasts self.old self.new }
    {
        if n > 0 {
            self.ended(1);
        }
    }

    // Bytes, which go to the front of `out`: that front. How many there are is a whole word.
    pub fn hex_field<'b>(&mut self, out: &'b mut [u8]) -> &'b mut [u8]
        ensures read { (result.now ≡ bytes (length out.old) self.old.rest.now) × (self.new.rest.now ≡ past_bytes (length out.old) self.old.rest.now) }
        ensures room { length result.now ≤ length out.old }
        ensures lasts { Lasts self.old self.new }
    {
        let n = self.size_field(out.len());
        let list = lists::front_mut(out, n);
        for entry in list.iter_mut() {
            *entry = self.pair();
        }
        self.closed(n);
        list
    }

    // The same where it need not be.
    pub fn next_hex_field<'b>(&mut self, out: &'b mut [u8]) -> &'b mut [u8]
        ensures read { (result.now ≡ next_bytes (length out.old) self.old.rest.now) × (self.new.rest.now ≡ past_next_bytes (length out.old) self.old.rest.now) }
        ensures room { length result.now ≤ length out.old }
        ensures lasts { Lasts self.old self.new }
    {
        let n = self.next_size_field(out.len());
        let list = lists::front_mut(out, n);
        for byte in list.iter_mut() {
            *byte = self.pair();
        }
        self.closed(n);
        list
    }

    // The bytes stored are the bytes given.
    pub fn expect_hex(&mut self, xs: &[u8])
        ensures { Lasts self.old self.new }
    {
        self.name();
        self.expect(xs.len());
        for x in xs {
            let stored = self.pair();
            self.compared(stored == *x);
        }
        self.closed(xs.len());
    }
}
