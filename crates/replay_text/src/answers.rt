// Answers in the text: a name, the refusal's number or 0, and the values, which are 0 on a refusal.
ghost use Rattle.replay_text.specs.Reading.{Lasts};
ghost use Rattle.replay_text.specs.Tally.{Counted};

use crate::text::Reader;
use crate::values::Value;
use numbers::refusal::Refusal;

impl Reader<'_> {
    // A refusal's number, and what stands beside it.
    fn expect_numbered<T: Value>(&mut self, refusal: u32, x: T)
        ensures { Lasts self.old self.new }
    {
        self.name();
        refusal.expect(self);
        x.expect(self);
    }

    // The answer stored is this one.
    pub fn expect_answer<T: Value>(&mut self, answer: Result<T, Refusal>)
        ensures { Lasts self.old self.new }
    {
        match answer {
            Ok(x) => self.expect_numbered(0, x),
            Err(refusal) => self.expect_numbered(refusal.number(), T::zero()),
        }
    }

    // And it is counted.
    pub fn check<T: Value>(&mut self, entry: usize, answer: Result<T, Refusal>)
        ensures { Counted self.old self.new }
    {
        self.expect_answer(answer);
        self.count(entry);
    }
}
