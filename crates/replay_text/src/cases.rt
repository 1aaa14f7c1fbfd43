// A text, and how its cases stand in it one behind the other: an empty line ends each.
ghost use Rattle.std.specs.Prelude.{◌≡◌, ◌≢◌, ◌≤◌, true, false, IfOk, IfSome, length, get_or};
ghost use Rattle.replay_text.specs.Cases.{empty_at, first_case, starts as begins, case_at};
ghost use Rattle.replay_text.specs.Cases.{letters as told, in_line, past_line as behind_line, past_lines as behind_lines, past_case as behind_case};
ghost use Rattle.replay_text.specs.Reading.{Kept, Lasts};
ghost use Rattle.replay_text.specs.Tally.{Counted, other_tallied, closed_in_line};
ghost use Rattle.replay_text.specs.Words.{field_word, past_word};

use crate::lists::{behind, front};
use crate::text::Reader;
use std::alloc::{AllocError, Global};
use std::io;
use std::io::Read;

// ---- cases cut out beforehand

// An empty line begins at i: a line feed, behind another or at the start.
fn empty_line(text: &[u8], i: usize) -> bool
    ensures { result ≡ empty_at text.now i }
{
    text.get(i) == Some(&b'\n') && (i == 0 || text.get(i - 1) == Some(&b'\n'))
}

// How many bytes the first case has.
fn first(text: &[u8]) -> usize
    ensures size { result ≡ first_case text.now }
    ensures within { result ≤ length text.now }
{
    (0..text.len())
        .position(|i| empty_line(text, i))
        .unwrap_or(text.len())
}

// Where the cases of a text begin.
fn starts(text: &[u8], alloc: Global) -> Result<Vec<usize>, AllocError>
    ensures { IfOk result (λ l. l.items ≡ begins text.now) }
{
    let mut starts = Vec::new(alloc);
    let mut at = 0;
    while at < text.len() {
        starts.push(at)?;
        at += first(behind(text, at)) + 1;
    }
    Ok(starts)
}

// A text, and where its cases begin.
#[derive(Drop)]
pub struct Cases {
    text: Vec<u8>,
    starts: Vec<usize>,
}

impl Cases {
    // All that is still to be read.
    pub fn read<R: Read>(from: &mut R, alloc: Global) -> io::Result<Cases>
        ensures text { IfOk result (λ c. IfSome (R.remaining from.old) (λ t. c.text.items ≡ t)) }
        ensures starts { IfOk result (λ c. c.starts.items ≡ begins c.text.items) }
    {
        let text = read(from, alloc)?;
        let starts = starts(&text, alloc)?;
        Ok(Cases { text, starts })
    }

    // How many cases there are.
    pub fn count(&self) -> usize
        ensures { result ≡ length self.now.starts.items }
    {
        self.starts.len()
    }

    // Case k, without the empty line that ends it; no bytes where there is none.
    pub fn case(&self, k: usize) -> &[u8]
        ensures { result.now ≡ case_at self.now.text.items (get_or self.now.starts.items k (length self.now.text.items)) }
    {
        let start = self.starts.get(k).copied().unwrap_or(self.text.len());
        let rest = behind(&self.text, start);
        front(rest, first(rest))
    }
}

// ---- cases one behind the other

// How many cases of a text are run at most.
pub const MOST: usize = 1_000_000;

// How many bytes of a line are passed at once, and how many such lines of a case.
const ROOM: usize = 1_000_000;

// All that is still to be read.
pub fn read<R: Read>(from: &mut R, alloc: Global) -> io::Result<Vec<u8>>
    ensures { IfOk result (λ t. IfSome (R.remaining from.old) (λ u. t.items ≡ u)) }
{
    let mut text = Vec::new(alloc);
    from.read_to_end(&mut text)?;
    Ok(text)
}

// The letters of a word that tell a kind: the first eight, the NUL bytes before them left out.
fn letters(word: &[u8]) -> &[u8]
    ensures { result.now ≡ told word.now }
{
    let start = word.iter().position(|b| *b != 0).unwrap_or(word.len());
    front(behind(word, start), 8)
}

impl<'a> Reader<'a> {
    // The kind of a case, which its first line says, by the letters that tell it.
    pub fn next_kind(&mut self) -> &'a [u8]
        ensures read { (result.now ≡ told (field_word self.old.rest.now)) × (self.new.rest.now ≡ past_word (past_word self.old.rest.now)) }
        ensures lasts { Lasts self.old self.new }
    {
        self.name();
        letters(self.word())
    }

    // Whether a case is of the kind that these letters tell; one of another kind is counted.
    pub fn is_next_kind(&mut self, kind: &[u8]) -> bool
        ensures rest { self.new.rest.now ≡ past_word (past_word self.old.rest.now) }
        ensures known { result ≡ true → (told (field_word self.old.rest.now) ≡ kind.now) × Lasts self.old self.new }
        ensures other { result ≡ false → (told (field_word self.old.rest.now) ≢ kind.now) × (self.new.counts ≡ other_tallied self.old.counts) × Counted self.old self.new }
    {
        if self.next_kind() == kind {
            return true;
        }
        self.unknown();
        false
    }

    // The line goes on.
    pub(crate) fn within_line(&self) -> bool
        ensures { result ≡ in_line self.now.rest.now }
    {
        self.rest.first().is_some_and(|b| *b != b'\n')
    }

    // The rest of a line; of a longer one, so many bytes and one more.
    fn past_line(&mut self)
        ensures read { self.new.rest.now ≡ behind_line self.old.rest.now }
        ensures kept { Kept self.old self.new }
    {
        let text = self.rest;
        let room = front(text, ROOM);
        let size = room.iter().position(|b| *b == b'\n').unwrap_or(room.len());
        self.rest = behind(text, size);
        self.advance();
    }

    // The lines up to an empty one.
    fn past_lines(&mut self)
        ensures read { self.new.rest.now ≡ behind_lines 1000000 self.old.rest.now }
        ensures kept { Kept self.old self.new }
    {
        for _ in 0..ROOM {
            if !self.within_line() {
                return;
            }
            self.past_line();
        }
    }

    // The rest of a case: up to an empty line, and past it.
    #[tactic(auto, unfolding(crate::specs::Cases::past_case))]
    fn past_case(&mut self)
        ensures read { self.new.rest.now ≡ behind_case self.old.rest.now }
        ensures kept { Kept self.old self.new }
    {
        self.past_lines();
        self.rest = behind(self.rest, 1);
    }

    // Counts what a case ends with, and goes on to the next, which has no faults and no differences so far.
    pub fn next_case(&mut self)
        ensures read { self.new.rest.now ≡ behind_case self.old.rest.now }
        ensures counts { self.new.counts ≡ closed_in_line self.old }
        ensures fresh { (self.new.faulty ≡ false) × (self.new.differs ≡ false) }
    {
        self.counts = self.end_in_line();
        self.past_case();
        self.faulty = false;
        self.differs = false;
    }
}
