// Strikes that are noted, so that flow tests that would pass again need no run.
// Bit v % 64 of `recent` of state u is set after a strike of u and v in this sweep, that of `before` after one in the sweep before. States v that are 64 apart share a bit.
ghost use Rattle.std.specs.Prelude.{◌≡◌, ℕ, ◌≤◌, ◌<◌, ◌+◌, ◌*◌, ◌%◌, true, false, length, get_or, IfSome};
ghost use Rattle.numbers.specs.Bits.{cleared};
ghost use Rattle.epsdelta_theory.proofs.Unchanged.{Off, Told, QuietAt, Quiet, noted};
ghost use Rattle.epsdelta_sweeps.specs.Place.{Same, Aged, Untouched, Next, count, words_of};
ghost use Rattle.flow_links.proofs.RowsRead.{states_of};
ghost use Rattle.epsdelta_sweeps.specs.Leading.{Paired};

use crate::rows::row;
use flow_links::rows::Rows;
use numbers::{bit, clear_bit};

// The strikes of some states: the bits of those with any of them, in this sweep, and in the sweep before with one that is not below another.
#[derive(Clone, Copy)]
pub struct Strikes {
    pub recent: u64,
    pub before: u64,
}

impl Strikes {
    pub(crate) const NONE: Strikes = Strikes {
        recent: 0,
        before: 0,
    };
}

// What sweeps write: the bytes of the relation, the strikes of each state, and whether there was a sweep before.
#[derive(Drop)]
pub(crate) struct Memory<'a> {
    pub(crate) relation: &'a mut [u8],
    pub(crate) strikes: &'a mut [Strikes],
    pub(crate) again: bool,
}

impl Memory<'_> {
    // The first state from t on that s stands with, if any does.
    pub(crate) fn next(&self, s: usize, t: usize) -> Option<usize>
        requires { (count self.now ≤ 2000) × (s < count self.now) }
        ensures { Next self.now s t result }
    {
        let states = self.strikes.len();
        let row = s * states;
        (t..states).find(|t| bit(self.relation, row + *t))
    }

    // Strikes (s, t): both orders are cleared, and the strike is noted.
    pub(crate) fn strike(&mut self, s: usize, t: usize)
        requires { (count self.old ≤ 2000) × (s < count self.old) × (t < count self.old) }
        ensures { (self.new.relation.now ≡ cleared (cleared self.old.relation.now (s * count self.old + t)) (t * count self.old + s)) × (words_of (count self.old) self.new ≡ noted (words_of (count self.old) self.old) s t) × Same self.old self.new }
    {
        let states = self.strikes.len();
        clear_bit(self.relation, s * states + t);
        clear_bit(self.relation, t * states + s);
        self.strikes[s].recent |= 1 << (t % 64);
        self.strikes[t].recent |= 1 << (s % 64);
    }
}

// A word where s is not above u.
fn not_below(u: usize, s: usize, word: u64) -> u64
    ensures { s ≤ u → result ≡ word }
{
    if u < s {
        return 0;
    }
    word
}

// The strikes of these targets, if all of them are states.
fn strikes_of(row: &[u32], memory: &Memory, s: usize) -> Option<Strikes>
    ensures { IfSome result (λ m. (i : ℕ) → i < length row.now → Told (count memory.now) (words_of (count memory.now) memory.now) s (get_or row.now i 0) m.recent m.before) }
{
    let mut recent = 0;
    let mut before = 0;
    for u in row {
        let u = *u as usize;
        let strikes = memory.strikes.get(u)?;
        recent |= strikes.recent;
        before |= not_below(u, s, strikes.before);
    }
    Some(Strikes { recent, before })
}

// Whether v is among strikes of this sweep, or is not below s and among those of the sweep before; strikes with a state below s were before the turn of a pair of s.
fn since(m: Strikes, v: usize, s: usize) -> bool
    ensures { result ≡ false → Off m.recent (v % 64) × (s ≤ v → Off m.before (v % 64)) }
{
    (m.recent >> (v % 64)) & 1 == 1 || (s <= v && (m.before >> (v % 64)) & 1 == 1)
}

// True only if these targets are states, and none of them is among these strikes.
fn untouched(row: &[u32], states: usize, m: Strikes, s: usize) -> bool
    ensures { result ≡ true → Untouched row.now states m s }
{
    row.iter()
        .all(|v| (*v as usize) < states && !since(m, *v as usize, s))
}

// True only if s and t have targets, and no entry that their flow tests read was struck since their turn in the sweep before.
pub(crate) fn unchanged(rows: &Rows, memory: &Memory, s: usize, t: usize) -> bool
    requires { Paired rows.now s t × (count memory.now ≡ states_of rows.now) }
    ensures { result ≡ true → Quiet rows.now.starts.now rows.now.targets.now (QuietAt (states_of rows.now) (words_of (states_of rows.now) memory.now) s) s t }
{
    let us = row(rows, s).targets;
    let vs = row(rows, t).targets;
    if !memory.again || us.is_empty() || vs.is_empty() {
        return false;
    }
    let states = rows.exits.len();
    strikes_of(us, memory, s).is_some_and(
        |m|
            ensures { result ≡ true → Untouched vs.entry.now states m s }
        { untouched(vs, states, m, s) },
    )
}

// The strikes of a sweep that is over, as those of the sweep before.
fn age(strikes: &mut [Strikes])
    ensures { Aged strikes.old strikes.new }
{
    for x in strikes.iter_mut() {
        *x = Strikes {
            recent: 0,
            before: x.recent,
        };
    }
}

// A sweep is over: its strikes are those of the sweep before.
pub(crate) fn fade(memory: &mut Memory)
    ensures { ((u : ℕ) → u < count memory.old → get_or (words_of (count memory.old) memory.new) (2 * u + 1) 0 ≡ get_or (words_of (count memory.old) memory.old) (2 * u) 0) × (length (words_of (count memory.old) memory.new) ≡ length (words_of (count memory.old) memory.old)) × (memory.new.relation.now ≡ memory.old.relation.now) × Same memory.old memory.new }
{
    age(memory.strikes);
    memory.again = true;
}
