// The card reader: check the lines first, then fill the lent lists.
ghost use Rattle.std.specs.Prelude.{◌≡◌, true, ◌*◌, ◌≤◌, length};
ghost use Rattle.std.proofs.lemmas.List.Edits.{sets};
ghost use Rattle.card_layout.specs.Card;
ghost use Rattle.numbers.specs.Refuse.{code, numbered};
ghost use Rattle.card_layout.specs.Lists.{stored, roomy, filled};
ghost use Rattle.card_reader.specs.Lent.{columns_of, same_lists};
ghost use Rattle.card_reader.specs.Answer;
ghost use Rattle.card_reader.specs.Answer.{Answered, HeadOf};
ghost use Rattle.card_layout.proofs.Filling;
ghost use Rattle.card_layout.proofs.Filling.{TransitionsRoom, TransitionsStored, SideRoom};

use card_layout::{laid, number};
use numbers::refusal::Refusal;

// A model's first line: states, initial state, transitions.
#[derive(Clone, Copy, Debug, PartialEq, Eq)]
pub struct Head {
    pub states: u32,
    pub initial: u32,
    pub transitions: u32,
}

// The first lines of both models, and ε and ρ in 1,024ths.
#[derive(Clone, Copy, Debug, PartialEq, Eq)]
pub struct Heads {
    pub left: Head,
    pub right: Head,
    pub epsilon: u32,
    pub rho: u32,
}

// The lists that a card is read into: a class for each state, and four numbers for each transition; those of the left model stand first.
#[derive(Debug, Drop)]
pub struct CardLists<'a> {
    pub classes: &'a mut [u32],
    pub sources: &'a mut [u32],
    pub labels: &'a mut [u32],
    pub targets: &'a mut [u32],
    pub weights: &'a mut [f64],
}

// The first line of the model that the bytes begin with.
fn first_line(s: &[u8]) -> Head
    requires { 19 ≤ length s.now }
    ensures { HeadOf result s.now }
{
    Head {
        states: number(s),
        initial: number(&s[6..]),
        transitions: number(&s[12..]),
    }
}

// The first fault of the model that the bytes begin with.
// Stays: `fill_side` cuts off the same two parts, but here the second cut is safe only once the first part is as laid out; one function that made both cuts would stop before that test.
fn side_fault(s: &[u8]) -> Result<(), Refusal>
    ensures { code result ≡ Card.side_fault s.now 0 }
{
    if !laid(s, 1, 3) {
        return Err(Refusal::CardLayout);
    }
    let of = first_line(s);
    if of.states > 32 || of.transitions > 200 {
        return Err(Refusal::CardSize);
    }
    let lines = &s[19..];
    if !laid(lines, of.states, 1) || !laid(&lines[7 * of.states as usize..], of.transitions, 4) {
        return Err(Refusal::CardLayout);
    }
    Ok(())
}

// The bytes after the model that they begin with, which has no fault.
fn after_side(s: &[u8]) -> &[u8]
    requires { Card.side_fault s.now 0 ≡ 0 }
    ensures { result.now ≡ Card.after_side s.now }
{
    let of = first_line(s);
    &s[19 + 7 * of.states as usize + 25 * of.transitions as usize..]
}

// The first fault of the card.
fn fault(s: &[u8]) -> Result<(), Refusal>
    ensures { code result ≡ Card.fault s.now }
{
    side_fault(s)?;
    let right = after_side(s);
    side_fault(right)?;
    let last = after_side(right);
    if !laid(last, 1, 2) || last.len() > 13 {
        return Err(Refusal::CardLayout);
    }
    Ok(())
}

// The classes on the n lines that the bytes begin with, stored in the first entries.
// Stays: as `classes[..n].iter_mut().zip(s[..7 * n].chunks(7))` there are two cuts more, each with its bound, and the invariant speaks of what is left of both in place of i.
fn fill_classes(s: &[u8], n: u32, classes: &mut [u32])
    requires { (7 * n ≤ length s.now) × (n ≤ length classes.old) }
    ensures { classes.new ≡ sets classes.old 0 (Card.classes_in n s.now) }
{
    for i in 0..n as usize {
        classes[i] = number(&s[7 * i..]);
    }
}

// The transitions on the n lines that the bytes begin with, stored from `from` on.
// Stays: with the lists cut in `fill_card` the right model would have five cuts in place of one, each with a law that what is written to the part is written to the list, in place of `from` here and both places of `fill_side`. The four columns by `zip` would be four iterators in one, in place of i.
fn fill_transitions(s: &[u8], n: u32, lists: &mut CardLists, from: usize)
    requires { (25 * n ≤ length s.now) × TransitionsRoom n from lists.old.sources.now lists.old.labels.now lists.old.targets.now lists.old.weights.now }
    ensures stored { TransitionsStored (Card.transitions_in n s.now) from lists.old.sources.now lists.old.labels.now lists.old.targets.now lists.old.weights.now lists.new.sources.now lists.new.labels.now lists.new.targets.now lists.new.weights.now }
    ensures kept { lists.new.classes.now ≡ lists.old.classes.now }
    ensures same { same_lists lists.old lists.new }
{
    for i in 0..n as usize {
        let line = &s[25 * i..];
        lists.sources[from + i] = number(line);
        lists.labels[from + i] = number(&line[6..]);
        lists.targets[from + i] = number(&line[12..]);
        lists.weights[from + i] = number(&line[18..]) as f64;
    }
}

// The lists are long enough for n states and m transitions.
// Stays: by `numbers::least` of the four lengths it reads the same four, and wants a law more, since the definition tests them one by one.
fn enough(n: usize, m: usize, lists: &CardLists) -> bool
    ensures { result ≡ Filling.enough n m (length lists.now.classes.now) (length lists.now.sources.now) (length lists.now.labels.now) (length lists.now.targets.now) (length lists.now.weights.now) }
{
    n <= lists.classes.len()
        && m <= lists.sources.len()
        && m <= lists.labels.len()
        && m <= lists.targets.len()
        && m <= lists.weights.len()
}

// The model that the bytes begin with, which has no fault, stored in the lists: its classes from `from` on, its transitions from `first` on.
// Stays: as `fill_transitions`.
fn fill_side(s: &[u8], lists: &mut CardLists, from: usize, first: usize)
    requires { SideRoom s.now from first (columns_of lists.old) }
    ensures stored { columns_of lists.new ≡ stored (Card.side_in s.now) from first (columns_of lists.old) }
    ensures same { same_lists lists.old lists.new }
{
    let of = first_line(s);
    let lines = &s[19..];
    fill_classes(lines, of.states, &mut lists.classes[from..]);
    fill_transitions(
        &lines[7 * of.states as usize..],
        of.transitions,
        lists,
        first,
    );
}

// The card, which has no fault, stored in the lists: the left model from the first entry on, the right model after it.
fn fill_card(s: &[u8], lists: &mut CardLists)
    requires { (Card.fault s.now ≡ 0) × (roomy (Card.card_in s.now) (columns_of lists.old) ≡ true) }
    ensures filled { columns_of lists.new ≡ filled (Card.card_in s.now) (columns_of lists.old) }
    ensures same { same_lists lists.old lists.new }
{
    let left = first_line(s);
    fill_side(s, lists, 0, 0);
    fill_side(
        after_side(s),
        lists,
        left.states as usize,
        left.transitions as usize,
    );
}

// The counts and settings of a card that has no fault.
fn heads_of(s: &[u8]) -> Heads
    requires { Card.fault s.now ≡ 0 }
    ensures { result ≡ Answer.heads_of (Card.card_in s.now) }
{
    let right = after_side(s);
    let last = after_side(right);
    Heads {
        left: first_line(s),
        right: first_line(right),
        epsilon: number(last),
        rho: number(&last[6..]),
    }
}

// Reads a card into the lent lists: 1 or 2 where a line has a fault, 7 where a list is short.
pub fn read_card(s: &[u8], lists: &mut CardLists) -> Result<Heads, Refusal>
    ensures answered { Answered s.now (columns_of lists.old) (numbered result) (columns_of lists.new) }
    ensures same { same_lists lists.old lists.new }
{
    fault(s)?;
    let heads = heads_of(s);
    let states = heads.left.states as usize + heads.right.states as usize;
    let transitions = heads.left.transitions as usize + heads.right.transitions as usize;
    if !enough(states, transitions, lists) {
        return Err(Refusal::Store);
    }
    fill_card(s, lists);
    Ok(heads)
}
