// The reader of a card.
#![tactic(auto)]

mod reader; // reader.rt: checks 1 and 2, then the lent lists

pub use reader::{CardLists, Head, Heads, read_card};
