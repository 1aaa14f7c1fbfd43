// The card of document 01: its layout, and the lines and columns of numbers in it.
#![tactic(auto)]

mod columns; // columns.rt: numbers in columns of six

pub use columns::{column, laid, number};
