// What a program that replays stored answers needs.
#![tactic(auto)]

pub mod answers; // answers.rt: answers in the text
pub mod cases; // cases.rt: a text, and how its cases stand in it
pub mod columns; // columns.rt: a built model in the text
pub mod hex; // hex.rt: bytes written in hexadecimal digits
pub mod lists; // lists.rt: lists in the text
pub mod tally; // tally.rt: how many agree, and how many differ
pub mod text; // text.rt: the words of a text, and the values that it goes on with
pub mod values; // values.rt: values in the text
pub mod whole_words; // whole_words.rt: values that are whole words
#[cfg(test)]
mod tests; // tests.rt: calls of what no program here calls
