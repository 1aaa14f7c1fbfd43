// What the programs that replay stored distances and chains share.
#![tactic(auto)]

pub mod answer; // answer.rt: what a run tells, set against the stored answer
pub mod asked; // asked.rt: the goal, and how much is lent
pub mod chains; // chains.rt: a chain in the text
pub mod scratch; // scratch.rt: lent scratch, its marks and what it holds
#[cfg(test)]
mod tests; // tests.rt: a call of what no program here calls
