// The rounds of `transport` on links that stand in rows of numbers.
#![tactic(auto)]

mod search; // search.rt: a shortest path, by Bellman-Ford
mod path; // path.rt: the path to the sink
mod run; // run.rt: rounds
pub mod rows; // rows.rt: the rounds on links in rows
