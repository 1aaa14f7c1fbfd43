// The report of a card: from its bytes to the printed relation.
#![tactic(auto)]

mod print; // print.rt: the models, their relation, and the report

pub use print::report;
