// The report's text in a lent store.
#![tactic(auto)]

mod lines; // lines.rt: a line in a store
mod report; // report.rt: pairs, the head, a refusal's line

pub use report::{MOST_REPORT, refusal_text, report_text};
