// The report of the relation of two models.
#![tactic(auto)]

mod relating; // relating.rt: the relation, and its text

pub use relating::{in_parts, relation_text};
