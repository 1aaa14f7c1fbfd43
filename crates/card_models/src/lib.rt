// The two models of a card, built, or what refuses one.
#![tactic(auto)]

mod models; // models.rt: both models together
mod sides; // sides.rt: one model

pub use models::both_models;
pub use sides::{CardTransitions, build_side};
