// What a relation says of two states, and of the initial states of two models.
#![tactic(auto)]

pub mod bisimilar; // bisimilar.rt: whether two models are bisimilar
pub mod related; // related.rt: whether a relation holds two states
