// Chains of kantorovich.rs: the common rate of two models, and a model made a chain at a rate.
#![tactic(auto)]

pub mod observed; // observed.rt: a model, a state and observations
mod rates; // rates.rt: exit rates
mod rows; // rows.rt: the rows of a chain
pub mod checks; // checks.rt: what `uniformise` refuses
pub mod chain; // chain.rt: common_rate, uniformise, and the latter below its checks
