// The entries for C and Rust: numbers, slices and references to numbers. Where a function can refuse, it returns the refusal's number,
// or 0 with its answer behind the references at its end, which a refusal leaves as they were.
// Stays: C lends a model as ten numbers and columns, each a parameter, so that a function of two models has over 40 lines. A `Wlts` of them by a function of ten parameters would be as long, and lose the names that tell columns of one type apart.
#![tactic(auto)]

pub mod models; // models.rt: numbers, labels and models
pub mod networks; // networks.rt: networks of links and their maximum flow
pub mod relations; // relations.rt: relations of two models
pub mod cards; // cards.rt: the report of a card
pub mod transports; // transports.rt: transports of masses
pub mod model_chains; // model_chains.rt: chains of models
pub mod distances; // distances.rt: distances of chains
pub mod model_distances; // model_distances.rt: distances of models
