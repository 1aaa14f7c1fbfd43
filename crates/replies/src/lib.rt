// What the C interface is made of: what answers hold is put behind references, and counts are made of numbers.
#![tactic(auto)]

pub mod answers; // answers.rt: what answers hold is put behind references
pub mod shapes; // shapes.rt: counts and initial states of models and chains
pub mod sides; // sides.rt: a model with what is lent beside it
