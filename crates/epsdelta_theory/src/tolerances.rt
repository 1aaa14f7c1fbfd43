// How far two states that are related may differ.

// ε and ρ.
#[derive(Clone, Copy, Debug, PartialEq)]
pub struct Tolerances {
    pub epsilon: f64,
    pub rho: f64,
}
