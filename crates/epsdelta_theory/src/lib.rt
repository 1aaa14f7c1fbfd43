// `epsdelta` as a definition (specs/) and what is proved of every run (proofs/Theorem.antt).
#![tactic(auto)]

pub mod tolerances; // tolerances.rt: ε and ρ

ghost use Rattle.std.specs.Prelude.{◌≡◌, ◌≤◌, ◌<◌};
ghost use Rattle.epsdelta_theory.specs.Epsdelta.{rates_close};
ghost use Rattle.epsdelta_theory.specs.Relation.{relation_bytes};

// The rate test: whether exit rates a and b are both zero, or both positive and neither above the other times rho.
#[tactic(auto, unfolding(crate::specs::Epsdelta::rates_close))]
pub fn rates_close(a: f64, b: f64, rho: f64) -> bool
    ensures { result ≡ rates_close a b rho }
{
    (a == 0.0 && b == 0.0) || (a > 0.0 && b > 0.0 && a <= b * rho && b <= a * rho)
}

// How many bytes a relation of so many states has: a bit for each ordered pair. From 2^32 states on 2^61, which is more than any store has.
pub fn relation_bytes(states: usize) -> usize
    ensures few { states < 4294967296 → result ≡ relation_bytes states }
    ensures many { 4294967296 ≤ states → result ≡ 2305843009213693952 }
{
    states.saturating_mul(states).div_ceil(8)
}
