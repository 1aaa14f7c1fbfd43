// `distance` and `bisim_distance` of kantorovich.rs: their data, their definitions (specs/), and laws of these (proofs/).
#![tactic(auto)]

ghost use Rattle.std.specs.Prelude.{◌≡◌, leb, get_or};
ghost use Rattle.std.specs.Float.{nan};
ghost use Rattle.numbers.specs.Lists.{all};
ghost use Rattle.distance_theory.specs.Rounds;
ghost use Rattle.distance_theory.specs.Refusal;

pub mod lent; // lent.rt: rows, pairs, couplings, the task of a run and its scratch

use bisim_core::ids::StateId;
use numbers::{EPS, larger};

// How near the distance is wanted, the most rounds of improvement, and how many contributions are listed.
#[derive(Clone, Copy, Debug, PartialEq)]
pub struct MetricOptions {
    pub tolerance: f64,
    pub max_rounds: usize,
    pub top: usize,
}

// What is asked of two chains: the discount, and the options.
#[derive(Clone, Copy, Debug, PartialEq)]
pub struct Goal {
    pub gamma: f64,
    pub options: MetricOptions,
}

// A pair's share of the distance: how far its observations are apart, the discounted time spent in it, and the product of the two.
#[repr(C)]
#[derive(Clone, Copy, Debug, PartialEq)]
pub struct PairContribution {
    pub left: StateId,
    pub right: StateId,
    pub gap: f64,
    pub occupancy: f64,
    pub contribution: f64,
}

// The value of the first pair, the error bound as the Rust has it, the discount, the number of pairs explored, of contributions listed and of rounds made.
#[derive(Clone, Copy, Debug, PartialEq)]
pub struct Distance {
    pub value: f64,
    pub error_bound: f64,
    pub gamma: f64,
    pub pairs_explored: usize,
    pub contributions: usize,
    pub rounds: usize,
}

// A tolerance that is NaN or below 1e-12 counts as 1e-12.
pub fn tolerance(options: MetricOptions) -> f64
    ensures { result ≡ Rounds.tolerance options }
{
    larger(EPS, options.tolerance)
}

// Whether more than 64 contributions or 10,000 rounds are asked for.
pub fn excessive(options: MetricOptions) -> bool
    ensures { result ≡ Refusal.excessive options }
{
    options.top > 64 || options.max_rounds > 10000
}

// Whether each of these lengths is at least n.
// Stays: n is no count of entries of `lengths` that are in use; it is what each of them is compared with.
pub fn long(n: usize, lengths: &[usize]) -> bool
    ensures { result ≡ all (leb n) lengths.now }
{
    lengths.iter().all(|length| *length >= n)
}

// The value at a place; NaN past the last.
pub fn value_at(values: &[f64], i: usize) -> f64
    ensures { result ≡ get_or values.now i nan }
{
    values.get(i).copied().unwrap_or(f64::NAN)
}
