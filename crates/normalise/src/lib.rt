// `normalise` of kantorovich.rs: the observations of two chains, scaled together.
#![tactic(auto)]

ghost use Rattle.std.specs.Prelude.{◌≡◌, map};
ghost use Rattle.numbers.specs.Refuse.{numbered};
ghost use Rattle.chain_theory.specs.Chain.{least_from, greatest_from};
ghost use Rattle.chain_theory.specs.Chain;
ghost use Rattle.chain_theory.specs.Lent.{of_chain_mut};
ghost use Rattle.normalise.specs.Outcome;
ghost use Rattle.normalise.specs.Outcome.{SameChain};

use chain_check::check::chain_refusal;
use chain_theory::{ChainMut, OBSERVATIONS};
use numbers::refusal::Refusal;
use numbers::{infinity, larger, smaller};
use parts::refusals::earlier;

// The least number of a list, x if none is less.
fn least_from(x: f64, list: &[f64]) -> f64
    ensures { result ≡ least_from x list.now }
{
    list.iter().fold(x, |least, y| smaller(least, *y))
}

// The greatest number of a list, x if none is greater.
fn greatest_from(x: f64, list: &[f64]) -> f64
    ensures { result ≡ greatest_from x list.now }
{
    list.iter().fold(x, |greatest, y| larger(greatest, *y))
}

// How far x is above the least, divided by the scale; 0 where that is not above 0.
fn scaled(least: f64, scale: f64, x: f64) -> f64
    ensures { result ≡ Chain.scaled least scale x }
{
    if scale > 0.0 {
        (x - least) / scale
    } else {
        0.0
    }
}

// Each number of a list scaled.
fn rescale(list: &mut [f64], least: f64, scale: f64)
    ensures { list.new ≡ map (Chain.scaled least scale) list.old }
{
    for x in list.iter_mut() {
        *x = scaled(least, scale, *x);
    }
}

// Two lists scaled together, by one least and one greatest over both, as `normalise` does it below its checks. The difference of these.
pub fn scale_together(left: &mut [f64], right: &mut [f64]) -> f64
    ensures { Outcome.scaling result left.new right.new ≡ Chain.normalise left.old right.old }
{
    let top = infinity();
    let low = least_from(top, left);
    let least = least_from(low, right);
    let high = greatest_from(-top, left);
    let scale = greatest_from(high, right) - least;
    rescale(left, least, scale);
    rescale(right, least, scale);
    scale
}

// The observations of two chains mapped to 0 to 1, by one least and one greatest over both; all to 0 where these are equal. Observations past the states are as they were, and so are all after a refusal.
pub fn normalise(left: &mut ChainMut, right: &mut ChainMut) -> Result<f64, Refusal>
    ensures outcome { Outcome.ends (numbered result) left.new.observations.now right.new.observations.now ≡ Outcome.normalised left.old.shape (of_chain_mut left.old) right.old.shape (of_chain_mut right.old) }
    ensures same_lists { SameChain left.old left.new × SameChain right.old right.new }
{
    let of_left = chain_refusal(&left.chain(), OBSERVATIONS);
    let of_right = chain_refusal(&right.chain(), OBSERVATIONS);
    earlier(of_left, of_right)?;
    let left_states = left.shape.states;
    let right_states = right.shape.states;
    Ok(scale_together(
        &mut left.observations[0..left_states],
        &mut right.observations[0..right_states],
    ))
}
