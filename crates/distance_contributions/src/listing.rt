// The contributions of the pairs as records.
ghost use Rattle.std.specs.Prelude.{◌≡◌, true, map, ℕ, ◌≤◌, ◌<◌, length, get_or, Ok};
ghost use Rattle.numbers.specs.Refuse.{numbered};
ghost use Rattle.numbers.specs.Lists.{span};
ghost use Rattle.distance_words.specs.Told.{row};
ghost use Rattle.distance_words.proofs.Listing.{listing};
ghost use Rattle.distance_contributions.specs.Visited.{ReadAt, record_at, share_at, listable_in, all_in, listed_in};
ghost use Rattle.distance_words.proofs.Listing;

use crate::choice;
use bisim_core::ids::StateId;
use distance_theory::lent::Visited;
use distance_theory::{MetricOptions, PairContribution};
use distance_words::told::Listed;
use numbers::refusal::Refusal;
use numbers::{all_below, apart};

// Whether there are n states, each below a count.
// Stays: n is the length of the left states, but with `known(lefts, ..)` and `rights.get(..n).is_some_and(|rights| known(rights, ..))` the caller would ask one thing in two forms, and the definition asks it of both lists by n.
fn known(n: usize, states: &[u32], count: usize) -> bool
    ensures { result ≡ Listing.known n states.now count }
{
    n <= states.len() && all_below(&states[..n], count)
}

// Whether the contributions of all pairs can be listed, `top` of them.
fn listable(of: &Visited, top: usize) -> bool
    ensures { result ≡ listable_in of.now top }
{
    let n = of.pairs.lefts.len();
    n <= 4096
        && top <= 64
        && n <= of.spent.len()
        && known(n, of.pairs.lefts, of.left.len())
        && known(n, of.pairs.rights, of.right.len())
}

// The record of pair k.
fn record_of(of: &Visited, k: usize) -> PairContribution
    requires { ReadAt of.now k }
    ensures { result ≡ record_at of.now k }
{
    let x = of.pairs.lefts[k];
    let y = of.pairs.rights[k];
    let gap = apart(of.left[x as usize], of.right[y as usize]);
    let occupancy = of.spent[k];
    PairContribution {
        left: StateId(x),
        right: StateId(y),
        gap,
        occupancy,
        contribution: occupancy * gap,
    }
}

// The contribution of each pair.
fn weigh(of: &Visited, shares: &mut [f64])
    requires { (k : ℕ) → k < length shares.old → ReadAt of.now k }
    ensures { shares.new ≡ map (share_at of.now) (span 0 (length shares.old)) }
{
    for (k, share) in shares.iter_mut().enumerate() {
        *share = record_of(of, k).contribution;
    }
}

// The records of the chosen pairs, and zeros behind them.
fn records_of(of: &Visited, chosen: &[u32]) -> [PairContribution; 64]
    requires chosen_len_bound { length chosen.now ≤ 64 }
    requires by_index { (i : ℕ) → i < length chosen.now → ReadAt of.now (get_or chosen.now i 0) }
    ensures { result ≡ row (map (record_at of.now) chosen.now) }
{
    let mut records = Listed::default().records;
    for (i, k) in chosen.iter().enumerate() {
        records[i] = record_of(of, *k as usize);
    }
    records
}

// The contributions of all pairs, where they can be listed.
fn list(of: &Visited, options: MetricOptions) -> Listed
    requires { listable_in of.now options.top ≡ true }
    ensures { Ok result ≡ listing true (all_in of.now options) }
{
    let n = of.pairs.lefts.len();
    let mut shares = [0.0f64; 4096];
    let mut chosen = [0u32; 64];
    weigh(of, &mut shares[..n]);
    let count = choice::rank(&shares[..n], &mut chosen[..options.top]);
    let records = records_of(of, &chosen[..count]);
    Listed { count, records }
}

// The contributions above 0 of at most 4,096 pairs: largest first, equal ones in discovery order, as many as the options ask for, at most 64. 4 where a pair lacks a state, an observation or a time, or where more pairs are handed in or more records asked for.
pub fn contributions(of: &Visited, options: MetricOptions) -> Result<Listed, Refusal>
    ensures { numbered result ≡ listed_in of.now options }
{
    if !listable(of, options.top) {
        return Err(Refusal::OutOfRange);
    }
    Ok(list(of, options))
}
