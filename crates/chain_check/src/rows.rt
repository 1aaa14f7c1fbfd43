// Check 13: rows of 1 to 32 entries, targets that rise, and probabilities that add up to 1.
ghost use Rattle.std.specs.Prelude.{◌≡◌, ◌<◌, map, length};
ghost use Rattle.numbers.specs.Lists.{span, all};
ghost use Rattle.epsdelta_theory.specs.Jumps.{jumps_of};
ghost use Rattle.chain_theory.specs.Columns.{entries};
ghost use Rattle.chain_theory.specs.Lent.{of_chain};
ghost use Rattle.chain_theory.specs.Check;
ghost use Rattle.chain_theory.proofs.Shaped.{Rows};

use chain_theory::{Chain, Row};
use numbers::{ONE, Real, SLACK, apart};

// Targets that rise strictly.
fn ascends(targets: &[u32]) -> bool
    ensures { result ≡ Check.ascends targets.now }
{
    targets.is_sorted_by(|a, b| a < b)
}

// Above 0, and not above 1 + 1e-9.
fn probable(p: f64) -> bool
    ensures { result ≡ Check.probable p }
{
    p > 0.0 && p <= ONE + SLACK
}

fn all_probable(probs: &[f64]) -> bool
    ensures { result ≡ all Check.probable probs.now }
{
    probs.iter().all(|p| probable(*p))
}

// A sum that is not over 1e-9 from 1.
fn whole(probs: &[f64]) -> bool
    ensures { result ≡ Check.whole probs.now }
{
    let sum = Real::sum(probs).value();
    !(apart(sum, ONE) > SLACK)
}

fn proper(row: &Row) -> bool
    requires { length row.now.targets.now ≡ length row.now.probs.now }
    ensures { result ≡ Check.proper (jumps_of row.now.targets.now row.now.probs.now) }
{
    let Row { targets, probs } = *row;
    !targets.is_empty()
        && targets.len() <= 32
        && ascends(targets)
        && all_probable(probs)
        && whole(probs)
}

// The row of a state of a chain that check 4 lets pass.
fn row_proper(chain: &Chain, s: usize) -> bool
    requires { (s < chain.now.shape.states) × Rows chain.now.shape.states chain.now.offsets.now chain.now.targets.now chain.now.probs.now }
    ensures { result ≡ Check.proper (entries (of_chain chain.now) s) }
{
    chain.row(s).is_some_and(|row| proper(&row))
}

pub(crate) fn all_proper(chain: &Chain) -> bool
    requires { Rows chain.now.shape.states chain.now.offsets.now chain.now.targets.now chain.now.probs.now }
    ensures { result ≡ all Check.proper (map (entries (of_chain chain.now)) (span 0 chain.now.shape.states)) }
{
    (0..chain.shape.states).all(|s| row_proper(chain, s))
}
