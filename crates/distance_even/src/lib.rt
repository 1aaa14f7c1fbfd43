// Refusal 16 of `distance` (kantorovich.rs): whether the totals of two rows agree once one is fitted to the other.
#![tactic(auto)]

ghost use Rattle.std.specs.Prelude.{◌≡◌, map};
ghost use Rattle.numbers.specs.Real.{sum};
ghost use Rattle.distance_theory.specs.Lent.{HasPair};
ghost use Rattle.distance_words.proofs.Even.{fitted_by, even_rows, even_pair_of, all_even_of};

use distance_theory::lent::Task;
use numbers::{ONE, Real, SLACK, apart, larger};

// The sum of the masses of a row, each times one total and divided by another.
fn fitted_total(qs: &[f64], left: f64, right: f64) -> f64
    ensures { result ≡ sum (map (fitted_by left right) qs.now) }
{
    let mut total = 0.0;
    for q in qs {
        total += *q * left / right;
    }
    total
}

// A row of one entry needs no transport; else the totals must agree.
fn even_rows(ps: &[f64], qs: &[f64]) -> bool
    ensures { result ≡ even_rows ps.now qs.now }
{
    if ps.len() == 1 || qs.len() == 1 {
        return true;
    }
    let left = Real::sum(ps).value();
    let right = Real::sum(qs).value();
    let total = fitted_total(qs, left, right);
    !(SLACK * larger(left, ONE) < apart(left, total))
}

// Pair k of a task; rows that can't be read are never asked for.
fn even_pair(task: &Task, k: usize) -> bool
    requires { HasPair task.now k }
    ensures { result ≡ even_pair_of task.now k }
{
    task.rows(k)
        .is_none_or(|rows| even_rows(rows.xs.probs, rows.ys.probs))
}

// Whether 16 comes up for none of a task's pairs. False where a list is short.
pub fn all_even(task: &Task) -> bool
    ensures { result ≡ all_even_of task.now }
{
    let n = task.pairs.lefts.len();
    n <= task.pairs.rights.len() && (0..n).all(|k| even_pair(task, k))
}
