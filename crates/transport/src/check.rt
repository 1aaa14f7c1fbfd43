// Refusals of `transport`.
ghost use Rattle.std.specs.Prelude.{◌≡◌, ◌*◌, ◌≤◌, ◌&&◌, ltb, length};
ghost use Rattle.numbers.specs.Refuse.{code};
ghost use Rattle.numbers.specs.Lists.{all};
ghost use Rattle.numbers.specs.Real.{sum};
ghost use Rattle.transport_theory.specs.Refusal.{fits, unequal};
ghost use Rattle.transport.specs.Lent.{lacking, right, refused, refused_size};

use crate::plan::PlanRows;
use numbers::bounds::AMOUNTS;
use numbers::refusal::Refusal;
use numbers::{ONE, Real, SLACK, apart, larger};
use transport_theory::Masses;

// Fewer places than there are cells, as many as they may be.
fn lacks(of: &Masses, places: usize) -> bool
    ensures { result ≡ ltb places (length of.now.left.now * length of.now.right.now) }
{
    let cells = of.left.len().checked_mul(of.right.len());
    cells.is_none_or(|n| places < n)
}

// A list that is lent is short.
fn short(of: &Masses, plan: &PlanRows) -> bool
    ensures { result ≡ lacking of.now plan.now }
{
    lacks(of, of.costs.len())
        || lacks(of, plan.rows.len())
        || lacks(of, plan.columns.len())
        || lacks(of, plan.masses.len())
}

// Each mass is from 0 to 2^40.
fn masses_fit(of: &Masses) -> bool
    ensures { result ≡ (all fits of.now.left.now && all fits of.now.right.now) }
{
    AMOUNTS.hold_all(of.left) && AMOUNTS.hold_all(of.right)
}

// Each cell's cost is from 0 to 2^40.
fn costs_fit(of: &Masses) -> bool
    requires { length of.now.left.now * length of.now.right.now ≤ length of.now.costs.now }
    ensures { result ≡ right of.now }
{
    let m = of.left.len();
    let n = of.right.len();
    AMOUNTS.hold_all(&of.costs[..m * n])
}

// The totals differ by too much.
fn uneven(of: &Masses) -> bool
    ensures { result ≡ unequal (sum of.now.left.now) (sum of.now.right.now) }
{
    let ta = Real::sum(of.left).value();
    let tb = Real::sum(of.right).value();
    SLACK * larger(ta, ONE) < apart(ta, tb)
}

// The first check of the sizes that fails.
pub(crate) fn size_refusal(of: &Masses, plan: &PlanRows) -> Result<(), Refusal>
    ensures { code result ≡ refused_size of.now plan.now }
{
    if short(of, plan) {
        return Err(Refusal::Store);
    }
    if !of.few() {
        return Err(Refusal::NetworkOrMasses);
    }
    Ok(())
}

// The first check that fails.
pub(crate) fn refusal(of: &Masses, plan: &PlanRows) -> Result<(), Refusal>
    ensures { code result ≡ refused of.now plan.now }
{
    size_refusal(of, plan)?;
    if !masses_fit(of) || !costs_fit(of) {
        return Err(Refusal::NetworkOrMasses);
    }
    if uneven(of) {
        return Err(Refusal::Totals);
    }
    Ok(())
}
