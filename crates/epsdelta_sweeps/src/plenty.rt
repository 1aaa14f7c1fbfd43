// How much flow is plenty, if any is: so much that the flow test back passes too.
ghost use Rattle.std.specs.Prelude.{◌≡◌, true, ℕ, ◌<◌, length};
ghost use Rattle.flow_duality.proofs.Plenty.{Formed, Light, Between};
ghost use Rattle.flow_links.proofs.RowsRead.{states_of, Fitting};
ghost use Rattle.epsdelta_sweeps.specs.Leading.{LightIn, Enough};

use crate::place::Terms;
use crate::rows::row;
use flow_duality::{ROW_MOST, SPARE, is_share};
use flow_links::rows::{Rows, Test};

// True only if these jumps are to states, with rates above 0 and at most 1.
// Stays: over a `&Row`, by `row.targets.iter().zip(row.rates)`, `search` did not prove `returns`.
fn light(targets: &[u32], rates: &[f64], states: usize) -> bool
    requires { length targets.now ≡ length rates.now }
    ensures { result ≡ true → (i : ℕ) → i < length targets.now → Light states targets.now rates.now i }
{
    targets
        .iter()
        .zip(rates)
        .all(|(u, p)| (*u as usize) < states && is_share(*p))
}

// True only if these are the jumps of s.
fn light_row(rows: &Rows, s: usize) -> bool
    requires { Fitting rows.now × (s < states_of rows.now) }
    ensures { result ≡ true → LightIn rows.now s }
{
    let row = row(rows, s);
    light(row.targets, row.rates, rows.exits.len())
}

// True only if these are the jumps of all states.
fn all_light(rows: &Rows) -> bool
    requires { Fitting rows.now }
    ensures { result ≡ true → (s : ℕ) → s < states_of rows.now → LightIn rows.now s }
{
    (0..rows.exits.len()).all(
        |s|
            requires { Fitting rows.now × (s < states_of rows.now) }
        { light_row(rows, s) },
    )
}

// SPARE more than what is needed, where all rows are such; else no flow is plenty.
pub(crate) fn plenty_of(rows: &Rows, need: f64) -> Option<f64>
    requires { Fitting rows.now × Formed need }
    ensures { Enough rows.now need result }
{
    all_light(rows).then_some(need + SPARE)
}

// Plenty, where both rows of a test have at most ROW_MOST jumps; else no flow is.
pub(crate) fn plenty_between(terms: &Terms, test: &Test) -> Option<f64>
    ensures { Between (length test.now.left.targets.now) (length test.now.right.targets.now) terms.now.plenty result }
{
    if test.left.targets.len() <= ROW_MOST && test.right.targets.len() <= ROW_MOST {
        return terms.plenty;
    }
    None
}
