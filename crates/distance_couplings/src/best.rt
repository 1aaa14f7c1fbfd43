// The cheapest coupling of two rows against some values.
ghost use Rattle.std.specs.Prelude.{◌≡◌, map, ◌*◌, Float, length, true, false, Some};
ghost use Rattle.std.specs.Float.{binary64};
ghost use Rattle.std.specs.Float.Ieee.{mul, div};
ghost use Rattle.numbers.specs.Real.{sum};
ghost use Rattle.distance_theory.specs.Lent.{SameShares};
ghost use Rattle.distance_theory.proofs.Index.{look_up};
ghost use Rattle.transport_theory.specs.Transport.{transport};
ghost use Rattle.distance_theory.specs.Couplings.{point_mass};
ghost use Rattle.distance_theory.proofs.PairRows.{row_jumps};
ghost use Rattle.distance_theory.proofs.Bests.{places_by, Movable, moved_on};
ghost use Rattle.distance_theory.proofs.RowsLent.{RowsBeside, CellsRoom, PlanCells, rows_fitting, values_rows, best_rows, bested_in, best_over};

use crate::bench::{Bench, Moving};
use crate::shares::{cells, fits, lay_shares, place};
use distance_theory::lent::{Best, Rows, SharesMut};
use distance_theory::value_at;
use numbers::Real;
use transport::entry::transport_sized;
use transport::plan::PlanRows;
use transport_theory::Masses;

// Two rows whose entries are paired, and the values of pairs that a coupling of them is chosen by.
#[derive(Clone, Copy, Debug)]
pub(crate) struct Valued<'a> {
    pub(crate) rows: Rows<'a>,
    pub(crate) values: &'a [f64],
}

// The value of each cell's pair.
fn lay_values(of: &Valued, costs: &mut [f64])
    requires beside { RowsBeside of.now.rows }
    requires cells { length costs.old ≡ length of.now.rows.xs.targets.now * length of.now.rows.ys.targets.now }
    ensures { costs.new ≡ values_rows of.now.rows of.now.values.now }
{
    let Rows { xs, ys, codes } = of.rows;
    let n = ys.targets.len();
    for (k, cost) in costs.iter_mut().enumerate() {
        let at = place(codes, xs.targets[k / n], ys.targets[k % n]);
        *cost = value_at(of.values, at as usize);
    }
}

// The masses of one row fitted to the total of another: times that, divided by their own.
fn fit(ps: &[f64], qs: &[f64], fitted: &mut [f64])
    requires { length fitted.old ≡ length qs.now }
    ensures { fitted.new ≡ map (λ (x : Float). div binary64 (mul binary64 x (sum ps.now)) (sum qs.now)) qs.now }
{
    let left = Real::sum(ps).value();
    let right = Real::sum(qs).value();
    // Stays: no zip with `qs`, for the reason that `price_each` of distance_costs gives.
    for (j, x) in fitted.iter_mut().enumerate() {
        *x = qs[j] * left / right;
    }
}

// The places of the pairs of a plan's cells: of as many as the list is long.
fn lay_planned(rows: &Rows, plan: &PlanRows, places: &mut [u32])
    requires { PlanCells rows.now plan.now.rows.now plan.now.columns.now (length places.old) }
    ensures { places.new ≡ places_by (look_up rows.now.codes.now) rows.now.xs.targets.now rows.now.ys.targets.now plan.now.rows.now plan.now.columns.now (length places.old) }
{
    let Rows { xs, ys, codes } = *rows;
    // Stays: no zip with the plan's rows and columns, for the reason that `price_each` of distance_costs gives.
    for (i, at) in places.iter_mut().enumerate() {
        let x = xs.targets[plan.rows[i] as usize];
        let y = ys.targets[plan.columns[i] as usize];
        *at = place(codes, x, y);
    }
}

// The transport of masses under their costs: its shares, with the places of the pairs of two rows.
fn move_masses(
    of: &Masses,
    pairs: &Rows,
    shares: &mut SharesMut,
    moving: &mut Moving,
) -> Option<Best>
    requires { Movable of.now.left.now of.now.right.now of.now.costs.now pairs.now.xs.targets.now pairs.now.ys.targets.now (length pairs.now.codes.now) (length shares.old.places.now) (length shares.old.masses.now) }
    ensures lists { SameShares shares.old shares.new }
    ensures bested { bested_in result shares.new ≡ moved_on (look_up pairs.now.codes.now) pairs.now.xs.targets.now pairs.now.ys.targets.now (transport of.now.left.now of.now.right.now of.now.costs.now) shares.old.places.now shares.old.masses.now }
{
    let mut plan = PlanRows {
        rows: &mut moving.rows,
        columns: &mut moving.columns,
        masses: &mut shares.masses[..],
    };
    let moved = transport_sized(of, &mut plan, &mut moving.bench).ok()?;
    lay_planned(pairs, &plan, &mut shares.places[..moved.cells]);
    Some(Best {
        value: moved.total,
        cells: moved.cells,
    })
}

// Rows of several entries each: by transport of one to the other, the values as costs.
fn best_moved(
    of: &Valued,
    shares: &mut SharesMut,
    costs: &mut [f64; 1024],
    fitted: &mut [f64; 32],
    moving: &mut Moving,
) -> Option<Best>
    requires beside { RowsBeside of.now.rows }
    requires room { CellsRoom of.now.rows shares.old }
    ensures lists { SameShares shares.old shares.new }
    ensures bested { bested_in result shares.new ≡ best_over true (best_rows false of.now.rows of.now.values.now) shares.old }
{
    let costs = &mut costs[..cells(&of.rows)];
    let fitted = &mut fitted[..of.rows.ys.targets.len()];
    lay_values(of, costs);
    fit(of.rows.xs.probs, of.rows.ys.probs, fitted);
    let masses = Masses {
        left: of.rows.xs.probs,
        right: fitted,
        costs,
    };
    move_masses(&masses, &of.rows, shares, moving)
}

// A row of one entry: only one coupling exists.
fn best_alone(of: &Valued, shares: &mut SharesMut) -> Best
    requires beside { RowsBeside of.now.rows }
    requires room { CellsRoom of.now.rows shares.old }
    ensures lists { SameShares shares.old shares.new }
    ensures bested { bested_in (Some result) shares.new ≡ best_over true (best_rows true of.now.rows of.now.values.now) shares.old }
{
    let cells = cells(&of.rows);
    lay_shares(&of.rows, shares);
    let value = shares.first(cells).expected(of.values);
    Best { value, cells }
}

// One coupling alone where a row has one entry; else the one that transport gives.
fn cheapest(of: &Valued, shares: &mut SharesMut, bench: &mut Bench) -> Option<Best>
    requires beside { RowsBeside of.now.rows }
    requires room { CellsRoom of.now.rows shares.old }
    ensures lists { SameShares shares.old shares.new }
    ensures bested { bested_in result shares.new ≡ best_over true (best_rows (point_mass (row_jumps of.now.rows.xs) (row_jumps of.now.rows.ys)) of.now.rows of.now.values.now) shares.old }
{
    if of.rows.xs.targets.len() == 1 || of.rows.ys.targets.len() == 1 {
        return Some(best_alone(of, shares));
    }
    best_moved(
        of,
        shares,
        &mut bench.costs,
        &mut bench.fitted,
        &mut bench.moving,
    )
}

// The cheapest coupling of two rows, over the front of two lists. None where the rows have over 32 entries or are no rows, there are over 4,096 codes, or a list is short: the lists are then as they were.
pub(crate) fn best_coupling(of: &Valued, shares: &mut SharesMut, bench: &mut Bench) -> Option<Best>
    ensures lists { SameShares shares.old shares.new }
    ensures bested { bested_in result shares.new ≡ best_over (rows_fitting of.now.rows shares.old) (best_rows (point_mass (row_jumps of.now.rows.xs) (row_jumps of.now.rows.ys)) of.now.rows of.now.values.now) shares.old }
{
    if !fits(&of.rows, shares) {
        return None;
    }
    cheapest(of, shares, bench)
}
