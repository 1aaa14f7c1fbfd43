// Shares of couplings in two lists, places of pairs and masses.
ghost use Rattle.std.specs.Prelude.{◌≡◌, ◌*◌, ◌≤◌, length};
ghost use Rattle.numbers.specs.Lists.{over};
ghost use Rattle.distance_theory.specs.Pairs.{pair};
ghost use Rattle.distance_theory.specs.Lent.{SameShares};
ghost use Rattle.distance_theory.proofs.Index.{look_up};
ghost use Rattle.distance_theory.proofs.Bests.{ats, parts, laid_as, lay_if};
ghost use Rattle.distance_theory.proofs.RowsLent.{RowsBeside, CellsRoom, rows_fitting, independent_rows};

use bisim_core::ids::StateId;
use distance_pairs::index::place_of;
use distance_theory::lent::{Rows, SharesMut};

// The place of a pair, as it is stored; how many codes there are if none is its own.
// Stays: of two numbers, as the rows that are lent hold them: by two ids each of its three callers would write `StateId(..)` twice, which stands here once. No Option; the couplings of the definition have that number for such a pair, and their lists, which are lent, hold numbers alone.
pub(crate) fn place(codes: &[u64], x: u32, y: u32) -> u32
    requires { length codes.now ≤ 4096 }
    ensures { result ≡ look_up codes.now (pair x y) }
{
    place_of(codes, StateId(x), StateId(y)).unwrap_or(codes.len()) as u32
}

// How many cells two rows have: one for each entry of the one with each of the other.
pub(crate) fn cells(rows: &Rows) -> usize
    requires { (length rows.now.xs.targets.now ≤ 32) × (length rows.now.ys.targets.now ≤ 32) }
    ensures { result ≡ length rows.now.xs.targets.now * length rows.now.ys.targets.now }
{
    rows.xs.targets.len() * rows.ys.targets.len()
}

// The independent coupling of two rows over the front of two lists: each entry with each, the probabilities multiplied.
pub(crate) fn lay_shares(rows: &Rows, shares: &mut SharesMut)
    requires beside { RowsBeside rows.now }
    requires room { CellsRoom rows.now shares.old }
    ensures lists { SameShares shares.old shares.new }
    ensures laid { (shares.new.places.now ≡ over (ats (independent_rows rows.now)) shares.old.places.now)
        × (shares.new.masses.now ≡ over (parts (independent_rows rows.now)) shares.old.masses.now) }
{
    let Rows { xs, ys, codes } = *rows;
    let n = ys.targets.len();
    // Stays: two lists are written at a time; by a zip of both they can't be, for the reason that `price_each` of distance_costs gives.
    for k in 0..cells(rows) {
        let i = k / n;
        let j = k % n;
        shares.places[k] = place(codes, xs.targets[i], ys.targets[j]);
        shares.masses[k] = xs.probs[i] * ys.probs[j];
    }
}

// Rows of at most 32 entries, a probability for each, few enough codes, and room for a share of each cell.
pub(crate) fn fits(rows: &Rows, shares: &SharesMut) -> bool
    ensures { result ≡ rows_fitting rows.now shares.now }
{
    let m = rows.xs.targets.len();
    let n = rows.ys.targets.len();
    rows.xs.probs.len() == m
        && rows.ys.probs.len() == n
        && m <= 32
        && n <= 32
        && rows.codes.len() <= 4096
        && cells(rows) <= shares.places.len()
        && cells(rows) <= shares.masses.len()
}

// The independent coupling of two rows, over the front of two lists. None where the rows have over 32 entries or are no rows, there are over 4,096 codes, or a list is short: the lists are then as they were.
pub fn lay_independent(rows: &Rows, shares: &mut SharesMut) -> Option<usize>
    ensures lists { SameShares shares.old shares.new }
    ensures laid { laid_as result shares.new.places.now shares.new.masses.now ≡ lay_if (rows_fitting rows.now shares.old) (independent_rows rows.now) shares.old.places.now shares.old.masses.now }
{
    if !fits(rows, shares) {
        return None;
    }
    lay_shares(rows, shares);
    Some(cells(rows))
}
