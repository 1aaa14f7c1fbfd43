// What the parts of `distance` lend each other.
ghost use Rattle.std.specs.Prelude.{◌≡◌};
ghost use Rattle.std.proofs.Math.Seq.{slice};
ghost use Rattle.distance_theory.specs.Couplings;
ghost use Rattle.distance_theory.specs.Couplings.{shares_of};
ghost use Rattle.distance_theory.specs.Lent.{PairsNoted, FirstShares, Reads, Couples, RowsRead};

use crate::value_at;
use chain_theory::{Chain, Row};

// Two rows whose entries are paired, and the codes that the pairs are looked up by.
#[derive(Clone, Copy, Debug)]
pub struct Rows<'a> {
    pub xs: Row<'a>,
    pub ys: Row<'a>,
    pub codes: &'a [u64],
}

// What a coupling comes to, Σ mass × value, and its number of shares.
// Stays: `Plan` of transport has such a number and a count too; it is what a plan costs, and this crate doesn't stand on transport.
#[derive(Clone, Copy, Debug, Default, PartialEq)]
pub struct Best {
    pub value: f64,
    pub cells: usize,
}

// Pairs of states, in the order of their discovery: the left and the right state of each, and the codes that they are looked up by.
#[derive(Clone, Copy, Debug)]
pub struct Pairs<'a> {
    pub lefts: &'a [u32],
    pub rights: &'a [u32],
    pub codes: &'a [u64],
}

// Pairs, the observations of the states of both chains, and the time that is spent in each pair.
#[derive(Clone, Copy, Debug)]
pub struct Visited<'a> {
    pub pairs: Pairs<'a>,
    pub left: &'a [f64],
    pub right: &'a [f64],
    pub spent: &'a [f64],
}

// The lists that pairs are noted in, and how many there are so far.
#[derive(Drop)]
pub struct PairsMut<'a> {
    pub lefts: &'a mut [u32],
    pub rights: &'a mut [u32],
    pub codes: &'a mut [u64],
    pub count: usize,
}

// The entries from..to, of those that there are.
fn part<T>(list: &[T], from: usize, to: usize) -> &[T]
    ensures { result.now ≡ slice from to list.now }
{
    let to = to.min(list.len());
    &list[from.min(to)..to]
}

impl PairsMut<'_> {
    // The pairs that are noted so far.
    pub fn noted(&self) -> Pairs<'_>
        ensures { PairsNoted self.now result }
    {
        Pairs {
            lefts: part(self.lefts, 0, self.count),
            rights: part(self.rights, 0, self.count),
            codes: part(self.codes, 0, self.count),
        }
    }
}

// The coupling of each pair: where its shares start and how many they are, in lists of places of pairs and of masses.
// Stays: places and masses are flat, though `Shares` is those two: with `shares: Shares` here `StoreMut::read` would make one of its two lists, which can't be nested, and `shares`, distance_values' `lies` and `coupling` would cut `shares.places` and `shares.masses` as they cut the two lists now; no line would go.
#[derive(Clone, Copy, Debug)]
pub struct Store<'a> {
    pub starts: &'a [u32],
    pub lengths: &'a [u32],
    pub places: &'a [u32],
    pub masses: &'a [f64],
}

// Shares that are read: a place of a pair and a mass for each.
#[derive(Clone, Copy, Debug)]
pub struct Shares<'a> {
    pub places: &'a [u32],
    pub masses: &'a [f64],
}

impl Shares<'_> {
    // Σ mass × value.
    pub fn expected(&self, values: &[f64]) -> f64
        ensures { result ≡ Couplings.expected values.now (shares_of self.now.places.now self.now.masses.now) }
    {
        let mut total = 0.0;
        for (place, mass) in self.places.iter().zip(self.masses) {
            total += *mass * value_at(values, *place as usize);
        }
        total
    }
}

impl<'a> Store<'a> {
    // The coupling of pair k: those of its shares that are in the store.
    pub fn shares(&self, k: usize) -> Shares<'a>
        ensures { Couples self.now k result }
    {
        let from = self.starts.get(k).copied().unwrap_or(0) as usize;
        let to = from + self.lengths.get(k).copied().unwrap_or(0) as usize;
        Shares {
            places: part(self.places, from, to),
            masses: part(self.masses, from, to),
        }
    }
}

// The lists that couplings are laid in: how many shares each has, and the places and masses of all.
// Stays: where each coupling starts is lent beside it, since the rounds only read it: as a field `improve` and `iterate` would ask for it by `&mut`, which is more than they asked.
// Stays: its lists of places and masses are flat, though `SharesMut` is those two; nested, it needs a second lifetime (with one, reading it is refused: 'a reference at an intersection of lifetimes'), and its users would go by `shares.` to the same two lists; no line would go.
#[derive(Drop)]
pub struct StoreMut<'a> {
    pub lengths: &'a mut [u32],
    pub places: &'a mut [u32],
    pub masses: &'a mut [f64],
}

// The lists that one coupling is laid over the front of: a place of a pair and a mass for each share.
#[derive(Drop)]
pub struct SharesMut<'a> {
    pub places: &'a mut [u32],
    pub masses: &'a mut [f64],
}

impl SharesMut<'_> {
    // The first n shares.
    pub fn first(&self, n: usize) -> Shares<'_>
        ensures { FirstShares self.now n result }
    {
        Shares {
            places: part(self.places, 0, n),
            masses: part(self.masses, 0, n),
        }
    }
}

impl StoreMut<'_> {
    // The couplings that are laid in it and start at these places.
    pub fn read<'a>(&'a self, starts: &'a [u32]) -> Store<'a>
        ensures { Reads starts.now self.now result }
    {
        Store {
            starts,
            lengths: self.lengths,
            places: self.places,
            masses: self.masses,
        }
    }
}

// What the rounds read and never write: the pairs of two chains, what each costs, and the discount.
#[derive(Clone, Copy, Debug)]
pub struct Task<'a> {
    pub pairs: Pairs<'a>,
    pub left: Chain<'a>,
    pub right: Chain<'a>,
    pub cost: &'a [f64],
    pub gamma: f64,
}

impl<'a> Task<'a> {
    // The rows of pair k; None where there is no such pair, or a row can't be read.
    pub fn rows(&self, k: usize) -> Option<Rows<'a>>
        ensures { RowsRead result self.now k }
    {
        let x = *self.pairs.lefts.get(k)? as usize;
        let y = *self.pairs.rights.get(k)? as usize;
        let xs = self.left.row(x)?;
        let ys = self.right.row(y)?;
        Some(Rows {
            xs,
            ys,
            codes: self.pairs.codes,
        })
    }
}

// The lists that a run takes as scratch: those that its pairs are noted in, and the places and masses of couplings.
// Stays: flat, as `StoreMut`; the lists of pairs too, though `PairsMut` is those three and a count.
#[derive(Drop)]
pub struct Scratch<'a> {
    pub lefts: &'a mut [u32],
    pub rights: &'a mut [u32],
    pub codes: &'a mut [u64],
    pub places: &'a mut [u32],
    pub masses: &'a mut [f64],
}
