// Numbers: `Real` of semiring.rs, the constants of document 01, the search through a list that stands in for hash maps, and the bits of a byte store.
#![tactic(auto)]

pub mod bounds; // bounds.rt: the numbers from a least one to a greatest one
pub mod refusal; // refusal.rt: why a call is turned back

ghost use Rattle.std.specs.Prelude.{◌≡◌, min, ltb, false, [], ◌∷◌};
ghost use Rattle.std.specs.Float.{inf};
ghost use Rattle.numbers.specs.Real.{is_zero, is_valid, sum, one, half, tenth, least_weight, greatest_weight, greatest_joined, least_observation, greatest_factor, greatest_rate, eps, slack, margin, fineness};
ghost use Rattle.numbers.specs.Choice;
ghost use Rattle.numbers.specs.Lists.{all};
ghost use Rattle.numbers.specs.Search;
ghost use Rattle.numbers.specs.Bits.{bit_at, cleared};

// The constants of document 01; `all_constants` ties each to its definition in specs/Real.antt.

pub const ONE: f64 = 1.0; // one

pub const HALF: f64 = 0.5; // half

pub const TENTH: f64 = 0.1; // tenth

pub const LEAST_WEIGHT: f64 = 9.094947017729282e-13; // least_weight, 2^-40

pub const GREATEST_WEIGHT: f64 = 1099511627776.0; // greatest_weight, 2^40

pub const GREATEST_JOINED: f64 = 4503599627370496.0; // greatest_joined, 2^52

pub const LEAST_OBSERVATION: f64 = -1099511627776.0; // least_observation, -2^40

pub const GREATEST_FACTOR: f64 = 1048576.0; // greatest_factor, 2^20

pub const GREATEST_RATE: f64 = 18446744073709551616.0; // greatest_rate, 2^64

pub const EPS: f64 = 1e-12; // eps

pub const SLACK: f64 = 1e-9; // slack

pub const MARGIN: f64 = 1e-15; // margin

pub const FINENESS: f64 = 1e-4; // fineness

// Never called: its contract says that each constant is the one of the definitions.
fn all_constants() -> [f64; 13]
    ensures { result ≡ one ∷ half ∷ tenth ∷ least_weight ∷ greatest_weight ∷ greatest_joined ∷ least_observation ∷ greatest_factor ∷ greatest_rate ∷ eps ∷ slack ∷ margin ∷ fineness ∷ [] }
{
    [
        ONE,
        HALF,
        TENTH,
        LEAST_WEIGHT,
        GREATEST_WEIGHT,
        GREATEST_JOINED,
        LEAST_OBSERVATION,
        GREATEST_FACTOR,
        GREATEST_RATE,
        EPS,
        SLACK,
        MARGIN,
        FINENESS,
    ]
}

// A weight: a rate or a probability.
#[derive(Clone, Copy)]
pub struct Real(pub f64);

impl Real {
    pub fn value(self) -> f64
        ensures { result ≡ self.0 }
    {
        self.0
    }

    // Exactly zero: a tiny rate is still a rate.
    pub fn is_zero(self) -> bool
        ensures { result ≡ is_zero self.0 }
    {
        self.0 == 0.0
    }

    // Finite and at least 0.
    pub fn is_valid(self) -> bool
        ensures { result ≡ is_valid self.0 }
    {
        0.0 <= self.0 && self.0 < infinity()
    }

    // The sum of the items, left to right from +0.
    pub fn sum(items: &[f64]) -> Real
        ensures { result.0 ≡ sum items.now }
    {
        let mut total = 0.0;
        for x in items {
            total += *x;
        }
        Real(total)
    }
}

// The infinity that the definitions have.
// Stays: in a proof `f64::INFINITY` is its bits, so that each of its nine calls would need an answer that turns them into `inf`; here one does.
pub fn infinity() -> f64
    ensures { result ≡ inf false }
{
    f64::INFINITY
}

// The lesser of two numbers, x where they are equal.
// Stays: f64's min answers y where x is a NaN, and this one x.
pub fn smaller(x: f64, y: f64) -> f64
    ensures { result ≡ Choice.smaller x y }
{
    if y < x { y } else { x }
}

// The greater of two numbers, x where they are equal.
// Stays: f64's max answers y where x is a NaN, and this one x.
pub fn larger(x: f64, y: f64) -> f64
    ensures { result ≡ Choice.larger x y }
{
    if x < y { y } else { x }
}

// How far apart two numbers are.
// Stays: f64's abs turns -0.0 into 0.0, and this one does not.
pub fn apart(x: f64, y: f64) -> f64
    ensures { result ≡ Choice.apart x y }
{
    let d = x - y;
    if d < 0.0 { -d } else { d }
}

// The least of four counts.
pub fn least(a: usize, b: usize, c: usize, d: usize) -> usize
    ensures { result ≡ min a (min b (min c d)) }
{
    a.min(b).min(c).min(d)
}

// Where x first stands in a list, if it does.
pub fn seek(list: &[u32], x: u32) -> Option<usize>
    ensures { result ≡ Search.place x list.now }
{
    list.iter().position(|y| *y == x)
}

// Whether each number of a list is below n.
// Stays: n is a bound on each of them, not how many of them are meant.
pub fn all_below(list: &[u32], n: usize) -> bool
    ensures { result ≡ all (λ x. ltb x n) list.now }
{
    list.iter().all(|x| (*x as usize) < n)
}

// Bit i of a store of bytes, lowest bit of a byte first; false past its end.
pub fn bit(store: &[u8], i: usize) -> bool
    ensures { result ≡ bit_at store.now i }
{
    let byte = store.get(i >> 3).copied().unwrap_or(0);
    (byte >> (i & 7)) & 1 == 1
}

// Clears bit i of a store; past its end nothing is changed.
// Stays: `if let Some(byte) = store.get_mut(i >> 3)` was tried, and the check then knows nothing of what the store holds, neither after the byte is written nor where there is none.
#[tactic(auto, using(crate::proofs::Masks::clears_bit, crate::proofs::Masks::cleared_past))]
pub fn clear_bit(store: &mut [u8], i: usize)
    ensures { store.new ≡ cleared store.old i }
{
    let k = i >> 3;
    if k < store.len() {
        let mask = 1u8 << (i & 7);
        store[k] &= !mask;
    }
}
