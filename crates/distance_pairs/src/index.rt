// The index of the pairs: each pair with its number as one code, the codes rising, searched by halves.
ghost use Rattle.std.specs.Prelude.{◌≡◌, ◌≤◌, ◌<◌, ◌/◌, ◌%◌, length};
ghost use Rattle.distance_theory.specs.Pairs.{pair};
ghost use Rattle.distance_theory.proofs.Index.{keyed, looked, past_keys};
ghost use Rattle.distance_theory.proofs.Index;

use bisim_core::ids::StateId;

// A pair as one number.
// Stays: a number and no struct of two states with a derived order, for `Code` is made of it.
pub(crate) fn key(x: u32, y: u32) -> u64
    ensures { (result ≡ Index.key (pair x y)) × (result < past_keys) }
{
    u64::from(x) * 2048 + u64::from(y)
}

// A pair with its number.
// Stays: packed into one number, for the C interface lends the index as a list of u64.
#[derive(Clone, Copy, Debug, PartialEq, Eq, PartialOrd, Ord)]
pub(crate) struct Code(pub(crate) u64);

impl Code {
    // Pair number n.
    pub(crate) fn new(x: u32, y: u32, n: usize) -> Code
        requires { n < 4096 }
        ensures { result.0 ≡ Index.code (pair x y) n }
    {
        Code(key(x, y) * 4096 + n as u64)
    }

    // The key of its pair.
    fn key(self) -> u64
        ensures { result ≡ self.0 / 4096 }
    {
        self.0 / 4096
    }

    // The number of its pair.
    fn number(self) -> usize
        ensures { result ≡ self.0 % 4096 }
    {
        (self.0 % 4096) as usize
    }

    // 1 where it is below those of a key, else 0: the sign of a difference.
    // Stays: `usize::from(self.key() < key)` becomes a branch, which half of the time is foretold wrongly: a look-up among 4,096 codes took 104 ns in place of 36, among 64 as long (`goes_by` with either form, without its contracts, built by rustc 1.95 -O3; medians of 25 runs).
    fn below(self, key: u64) -> usize
        requires { key ≤ past_keys }
        ensures { (result ≡ Index.below self.0 key) × (result ≤ 1) }
    {
        ((key + 9223372036854775807 - self.key()) / 9223372036854775808) as usize
    }
}

// Where the codes of a key go in a list that rises: the larger half is passed by or not.
pub(crate) fn goes_by(list: &[u64], key: u64) -> usize
    requires { key ≤ past_keys }
    ensures { (result ≡ keyed list.now key) × (result ≤ length list.now) }
{
    let mut lo = 0;
    let mut n = list.len();
    // Stays: `keyed` is what this halving finds in any list, rising or not; `partition_point` promises that of partitioned lists alone.
    while n > 0 {
        let half = n - n / 2;
        lo = lo + half * Code(list[lo + half - 1]).below(key);
        n = n / 2;
    }
    lo
}

// Whether there is a code at a place, and it is one of a key.
pub(crate) fn is_at(list: &[u64], at: usize, key: u64) -> bool
    ensures { result ≡ Index.is_at list.now at key }
{
    list.get(at).is_some_and(|code| Code(*code).key() == key)
}

// The number of a pair of states, by the codes of all pairs; none if it is none of them.
pub fn place_of(codes: &[u64], left: StateId, right: StateId) -> Option<usize>
    ensures { result ≡ looked codes.now (pair left.0 right.0) }
{
    if right.0 >= 2048 {
        return None;
    }
    let pair = key(left.0, right.0);
    let code = Code(*codes.get(goes_by(codes, pair))?);
    (code.key() == pair).then_some(code.number())
}
