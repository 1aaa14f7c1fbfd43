// Discovery: the pairs that follow a pair are met one after the other, from a first pair on.
ghost use Rattle.std.specs.Prelude.{◌≡◌, true, [], ◌∷◌, map, ◌≤◌, length, take};
ghost use Rattle.numbers.specs.Refuse.{numbered};
ghost use Rattle.chain_theory.specs.Lent.{of_chain};
ghost use Rattle.distance_theory.specs.Lent.{SamePairs};
ghost use Rattle.distance_theory.specs.Pairs.{pair};
ghost use Rattle.distance_theory.proofs.Discovery.{Noting, Meets, Over, crossing, row_in, Rowed, ExplorableIn, ExploresIn, discoverable_in, discovered_as, found_as, found_in, CountLeft};
ghost use Rattle.distance_theory.proofs.Discovery;
ghost use Rattle.distance_theory.proofs.Index.{keyed, past_keys};
ghost use Rattle.distance_theory.proofs.Index;

use crate::index::{Code, goes_by, is_at, key};
use chain_check::shape::misshapen;
use chain_theory::Chain;
use distance_theory::lent::PairsMut;
use distance_theory::long;
use numbers::refusal::Refusal;
use parts::rates::insert;

// Where the codes of a key go among those of the pairs so far.
fn goes(pairs: &PairsMut, key: u64) -> usize
    requires { (key ≤ past_keys) × (pairs.now.count ≤ length pairs.now.codes.now) }
    ensures { (result ≡ keyed (take pairs.now.count pairs.now.codes.now) key) × (result ≤ pairs.now.count) }
{
    goes_by(&pairs.codes[..pairs.count], key)
}

// Whether the code at a place is one of a key.
fn known(pairs: &PairsMut, at: usize, key: u64) -> bool
    requires { pairs.now.count ≤ length pairs.now.codes.now }
    ensures { result ≡ Index.is_at (take pairs.now.count pairs.now.codes.now) at key }
{
    is_at(&pairs.codes[..pairs.count], at, key)
}

// A pair is met: it is known, or the next one. Turned back by 17 where it is pair 4,097, which is not noted.
fn meet(pairs: &mut PairsMut, x: u32, y: u32) -> Result<(), Refusal>
    requires { Noting pairs.old }
    ensures lists { SamePairs pairs.old pairs.new }
    ensures met { Meets (pair x y ∷ []) result pairs.old pairs.new }
{
    let pair = key(x, y);
    let n = pairs.count;
    let at = goes(pairs, pair);
    if known(pairs, at, pair) {
        return Ok(());
    }
    if n >= 4096 {
        return Err(Refusal::Pairs);
    }
    insert(pairs.codes, at, n, Code::new(x, y, n).0);
    pairs.lefts[n] = x;
    pairs.rights[n] = y;
    pairs.count = n + 1;
    Ok(())
}

// State x with each of a row.
fn meet_row(pairs: &mut PairsMut, x: u32, ys: &[u32]) -> Result<(), Refusal>
    requires { Noting pairs.old }
    ensures lists { SamePairs pairs.old pairs.new }
    ensures met { Meets (map (pair x) ys.now) result pairs.old pairs.new }
{
    for y in ys {
        meet(pairs, x, *y)?;
    }
    Ok(())
}

// Each state of one row with each of another.
fn meet_rows(pairs: &mut PairsMut, xs: &[u32], ys: &[u32]) -> Result<(), Refusal>
    requires { Noting pairs.old }
    ensures lists { SamePairs pairs.old pairs.new }
    ensures met { Meets (crossing xs.now ys.now) result pairs.old pairs.new }
{
    for x in xs {
        meet_row(pairs, *x, ys)?;
    }
    Ok(())
}

// The targets of a state.
// Stays: `Chain::row` reads the probabilities too and answers an Option; here offsets and targets are known to be there, so that it would bring a refusal that can't come.
fn row<'a>(chain: &Chain<'a>, x: usize) -> &'a [u32]
    requires { Rowed chain.now.offsets.now chain.now.targets.now x }
    ensures { result.now ≡ row_in chain.now.offsets.now chain.now.targets.now x }
{
    &chain.targets[chain.offsets[x] as usize..chain.offsets[x + 1] as usize]
}

// Discovery from the first pair on, which is noted.
fn discover_in(left: &Chain, right: &Chain, pairs: &mut PairsMut) -> Result<(), Refusal>
    requires lists { (pairs.old.count ≡ 1) × Noting pairs.old }
    requires explorable { ExplorableIn left.now right.now pairs.old }
    ensures lists { SamePairs pairs.old pairs.new }
    ensures explores { Over result pairs.new × (pairs.new.count ≤ 4096) × ExploresIn left.now right.now pairs.old result pairs.new }
{
    let mut i = 0;
    // Stays: the list grows while it is walked, which a `for` over it or over its length can't do.
    while i < pairs.count {
        let x = pairs.lefts[i] as usize;
        let y = pairs.rights[i] as usize;
        meet_rows(pairs, row(left, x), row(right, y))?;
        i += 1;
    }
    Ok(())
}

// Columns as check 4 wants them, of at most 2,000 states.
pub fn readable(chain: &Chain) -> bool
    ensures { result ≡ Discovery.readable chain.now.shape (of_chain chain.now) }
{
    chain.shape.states <= 2000 && !misshapen(chain)
}

// Room for 4,096 pairs.
pub fn roomy(pairs: &PairsMut) -> bool
    ensures { result ≡ Discovery.long (length pairs.now.lefts.now) (length pairs.now.rights.now) (length pairs.now.codes.now) }
{
    long(
        4096,
        &[pairs.lefts.len(), pairs.rights.len(), pairs.codes.len()],
    )
}

// The first pair is noted, and all that are met from it on.
fn discover(left: &Chain, right: &Chain, pairs: &mut PairsMut) -> Result<(), Refusal>
    requires { discoverable_in left.now right.now pairs.old ≡ true }
    ensures lists { SamePairs pairs.old pairs.new }
    ensures discovered { Over result pairs.new × (discovered_as result pairs.new ≡ Discovery.discover_in left.now right.now pairs.old) }
    ensures few { pairs.new.count ≤ 4096 }
{
    let left_state = left.shape.initial.0;
    let right_state = right.shape.initial.0;
    pairs.lefts[0] = left_state;
    pairs.rights[0] = right_state;
    pairs.codes[0] = Code::new(left_state, right_state, 0).0;
    pairs.count = 1;
    discover_in(left, right, pairs)
}

// The pairs of states that are met from the initial ones on, in the order of their discovery: left and right states, and their index. How many there are; 17 where there are more than 4,096, of which the first 4,096 are listed then.
// 4 where the chains are not as check 4 wants them, have over 2,000 states, or a list is short: the lists are then as they were.
// Stays: with a struct `Chains` of both, here and in `Question` and `Task`, five functions would have a parameter less, but the four that make a `Question` would make a `Chains` in it, and ten reads of a chain, eight clauses and the words over both structs would go by `.chains`.
pub fn discover_from(left: &Chain, right: &Chain, pairs: &mut PairsMut) -> Result<usize, Refusal>
    ensures lists { SamePairs pairs.old pairs.new }
    ensures found { found_as (numbered result) pairs.new ≡ found_in (Discovery.discover_in left.now right.now pairs.old) }
    ensures count { CountLeft result pairs.old pairs.new }
{
    if !roomy(pairs) || !readable(left) || !readable(right) {
        return Err(Refusal::OutOfRange);
    }
    discover(left, right, pairs)?;
    Ok(pairs.count)
}
