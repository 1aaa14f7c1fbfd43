// From sorted transitions to edges: equal triples joined, zero weights dropped.
ghost use Rattle.std.specs.Prelude.{◌≡◌, ◌≤◌, ◌<◌, ◌∷◌, length};
ghost use Rattle.build_theory.proofs.Steps.{Pushed, Keys, Joined};
ghost use Rattle.build_theory.proofs.Planning.{numbers};

use build_theory::keys::{Key, Triple};

// Edges: the first `len` of two lists that are lent, of triples and of the sum of weights of each.
#[derive(Drop)]
struct Edges<'a> {
    triples: &'a mut [Triple],
    sums: &'a mut [f64],
    len: usize,
}

impl Edges<'_> {
    // The run that ends is one more, unless its sum is zero.
    fn add(&mut self, run: Triple, sum: f64)
        requires { (self.old.len < length self.old.triples.now) × (self.old.len < length self.old.sums.now) }
        ensures lists { (self.new.triples.ghost_name ≡ self.old.triples.ghost_name) × (self.new.sums.ghost_name ≡ self.old.sums.ghost_name) }
        ensures added { Pushed (numbers self.old.triples.now) self.old.sums.now self.old.len run.0 sum (numbers self.new.triples.now) self.new.sums.now self.new.len }
    {
        if sum == 0.0 {
            return;
        }
        self.triples[self.len] = run;
        self.sums[self.len] = sum;
        self.len += 1;
    }

    // Those of sorted keys, of which the first is apart.
    fn join(&mut self, first: Key, rest: &[u64], weights: &[f64])
        requires few { self.old.len ≡ 0 }
        requires keys { Keys (first.0 ∷ rest.now) × (length rest.now < length weights.now) }
        requires room { (length rest.now < length self.old.triples.now) × (length rest.now < length self.old.sums.now) }
        ensures lists { (self.new.triples.ghost_name ≡ self.old.triples.ghost_name) × (self.new.sums.ghost_name ≡ self.old.sums.ghost_name) }
        ensures joined { Joined (first.0 ∷ rest.now) weights.now (numbers self.old.triples.now) self.old.sums.now (numbers self.new.triples.now) self.new.sums.now self.new.len }
    {
        let mut run = first.triple();
        let mut sum = weights[first.at()];
        for number in rest {
            let key = Key(*number);
            let w = weights[key.at()];
            if key.triple() == run {
                sum += w;
            } else {
                self.add(run, sum);
                run = key.triple();
                sum = w;
            }
        }
        self.add(run, sum);
    }
}

// The edges of sorted keys.
pub(crate) fn join_runs(
    keys: &[u64],
    weights: &[f64],
    triples: &mut [Triple],
    sums: &mut [f64],
) -> usize
    requires { Keys keys.now × (length keys.now ≤ length weights.now) × (length keys.now ≤ length triples.old) × (length keys.now ≤ length sums.old) }
    ensures { Joined keys.now weights.now (numbers triples.old) sums.old (numbers triples.new) sums.new result }
{
    let Some((first, rest)) = keys.split_first() else {
        return 0;
    };
    let mut edges = Edges {
        triples,
        sums,
        len: 0,
    };
    edges.join(Key(*first), rest, weights);
    edges.len
}
