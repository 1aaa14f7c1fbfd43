// Searches: the first target that has a label and something left.
ghost use Rattle.std.specs.Prelude.{ℕ, ◌≡◌, ◌+◌, ◌*◌, ◌<◌, true, false, length, get_or};
ghost use Rattle.std.specs.Float.Ieee.{lt};
ghost use Rattle.std.specs.Float.{nan};
ghost use Rattle.numbers.specs.Real.{eps};
ghost use Rattle.numbers.specs.Bits.{bit_at};
ghost use Rattle.flow_routes.proofs.Coding.{Found};
ghost use Rattle.std.specs.Option.{MatchOption};
ghost use Rattle.flow_direct.specs.Lent.{Ready};

use crate::give::Rest;
use flow_routes::remains;

// The label of each target: how far it is from the sink at least.
#[derive(Drop)]
pub(crate) struct Labels<'a> {
    pub(crate) lefts: &'a mut [usize],
    pub(crate) rights: &'a mut [usize],
}

// A search for a flow that is enough: what is left, and the labels.
// Stays: with `Ready` as a ghost field, not in each requires, the check says of `one_step` that the borrow checker does not cover it: a `&mut` of a struct in this one is lent there.
#[derive(Drop)]
pub(crate) struct Search<'a> {
    pub(crate) rest: Rest<'a>,
    pub(crate) labels: Labels<'a>,
}

// The first number below n that passes: each is tried, from the last down.
// Stays: by `(0..n).find` relations took 1.22 times as long, with 2 % fewer instructions, and 1.13 times with tests by `&&` (two models of 40 states with 10 jumps each, this code built by rustc): where a search ends is seldom foretold.
fn first<F: Fn(usize) -> bool>(n: usize, test: F) -> Option<usize>
    requires { (j : ℕ) → j < n → F.pre test j }
    ensures { MatchOption result ((k : ℕ) → k < n → F.post test k false) (λ i. (i < n) × F.post test i true × ((k : ℕ) → k < i → F.post test k false)) }
{
    let mut r = n;
    for j in (0..n).rev() {
        r = if test(j) { j } else { r };
    }
    (r < n).then_some(r)
}

impl Search<'_> {
    // The first target of s with this label and rate left.
    pub(crate) fn first_left(&self, want: usize) -> Option<usize>
        requires { Ready self.now }
        ensures { Found (length self.now.rest.test.left.targets.now) (λ j. (lt eps (get_or self.now.rest.lefts.now j nan) ≡ true) × (get_or self.now.labels.lefts.now j 0 ≡ want)) result }
    {
        first(self.rest.test.left.targets.len(), |j| {
            remains(self.rest.lefts[j]) & (self.labels.lefts[j] == want)
        })
    }

    // The first target of t with this label that is related with target i of s.
    pub(crate) fn first_right(&self, i: usize, want: usize) -> Option<usize>
        requires { Ready self.now × (i < length self.now.rest.test.left.targets.now) }
        ensures { Found (length self.now.rest.test.right.targets.now) (λ j. (get_or self.now.labels.rights.now j 0 ≡ want) × (bit_at self.now.rest.test.relation.now (get_or self.now.rest.test.left.targets.now i 0 * self.now.rest.test.states + get_or self.now.rest.test.right.targets.now j 0) ≡ true)) result }
    {
        let test = self.rest.test;
        let targets = test.right.targets;
        let u = test.left.targets[i];
        first(targets.len(), |j| {
            (self.labels.rights[j] == want) & test.related(u, targets[j])
        })
    }

    // The first target of s with this label that has given something to target k of t.
    pub(crate) fn first_back(&self, k: usize, want: usize) -> Option<usize>
        requires { Ready self.now × (k < length self.now.rest.test.right.targets.now) }
        ensures { Found (length self.now.rest.test.left.targets.now) (λ j. (get_or self.now.labels.lefts.now j 0 ≡ want) × (lt eps (get_or self.now.rest.flows.now (j * length self.now.rest.test.right.targets.now + k) nan) ≡ true)) result }
    {
        let width = self.rest.test.right.targets.len();
        first(self.rest.test.left.targets.len(), |j| {
            (self.labels.lefts[j] == want) & remains(self.rest.flows[j * width + k])
        })
    }
}
