// The first pushes: each target of s in turn gives to each target of t in turn that is related with it, as much as both have left.
ghost use Rattle.std.specs.Prelude.{◌≡◌, ℕ, ◌+◌, ◌≤◌, ◌<◌, length, get_or, set, false};
ghost use Rattle.std.specs.Float.{binary64, nan};
ghost use Rattle.std.specs.Float.Ieee.{add, sub, le};
ghost use Rattle.numbers.specs.Real.{nought};
ghost use Rattle.numbers.specs.Choice;
ghost use Rattle.flow_routes.proofs.Coding.{Shut};
ghost use Rattle.flow_direct.specs.Lent.{Room, Giving};

use flow_links::rows::Test;
use flow_routes::remains;
use numbers::smaller;

// A flow test, what each target of s and of t has left of its rate, and what was given so far: entry i * n + k says how much target i of s gave to target k of the n of t.
#[derive(Drop)]
pub(crate) struct Rest<'a> {
    pub(crate) test: Test<'a>,
    pub(crate) lefts: &'a mut [f64],
    pub(crate) rights: &'a mut [f64],
    pub(crate) flows: &'a mut [f64],
}

impl Rest<'_> {
    // Target i of s gives to target k of t as much as both have left, and entry e counts it; gives how much.
    fn give(&mut self, i: usize, k: usize, e: usize) -> f64
        requires { (i < length self.old.lefts.now) × (k < length self.old.rights.now) × (e < length self.old.flows.now) }
        ensures { (result ≡ Choice.smaller (get_or self.old.lefts.now i nan) (get_or self.old.rights.now k nan)) × (self.new.lefts.now ≡ set self.old.lefts.now i (sub binary64 (get_or self.old.lefts.now i nan) result)) × (self.new.rights.now ≡ set self.old.rights.now k (sub binary64 (get_or self.old.rights.now k nan) result)) × (self.new.flows.now ≡ set self.old.flows.now e (add binary64 (get_or self.old.flows.now e nan) result)) × (self.new.test ≡ self.old.test) }
    {
        let x = smaller(self.lefts[i], self.rights[k]);
        self.lefts[i] -= x;
        self.rights[k] -= x;
        self.flows[e] += x;
        x
    }

    // Up to which target of t nothing is left, `from` at least.
    fn first_open(&self, from: usize) -> usize
        requires { Shut from self.now.rights.now }
        ensures { Shut result self.now.rights.now }
    {
        let n = self.rights.len();
        (from..n).find(|k| remains(self.rights[*k])).unwrap_or(n)
    }

    // Target i of s gives to each target of t from `from` on, those before having nothing left; gives the flow then.
    fn give_row(&mut self, i: usize, from: usize, before: f64) -> f64
        requires { Room self.old × (i < length self.old.test.left.targets.now) × Shut from self.old.rights.now }
        ensures { Shut from self.new.rights.now × Giving self.old before i self.new result (i + 1) 0 }
    {
        let test = self.test; // a copy: what is lent is read again after each push
        let targets = test.right.targets;
        let u = test.left.targets[i];
        let mut total = before;
        for k in from..targets.len() {
            if !remains(self.lefts[i]) {
                return total;
            }
            if remains(self.rights[k]) && test.related(u, targets[k]) {
                total += self.give(i, k, i * targets.len() + k);
            }
        }
        total
    }

    // Each target of s in turn, until the flow is enough; gives the flow then.
    pub(crate) fn give_rows(&mut self, need: f64) -> f64
        requires { Room self.old }
        ensures { (i : ℕ) × (le need result ≡ false → length self.old.test.left.targets.now ≤ i) × Giving self.old nought 0 self.new result i 0 }
    {
        let mut total = 0.0;
        let mut from: usize = 0;
        for i in 0..self.test.left.targets.len() {
            total = self.give_row(i, from, total);
            if need <= total {
                return total;
            }
            from = self.first_open(from);
        }
        total
    }
}
