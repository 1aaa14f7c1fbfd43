// The search for a flow that is enough: steps until it is, until no path is left, or until too many were made.
ghost use Rattle.std.specs.Prelude.{◌≡◌, ℕ, ◌≤◌, ◌<◌, length, get_or};
ghost use Rattle.std.specs.Float.{nan};
ghost use Rattle.flow_routes.proofs.Reaching.{label_of, Judged};
ghost use Rattle.flow_direct.specs.Lent.{Ready, Sourced, Tried, Settled};

use crate::give::Rest;
use crate::search::{Labels, Search};
use flow_routes::{Reached, Step, remains};
use std::ops::ControlFlow;

const HIGHEST: usize = 8; // the highest label of the source that is tried

// What a step leads to: no flow more after a cut; after a push the flow may be enough; else the search goes on. Where it ends, whether the flow is enough is known or not.
fn after_step(step: Step, so_far: Reached, need: f64) -> ControlFlow<Option<bool>, Reached>
    ensures { Judged need so_far step result }
{
    match step {
        Step::Cut => ControlFlow::Break(Some(false)),
        Step::Risen => ControlFlow::Continue(so_far),
        Step::Pushed(x) => {
            let flow = so_far.flow + x;
            if need <= flow {
                ControlFlow::Break(Some(true))
            } else {
                ControlFlow::Continue(Reached { flow, ..so_far })
            }
        }
    }
}

// After how many tries the search gives up: between rows of over 14 targets a run on a network is soon the quicker way.
fn tries_of(m: usize, n: usize) -> usize
    ensures { result ≤ 100 }
{
    if m > 14 || n > 14 { 4 } else { 100 }
}

// One label where something is left, else another.
fn label_of(x: f64, some: usize, none: usize) -> usize
    ensures { result ≡ label_of some none x }
{
    if remains(x) { some } else { none }
}

// A label for each of these rates.
// Stays: of a list that is written through a zip the check knows the length alone afterwards.
fn label_all(rates: &[f64], some: usize, none: usize, labels: &mut [usize])
    requires { length rates.now ≡ length labels.old }
    ensures { (length labels.new ≡ length labels.old) × ((k : ℕ) → k < length rates.now → get_or labels.new k 0 ≡ label_of some none (get_or rates.now k nan)) }
{
    for (k, label) in labels.iter_mut().enumerate() {
        *label = label_of(rates[k], some, none);
    }
}

impl Labels<'_> {
    // The first labels: a target of s with rate left is a step farther from the sink, and so is a target of t without.
    pub(crate) fn begin(&mut self, rest: &Rest)
        requires { (length rest.now.lefts.now ≡ length self.old.lefts.now) × (length rest.now.rights.now ≡ length self.old.rights.now) }
        ensures lefts { (length self.new.lefts.now ≡ length self.old.lefts.now) × ((i : ℕ) → i < length rest.now.lefts.now → get_or self.new.lefts.now i 0 ≡ label_of 2 1 (get_or rest.now.lefts.now i nan)) }
        ensures rights { (length self.new.rights.now ≡ length self.old.rights.now) × ((k : ℕ) → k < length rest.now.rights.now → get_or self.new.rights.now k 0 ≡ label_of 1 2 (get_or rest.now.rights.now k nan)) }
    {
        label_all(rest.lefts, 2, 1, self.lefts);
        label_all(rest.rights, 1, 2, self.rights);
    }
}

impl Search<'_> {
    // The rise of the source's label, or one step.
    fn try_once(&mut self, so_far: Reached, need: f64) -> ControlFlow<Option<bool>, Reached>
        requires { Sourced self.old so_far.label }
        ensures { Tried need self.old so_far self.new result }
    {
        match self.first_left(so_far.label) {
            Some(start) => {
                let step = self.one_step(so_far.label, start);
                after_step(step, so_far, need)
            }
            None if so_far.label < HIGHEST => ControlFlow::Continue(Reached {
                label: so_far.label + 1,
                ..so_far
            }),
            None => ControlFlow::Break(None),
        }
    }

    // Tries until one ends the search.
    pub(crate) fn settle(&mut self, before: f64, need: f64) -> Option<bool>
        requires { Ready self.old }
        ensures { Settled need self.old before result }
    {
        let mut so_far = Reached {
            label: 2,
            flow: before,
        };
        let test = self.rest.test;
        let most = tries_of(test.left.targets.len(), test.right.targets.len());
        for _ in 0..most {
            match self.try_once(so_far, need) {
                ControlFlow::Continue(next) => so_far = next,
                ControlFlow::Break(known) => return known,
            }
        }
        None
    }
}
