// Whether the flow of a flow test is enough.
ghost use Rattle.std.specs.Prelude.{◌≡◌, true, ℕ, ◌≤◌, ◌<◌, ◌*◌, length, get_or, Float, Option};
ghost use Rattle.std.specs.Option.{MatchOption};
ghost use Rattle.std.specs.Float.{nan};
ghost use Rattle.numbers.specs.Real.{nought};
ghost use Rattle.numbers.specs.Refuse.{numbered};
ghost use Rattle.flow_links.specs.Lent.{test_fits};
ghost use Rattle.flow_links.proofs.Fitting.{TestFit};
ghost use Rattle.flow_direct.specs.Lent.{Told};
ghost use Rattle.flow_direct.specs.Reaches.{at_least, test_reaches, test_lacks, Known};

use crate::give::Rest;
use crate::search::{Labels, Search};
use flow_core::Flow;
use flow_links::rows::Test;
use numbers::refusal::Refusal;

// Whether an answer is a flow that is enough.
pub fn enough(answer: Result<Flow, Refusal>, need: f64) -> bool
    ensures { result ≡ at_least need (numbered answer) }
{
    answer.is_ok_and(|f| need <= f.flow)
}

// The first pushes, and the search where they are not enough, with room lent for each pair of targets.
fn reach_in(test: &Test, need: f64, flows: &mut [f64]) -> Option<bool>
    requires { TestFit test.now × (length test.now.left.targets.now * length test.now.right.targets.now ≤ length flows.old) × ((j : ℕ) → j < length flows.old → get_or flows.old j nan ≡ nought) }
    ensures { Told test.now need result }
{
    let mut lefts = [0.0f64; 31];
    let mut rights = [0.0f64; 31];
    let mut rest = Rest {
        test: *test,
        lefts: &mut lefts[..test.left.rates.len()],
        rights: &mut rights[..test.right.rates.len()],
        flows,
    };
    rest.lefts.copy_from_slice(test.left.rates);
    rest.rights.copy_from_slice(test.right.rates);
    let total = rest.give_rows(need);
    if need <= total {
        return Some(true);
    }
    let mut left_labels = [1usize; 31];
    let mut right_labels = [1usize; 31];
    let mut labels = Labels {
        lefts: &mut left_labels[..test.left.targets.len()],
        rights: &mut right_labels[..test.right.targets.len()],
    };
    labels.begin(&rest);
    let mut search = Search { rest, labels };
    search.settle(total, need)
}

// The same, with room for N pairs of targets.
fn reach_in_room<const N: usize>(test: &Test, need: f64) -> Option<bool>
    requires { TestFit test.now × (length test.now.left.targets.now * length test.now.right.targets.now ≤ N) × (N ≤ 961) }
    ensures { Told test.now need result }
{
    let mut flows = [0.0f64; N];
    reach_in(test, need, &mut flows)
}

// What is known of a flow test whose rows fit, without a network.
fn reach(test: &Test, need: f64) -> Option<bool>
    requires { TestFit test.now }
    ensures { Told test.now need result }
{
    let most = test.left.targets.len().max(test.right.targets.len());
    if most <= 8 {
        return reach_in_room::<64>(test, need);
    }
    if most <= 12 {
        return reach_in_room::<144>(test, need);
    }
    reach_in_room::<961>(test, need)
}

// Whether the flow of a flow test is at least what is needed, where that is known without a network. It is known where the flow after the first phase of the run is enough.
// It is not enough where a row has over 31 targets, or not one rate from 0 to 2^40 for each, or where the relation is over more than 2,000 states.
pub fn verdict(test: &Test, need: f64) -> Option<bool>
    ensures { MatchOption result (test_lacks test.now need ≡ true) (λ passes. passes ≡ test_reaches test.now need) }
{
    if !test.fits() {
        return Some(false);
    }
    reach(test, need)
}

// What is known without a network of a flow test and the one back: whether both pass; or that the flow of the first is at least what is called plenty, if any is; or that the first passes, and no more; or nothing.
// Where nothing is known, the flow of the first is not enough after the first phase of its run; where no more than that the first passes, the flow back is not.
#[derive(Clone, Copy, Debug, PartialEq, Eq)]
pub enum Ways {
    Both(bool),
    Plenty,
    Forth,
    Unknown,
}

// The same of a test that fits, but for plenty. The flow back is looked at only where the other is known to be enough.
fn each_way(test: &Test, need: f64) -> Ways
    requires { test_fits test.now ≡ true }
    ensures { (plenty : Option Float) → Known test.now need plenty result }
{
    match reach(test, need) {
        None => Ways::Unknown,
        Some(false) => Ways::Both(false),
        Some(true) => match reach(&test.back(), need) {
            None => Ways::Forth,
            Some(passes) => Ways::Both(passes),
        },
    }
}

// The same of any test, with one check of the rows. A plenty is asked for only where it is no less than what is needed.
pub fn both_ways(test: &Test, need: f64, plenty: Option<f64>) -> Ways
    ensures { Known test.now need plenty result }
{
    if !test.fits() {
        return Ways::Both(false);
    }
    match plenty {
        Some(most) if need <= most && reach(test, most) == Some(true) => Ways::Plenty,
        _ => each_way(test, need),
    }
}
