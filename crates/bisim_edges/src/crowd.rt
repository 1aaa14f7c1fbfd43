// Check 6: the targets of a state.
ghost use Rattle.std.specs.Prelude.{◌≡◌, ◌||◌, not, ◌≤◌, eqb, length, true, false};
ghost use Rattle.numbers.specs.Real.{is_zero};
ghost use Rattle.build_theory.proofs.Steps.{Keys, Noted, Overfull, Crowded};

use build_theory::keys::Key;
use numbers::seek;

// How many distinct targets other than itself a state may have.
const MOST: usize = 31;

// The distinct targets of a state: the first `count` of a list.
#[derive(Drop)]
struct Seen {
    targets: [u32; MOST],
    count: usize,
}

impl Seen {
    // t joins them, if it is new: whether the list has room for it.
    fn add(&mut self, t: u32) -> bool
        requires { self.old.count ≤ length self.old.targets }
        ensures added { result ≡ true → Noted self.old.targets self.old.count t self.new.targets self.new.count }
        ensures full { result ≡ false → Overfull self.old.targets self.old.count t }
        ensures room { length self.new.targets ≡ length self.old.targets }
    {
        if seek(&self.targets[..self.count], t).is_some() {
            return true;
        }
        if self.count == self.targets.len() {
            return false;
        }
        self.targets[self.count] = t;
        self.count += 1;
        true
    }
}

// Whether a transition has a weight and leads to another state.
fn leads(s: u64, t: u64, w: f64) -> bool
    ensures { result ≡ not (is_zero w || eqb t s) }
{
    w != 0.0 && t != s
}

// 6: whether some state has over 31 distinct targets other than itself, zero weights dropped. `seen` holds those of the state at hand.
pub(crate) fn crowded(keys: &[u64], weights: &[f64]) -> bool
    requires { Keys keys.now × (length keys.now ≤ length weights.now) }
    ensures { Crowded keys.now weights.now result }
{
    let mut seen = Seen {
        targets: [0; MOST],
        count: 0,
    };
    let mut state = 0;
    for number in keys {
        let key = Key(*number);
        let triple = key.triple();
        let s = triple.source();
        let t = triple.target();
        if s != state {
            seen.count = 0;
        }
        state = s;
        if leads(s, u64::from(t), weights[key.at()]) && !seen.add(t) {
            return true;
        }
    }
    false
}
