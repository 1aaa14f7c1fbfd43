// One step of the search: a walk by labels, and then a push along the whole path, or the rise of a label.
ghost use Rattle.std.specs.Prelude.{◌≡◌, ◌≢◌, true, ℕ, ◌≤◌, ◌<◌, ◌+◌, length, get_or, set};
ghost use Rattle.flow_direct.specs.Lent.{Started, Stepped};

use crate::path::Path;
use crate::search::Search;
use flow_routes::{Step, Stop, remains};

// Target i rises above label g; gives whether none has that label then.
fn rise(labels: &mut [usize], i: usize, g: usize) -> bool
    requires { (i < length labels.old) × (g ≤ 8) }
    ensures { (labels.new ≡ set labels.old i (g + 1)) × (result ≡ true → (j : ℕ) → j < length labels.old → get_or labels.new j 0 ≢ g) }
{
    labels[i] = g + 1;
    !labels.contains(&g)
}

impl Search<'_> {
    // One step from target `start` of s, which has the source's label s.
    pub(crate) fn one_step(&mut self, s: usize, start: usize) -> Step
        requires { Started self.old s start }
        ensures { Stepped self.old s start self.new result }
    {
        let mut path = Path {
            s,
            lefts: [0; 10],
            rights: [0; 10],
        };
        match self.walk(start, &mut path) {
            Stop::Left(g) => {
                if rise(self.labels.lefts, path.lefts[g], g) {
                    Step::Cut
                } else {
                    Step::Risen
                }
            }
            Stop::Right(g) => {
                self.labels.rights[path.rights[g]] = g + 1;
                Step::Risen
            }
            Stop::Sink => {
                let k = path.rights[1];
                if remains(self.rest.rights[k]) {
                    Step::Pushed(self.rest.send(&path))
                } else {
                    self.labels.rights[k] = 2;
                    Step::Risen
                }
            }
        }
    }
}
