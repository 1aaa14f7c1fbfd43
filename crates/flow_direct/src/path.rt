// A path by labels, from the source down to label 1 and the sink, and the push of the least that is left on it.
ghost use Rattle.std.specs.Prelude.{◌≡◌, ◌≤◌, ◌<◌, ◌+◌, ◌*◌, get_or};
ghost use Rattle.flow_direct.specs.Lent.{Along, Started, LeastIs, Sends, Stopped};

use crate::give::Rest;
use crate::search::Search;
use flow_routes::Stop;
use numbers::smaller;

// A path from label s of the source down: the targets of s and of t that it goes by, at their labels.
// Stays: the definition's path has two lists; of one array of pairs the words of Lent (`Placed`, `LeastIs`, `Sends`, `Stopped`) would speak of two maps, and `entry`, whose labels differ, would read `steps[h].0 * width + steps[k].1`, half of each pair.
#[derive(Clone, Copy)]
pub(crate) struct Path {
    pub(crate) s: usize,
    pub(crate) lefts: [usize; 10],
    pub(crate) rights: [usize; 10],
}

impl Path {
    // The entry of the targets at labels h of s and k of t.
    fn entry(&self, h: usize, k: usize, width: usize) -> usize
        requires { (h < 10) × (k < 10) × (width ≤ 31) × (get_or self.now.lefts h 0 ≤ 31) × (get_or self.now.rights k 0 ≤ 31) }
        ensures { result ≡ get_or self.now.lefts h 0 * width + get_or self.now.rights k 0 }
    {
        self.lefts[h] * width + self.rights[k]
    }
}

impl Search<'_> {
    // Walks from target `start` of s, which has the label of the path, along the first link that falls, as far as there is one.
    pub(crate) fn walk(&self, start: usize, path: &mut Path) -> Stop
        requires { Started self.now path.old.s start }
        ensures { (path.new.s ≡ path.old.s) × Stopped self.now path.old.s start path.new result }
    {
        path.lefts[path.s] = start;
        let Some(k) = self.first_right(path.lefts[path.s], path.s) else {
            return Stop::Left(path.s);
        };
        path.rights[path.s] = k;
        for g in (1..path.s).rev() {
            let Some(j) = self.first_back(path.rights[g + 1], g) else {
                return Stop::Right(g + 1);
            };
            path.lefts[g] = j;
            let Some(k) = self.first_right(path.lefts[g], g) else {
                return Stop::Left(g);
            };
            path.rights[g] = k;
        }
        Stop::Sink
    }
}

impl Rest<'_> {
    // The least that is left on a whole path.
    pub(crate) fn least(&self, path: &Path) -> f64
        requires { Along self.now path.now }
        ensures { LeastIs self.now path.now result }
    {
        let width = self.test.right.targets.len();
        let mut x = self.lefts[path.lefts[path.s]];
        for g in (1..path.s).rev() {
            let e = path.entry(g, g + 1, width);
            x = smaller(x, self.flows[e]);
        }
        smaller(x, self.rights[path.rights[1]])
    }

    // Pushes x along a whole path.
    pub(crate) fn push(&mut self, path: &Path, x: f64)
        requires { Along self.old path.now }
        ensures { Sends self.old path.now x self.new }
    {
        let width = self.test.right.targets.len();
        for g in (1..path.s).rev() {
            let forth = path.entry(g + 1, g + 1, width);
            let back = path.entry(g, g + 1, width);
            self.flows[forth] += x;
            self.flows[back] -= x;
        }
        let last = path.entry(1, 1, width);
        self.flows[last] += x;
        self.lefts[path.lefts[path.s]] -= x;
        self.rights[path.rights[1]] -= x;
    }

    // Pushes the least that is left on a whole path along it; gives how much.
    pub(crate) fn send(&mut self, path: &Path) -> f64
        requires { Along self.old path.now }
        ensures { LeastIs self.old path.now result × Sends self.old path.now result self.new }
    {
        let x = self.least(path);
        self.push(path, x);
        x
    }
}
