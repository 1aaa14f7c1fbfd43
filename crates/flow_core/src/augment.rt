// One path along links to the next level, and the push along it.
ghost use Rattle.flow_check.specs.Lent.{net_on};
ghost use Rattle.flow_theory.proofs.PathRows.{Seekable, Found, Routed};
ghost use Rattle.flow_core.specs.Steps.{PhaseWalkable, walked};
ghost use Rattle.std.specs.Prelude.{◌≡◌};
ghost use Rattle.flow_theory.specs.Augment;
ghost use Rattle.flow_theory.specs.Augment.{Pushed};

use flow_check::Course;
use flow_theory::{path, reverse};
use numbers::{EPS, infinity};

// What stays in a phase: what stays in the run, and the levels.
#[derive(Clone, Copy)]
pub(crate) struct Phase<'a> {
    pub course: Course<'a>,
    pub level: &'a [usize],
}

// The place in a row of links of the first one that has capacity left and leads to the level `want`.
fn seek(phase: &Phase, caps: &[f64], row: &[u32], want: usize) -> Option<usize>
    requires { Seekable phase.now.course.net.heads.now row.now caps.now phase.now.level.now }
    ensures { Found phase.now.course.net.heads.now row.now caps.now phase.now.level.now want result }
{
    for (k, link) in row.iter().enumerate() {
        let e = *link as usize;
        let v = phase.course.net.heads[e] as usize;
        if caps[e] > EPS && phase.level[v] == want {
            return Some(k);
        }
    }
    None
}

// Finds a path from the source along links to the next level, each node from its mark on, if there is one: how many links it has, which are the first of `path`, the last one last.
// Stays: a row lent beside a count. With both in a struct that is given back, each push copies 67 words, and the count stays in memory: `flow_31_sparse` takes 3.26 us instead of 2.33.
fn walk(phase: &Phase, caps: &[f64], next: &mut [usize], path: &mut [usize; 66]) -> Option<usize>
    requires { PhaseWalkable phase.now caps.now next.old }
    ensures { Routed result path.new next.new (walked phase.now caps.now next.old) }
{
    let net = &phase.course.net;
    let mut len: usize = 0;
    let mut u = phase.course.ends.source;
    while u != phase.course.ends.sink {
        let links = net.leaving(u);
        let at = next[u];
        if at < links.len() {
            let row = &links[at..];
            match seek(phase, caps, row, len + 1) {
                Some(k) => {
                    next[u] = at + k;
                    let e = row[k] as usize;
                    path[len] = e;
                    len += 1;
                    u = net.heads[e] as usize;
                }
                None => next[u] = links.len(),
            }
        } else {
            if len == 0 {
                return None;
            }
            len -= 1;
            let e = path[len];
            u = net.heads[reverse(e)] as usize;
            next[u] += 1;
        }
    }
    Some(len)
}

// One path, and the push of its least capacity; gives what was pushed, 0 where no path is left. What `path` holds is of no use before or after.
// Stays: 0 for no path, as the definition has it. Of an Option the phase would ask `is_none_or(|x| x <= EPS)`, since a push of so little ends it as well, and this contract would turn None into the definition's 0 again.
pub(crate) fn augment(
    phase: &Phase,
    caps: &mut [f64],
    next: &mut [usize],
    path: &mut [usize; 66],
) -> f64
    requires { PhaseWalkable phase.now caps.old next.old }
    ensures { ◌≡◌ {A = Pushed} (record { amount = result; cap = caps.new; next = next.new }) (Augment.augment (net_on phase.now.course) caps.old phase.now.level.now next.old) }
{
    let Some(len) = walk(phase, caps, next, path) else {
        return 0.0;
    };
    let links = &path[..len];
    let x = path::least(caps, links, infinity());
    path::push_path(caps, links, x);
    x
}
