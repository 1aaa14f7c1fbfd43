// Rounds: a shortest path each, and the push along it.
ghost use Rattle.flow_check.specs.Lent.{net_on};
ghost use Rattle.transport_theory.proofs.RoundRows.{roads_on, shipment, CourseSailable, RoundReady, Movable, Moved, Turned, Shipped};
ghost use Rattle.transport_theory.specs.Transport.{rounds};

use crate::path::walk;
use crate::search::{Tree, search};
use flow_check::Course;
use flow_theory::path::{least, push_path};
use numbers::{EPS, infinity};

// Walks back to the source, and pushes the least of what remains and the capacities on the path: gives what remains then. None where the path does not come from the source, or there is too little.
fn push_back(course: &Course, caps: &mut [f64], via: &[usize], remaining: f64) -> Option<f64>
    requires { Movable (net_on course.now) via.now caps.old }
    ensures { Moved (net_on course.now) via.now caps.old remaining result caps.new }
{
    let mut links = [0usize; 67];
    let path = &mut links[..course.net.nodes + 1];
    let length = walk(course, via, path)?;
    let x = least(caps, &path[..length], remaining);
    if x <= EPS {
        return None;
    }
    push_path(caps, &path[..length], x);
    Some(remaining - x)
}

// The search, and the push where the sink is reached: gives what remains then.
fn round_in(course: &Course, caps: &mut [f64], tree: &mut Tree, remaining: f64) -> Option<f64>
    requires { RoundReady (roads_on course.now) course.now.net.starts.now course.now.net.list.now caps.old tree.old.dist.now tree.old.via.now }
    ensures { Turned (roads_on course.now) caps.old remaining result caps.new }
{
    tree.dist[course.ends.source] = 0.0;
    search(&course.net, caps, tree);
    if tree.dist[course.ends.sink].is_infinite() {
        return None;
    }
    push_back(course, caps, tree.via, remaining)
}

// A round, in which distances and links are made afresh, the links leading nowhere: gives what remains then, none where nothing was pushed.
// Stays: usize::MAX for no link. It is never read, but the definition's tree begins with its `unset`, and a definition's meaning may not change.
fn one_round(course: &Course, caps: &mut [f64], remaining: f64) -> Option<f64>
    requires { CourseSailable course.now caps.old }
    ensures { Turned (roads_on course.now) caps.old remaining result caps.new }
{
    let far = infinity();
    let nodes = course.net.nodes;
    let mut dist = [far; 66];
    let mut via = [usize::MAX; 66];
    let mut tree = Tree {
        dist: &mut dist[..nodes],
        via: &mut via[..nodes],
    };
    round_in(course, caps, &mut tree, remaining)
}

// At most so many rounds, while more than `much` remains; gives what remains then.
pub(crate) fn ship(course: &Course, caps: &mut [f64], start: f64, much: f64, most: usize) -> f64
    requires { CourseSailable course.now caps.old }
    ensures { Shipped (rounds (roads_on course.now) much most (shipment caps.old start 0)) result caps.new }
{
    let mut remaining = start;
    for _ in 0..most {
        if !(remaining > much) {
            return remaining;
        }
        let Some(left) = one_round(course, caps, remaining) else {
            return remaining;
        };
        remaining = left;
    }
    remaining
}
