// The path to the sink, walked back along the links of the search.
ghost use Rattle.flow_check.specs.Lent.{net_on};
ghost use Rattle.transport_theory.proofs.WalkRows.{Walkable, Walked};
ghost use Rattle.std.specs.Prelude.{◌≡◌, ◌+◌, length};

use flow_check::Course;
use flow_theory::reverse;

// Walks back from the sink to the source, along a path with room for one link more than there are nodes: how many links that takes; none if it does not come to the source.
pub(crate) fn walk(course: &Course, via: &[usize], path: &mut [usize]) -> Option<usize>
    requires walkable { Walkable (net_on course.now) via.now path.old }
    requires room { length path.old ≡ course.now.net.nodes + 1 }
    ensures { Walked (net_on course.now) via.now path.new result }
{
    let mut v = course.ends.sink;
    for (length, link) in path.iter_mut().enumerate() {
        if v == course.ends.source {
            return Some(length);
        }
        let e = via[v];
        *link = e;
        v = course.net.heads[reverse(e)] as usize;
    }
    (v == course.ends.source).then_some(path.len())
}
