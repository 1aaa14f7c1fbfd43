// Phases, and the whole run.
ghost use Rattle.flow_check.specs.Lent.{net_on};
ghost use Rattle.flow_theory.proofs.RunRows.{PhaseRan, RoundRan, Ran};
ghost use Rattle.flow_theory.specs.Run.{max_flow};
ghost use Rattle.flow_core.specs.Steps.{CourseRunnable, PhaseOpen};

use crate::augment::Phase;
use crate::levels::UNSET;
use crate::{Flow, augment, levels};
use flow_check::Course;
use flow_theory::AfterPhase;
use numbers::EPS;

// A phase: pushes until no path is left.
fn blocking_flow(phase: &Phase, caps: &mut [f64], next: &mut [usize], before: f64) -> AfterPhase
    requires { PhaseOpen phase.now caps.old next.old }
    ensures { PhaseRan (net_on phase.now.course) phase.now.level.now before caps.old result caps.new }
{
    let mut flow = before;
    let mut count: usize = 0;
    let mut path = [0usize; 66];
    loop {
        let x = augment::augment(phase, caps, next, &mut path);
        if x <= EPS {
            return AfterPhase { flow, count };
        }
        flow += x;
        count += 1;
    }
}

// A round: the levels, and a phase where they reach the sink.
fn one_round(course: &Course, caps: &mut [f64], before: f64) -> Option<AfterPhase>
    requires { CourseRunnable course.now caps.old }
    ensures { RoundRan (net_on course.now) before caps.old result caps.new }
{
    let mut levels = [UNSET; 66];
    let level = &mut levels[..course.net.nodes];
    levels::levels(course, caps, level);
    if level[course.ends.sink] == UNSET {
        return None;
    }
    let mut marks = [0usize; 66];
    let next = &mut marks[..course.net.nodes];
    let phase = Phase {
        course: *course,
        level,
    };
    Some(blocking_flow(&phase, caps, next, before))
}

// The whole run: rounds until the levels do not reach the sink.
pub(crate) fn run(course: &Course, caps: &mut [f64]) -> Flow
    requires { CourseRunnable course.now caps.old }
    ensures { Ran (max_flow (net_on course.now) caps.old) result.flow result.phases result.pushes caps.new }
{
    let mut flow = 0.0;
    let mut phases: usize = 0;
    let mut pushes: usize = 0;
    while let Some(p) = one_round(course, caps, flow) {
        flow = p.flow;
        phases += 1;
        pushes += p.count;
    }
    Flow {
        flow,
        phases,
        pushes,
    }
}
