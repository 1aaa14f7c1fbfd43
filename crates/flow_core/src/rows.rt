// The flow run over lent rows: a network is checked, and then run.
ghost use Rattle.flow_core.specs.Outcome;
ghost use Rattle.flow_core.specs.Outcome.{flow_lent, ClaimedLent};
ghost use Rattle.numbers.specs.Refuse.{numbered};
ghost use Rattle.std.specs.Prelude.{◌≡◌};

use crate::{Flow, run};
use flow_check::Course;
use numbers::refusal::Refusal;

// The maximum flow from source to sink; the capacities are left as the run leaves them, and untouched by a refusal.
pub fn max_flow_rows(course: &Course, caps: &mut [f64]) -> Result<Flow, Refusal>
    ensures caps_after { Outcome.ends (numbered result) caps.new ≡ flow_lent course.now caps.old }
    ensures claimed { ClaimedLent course.now caps.old }
{
    if !course.accepts(caps) {
        return Err(Refusal::NetworkOrMasses);
    }
    Ok(run::run(course, caps))
}
