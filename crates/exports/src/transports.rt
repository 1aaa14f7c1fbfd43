// `transport` of two lists of masses for C and Rust.
ghost use Rattle.std.specs.Prelude.{◌≡◌, length};
ghost use Rattle.transport_theory.specs.Refusal.{costs_fit};
ghost use Rattle.transport.specs.Outcome.{transport_on};
ghost use Rattle.replies.specs.Transports.{told, leaves, planned};

use numbers::refusal::code;
use replies::answers;
use transport::entry;
use transport::plan::PlanRows;
use transport_theory::Masses;

// The plan between masses a and b under the costs, one for each pair in row order: its cells go into the columns, its cost and its number of cells behind the references. A refusal leaves all these as they were.
#[unsafe(no_mangle)]
pub extern "C" fn tanqesha_transport(
    a: &[f64],
    b: &[f64],
    costs: &[f64],
    plan_rows: &mut [u32],
    plan_columns: &mut [u32],
    plan_masses: &mut [f64],
    total: &mut f64,
    cells: &mut usize,
) -> u32
    ensures { leaves (told result total.new cells.new) plan_rows.new plan_columns.new plan_masses.new
        ≡ planned (transport_on (costs_fit (length a.now) (length b.now) costs.now) a.now b.now costs.now
        plan_rows.old plan_columns.old plan_masses.old) total.old cells.old }
{
    let of = Masses {
        left: a,
        right: b,
        costs,
    };
    let mut plan = PlanRows {
        rows: plan_rows,
        columns: plan_columns,
        masses: plan_masses,
    };
    let answer = entry::transport(&of, &mut plan);
    code(&answers::put_pair(answer.map(|plan| (plan.total, plan.cells)), total, cells))
}
