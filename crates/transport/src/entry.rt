// `transport`.
ghost use Rattle.transport.specs.Moving.{Moved, Ends, outcome_of, sized_outcome_of};
ghost use Rattle.std.specs.Prelude.{◌≡◌};
ghost use Rattle.transport.specs.Lent.{same_columns, Planable, refused_size};
ghost use Rattle.transport.specs.Network.{network_after};

use crate::bench::Bench;
use crate::plan::{Plan, PlanRows};
use crate::{check, whole};
use numbers::refusal::Refusal;
use transport_theory::Masses;

// At most 8 masses on a side take less work space. No network is made here: its 61 KB would be cleared for each call.
fn planned(of: &Masses, plan: &mut PlanRows) -> Plan
    requires { Planable of.now plan.old }
    ensures transported { Moved of.now plan.old result plan.new }
    ensures same { same_columns plan.old plan.new }
{
    if of.left.len() <= 8 && of.right.len() <= 8 {
        return whole::transport_with::<160>(of, plan);
    }
    whole::transport_with::<2176>(of, plan)
}

// What it costs to move the masses on the left to those on the right, and how, by successive shortest paths. The plan's cells go into the lent columns. A refusal leaves these as they were.
pub fn transport(of: &Masses, plan: &mut PlanRows) -> Result<Plan, Refusal>
    ensures ends { Ends (outcome_of of.now plan.old) result plan.new }
    ensures same { same_columns plan.old plan.new }
{
    check::refusal(of, plan)?;
    Ok(planned(of, plan))
}

// The same with any masses and costs, as `distance` has them, on work space that is lent: only sizes are checked.
pub fn transport_sized(of: &Masses, plan: &mut PlanRows, bench: &mut Bench) -> Result<Plan, Refusal>
    ensures ends { Ends (sized_outcome_of of.now plan.old) result plan.new }
    ensures same { same_columns plan.old plan.new }
    ensures network { bench.new.net ≡ network_after (refused_size of.now plan.old) of.now bench.old.net }
{
    check::size_refusal(of, plan)?;
    Ok(bench.carry(of, plan))
}
