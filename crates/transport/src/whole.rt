// The whole of `transport` below the checks: the links in rows, the rounds, the plan.
ghost use Rattle.std.specs.Prelude.{◌+◌, ◌*◌, ◌≤◌, length};
ghost use Rattle.transport.specs.Moving.{Moved};
ghost use Rattle.transport.specs.Lent.{same_columns, Planable, Carried, Loadable};

use crate::plan::{Plan, PlanRows, write_plan};
use transport_core::rows::{Links, ship_rows};
use transport_links::links::{LinkRows, write_links};
use transport_theory::Masses;

// The rounds on the links of these masses, and the plan. How much remains is not asked for: what did not move is in no cell.
// Stays: `ship_rows` answers None for links that don't fit together, which these do by the contract; handed on, it would make Options of this answer and of those of `transport_in`, `transport_with` and `planned`, none of them ever None.
fn plan_links(
    of: &Masses,
    links: &Links,
    caps: &mut [f64],
    starts: &mut [u32; 67],
    list: &mut [u32],
    plan: &mut PlanRows,
) -> Plan
    requires { Carried of.now links.now caps.old list.old plan.old }
    ensures transported { Moved of.now plan.old result plan.new }
    ensures same { same_columns plan.old plan.new }
{
    ship_rows(of, links, caps, starts, list);
    write_plan(of, caps, plan)
}

// The same over rows with room for the links.
// Stays: there is room, so that `write_links` gives a number; `?` for `unwrap_or(0)` would make Options of the answers of three functions, none of them ever None.
fn transport_in(
    of: &Masses,
    mut rows: LinkRows,
    starts: &mut [u32; 67],
    list: &mut [u32],
    plan: &mut PlanRows,
) -> Plan
    requires { Loadable of.now rows list.old plan.old }
    ensures transported { Moved of.now plan.old result plan.new }
    ensures same { same_columns plan.old plan.new }
{
    let places = write_links(of, &mut rows).unwrap_or(0);
    let LinkRows {
        heads,
        caps,
        prices,
    } = rows;
    let links = Links {
        heads: &heads[..places],
        prices: &prices[..places],
    };
    plan_links(of, &links, &mut caps[..places], starts, list, plan)
}

// With N places for the links and their reverses.
pub(crate) fn transport_with<const N: usize>(of: &Masses, plan: &mut PlanRows) -> Plan
    requires roomy { Planable of.now plan.old }
    requires places { (2 * (length of.now.left.now + length of.now.right.now + length of.now.left.now * length of.now.right.now) ≤ N) × (N ≤ 2176) }
    ensures transported { Moved of.now plan.old result plan.new }
    ensures same { same_columns plan.old plan.new }
{
    let mut heads = [0u32; N];
    let mut caps = [0.0f64; N];
    let mut prices = [0.0f64; N];
    let mut starts = [0u32; 67];
    let mut list = [0u32; N];
    let rows = LinkRows {
        heads: &mut heads,
        caps: &mut caps,
        prices: &mut prices,
    };
    transport_in(of, rows, &mut starts, &mut list, plan)
}
