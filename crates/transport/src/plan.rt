// The plan: the cells above the threshold in row order.
ghost use Rattle.transport.specs.Lent.{same_columns, Readied};
ghost use Rattle.transport.specs.Moving.{Spelled};

use flow_theory::reverse;
use numbers::EPS;
use transport_theory::Masses;

// What the cells of a plan are written into: the row, the column and the mass of each.
#[derive(Debug, Drop)]
pub struct PlanRows<'a> {
    pub rows: &'a mut [u32],
    pub columns: &'a mut [u32],
    pub masses: &'a mut [f64],
}

// What a plan costs, and its number of cells.
#[derive(Clone, Copy, Debug, PartialEq)]
pub struct Plan {
    pub total: f64,
    pub cells: usize,
}

// Writes the cells whose mass is above the threshold; the mass is what the capacity of the reverse link has come to.
pub(crate) fn write_plan(of: &Masses, caps: &[f64], plan: &mut PlanRows) -> Plan
    requires { Readied of.now caps.now plan.old }
    ensures spelled { Spelled of.now caps.now plan.old result plan.new }
    ensures same { same_columns plan.old plan.new }
{
    let m = of.left.len();
    let n = of.right.len();
    let first = 2 * (m + n);
    let mut total = 0.0;
    let mut cells: usize = 0;
    for (k, cost) in of.costs[..m * n].iter().enumerate() {
        let x = caps[reverse(first + 2 * k)];
        if x > EPS {
            plan.rows[cells] = (k / n) as u32;
            plan.columns[cells] = (k % n) as u32;
            plan.masses[cells] = x;
            cells += 1;
            total += x * *cost;
        }
    }
    Plan { total, cells }
}
