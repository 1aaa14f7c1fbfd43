// A stored case: masses, costs and the columns lent; the answer, and the columns afterwards.
use replay_text::text::Reader;
use transport::entry;
use transport::plan::PlanRows;
use transport_theory::Masses;

// Masses and costs of a case are read; now the columns, the answer, and the columns as `transport` leaves them.
fn planned(r: &mut Reader, of: &Masses) {
    let mut rows = [0u32; 1100];
    let mut columns = [0u32; 1100];
    let mut masses = [0.0f64; 1100];
    let mut plan = PlanRows {
        rows: r.next_list_field(&mut rows),
        columns: r.next_list_field(&mut columns),
        masses: r.next_list_field(&mut masses),
    };
    let answer = entry::transport(of, &mut plan);
    r.expect_answer(answer.map(|p| (p.total, p.cells)));
    r.expect_list(plan.rows);
    r.expect_list(plan.columns);
    r.expect_list(plan.masses);
}

pub fn run(r: &mut Reader) {
    let mut left = [0.0f64; 100];
    let mut right = [0.0f64; 100];
    let mut costs = [0.0f64; 1100];
    let of = Masses {
        left: r.next_list_field(&mut left),
        right: r.next_list_field(&mut right),
        costs: r.next_list_field(&mut costs),
    };
    planned(r, &of);
}
