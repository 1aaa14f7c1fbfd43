// The relation of two models, and its text.
ghost use Rattle.std.specs.Prelude.{◌≡◌, Bool, List, ℕ, ◌*◌, ◌≤◌, length};
ghost use Rattle.numbers.specs.Refuse.{numbered};
ghost use Rattle.epsdelta.specs.Outcome.{ends, settled};
ghost use Rattle.epsdelta.specs.Sides.{together, of_sides};
ghost use Rattle.card_report.specs.Report;
ghost use Rattle.card_report.specs.Report.{Printed, most_report};
ghost use Rattle.card_relation.specs.Relating;
ghost use Rattle.card_relation.specs.Relating.{AtMost32, text_of, relation_at, relation_fault};

use card_report::{MOST_REPORT, refusal_text, report_text};
use epsdelta::asked::Sides;
use epsdelta::relation::epsdelta;
use epsdelta_theory::tolerances::Tolerances;
use numbers::refusal::Refusal;

// So many 1,024ths.
fn parts(n: u32) -> f64
    ensures { result ≡ Relating.parts n }
{
    n as f64 / 1024.0
}

// ε and ρ as a card has them, in 1,024ths.
pub fn in_parts(epsilon: u32, rho: u32) -> Tolerances
    ensures { result ≡ Relating.in_parts epsilon rho }
{
    Tolerances {
        epsilon: parts(epsilon),
        rho: parts(rho),
    }
}

// The text of what `epsdelta` answered of two models.
fn finish(
    ended: Result<(), Refusal>,
    sides: &Sides,
    relation: &[u8],
    out: &mut [u8],
) -> Result<usize, Refusal>
    requires few { AtMost32 sides.now }
    requires room { (512 ≤ length relation.now) × (most_report ≤ length out.old) }
    ensures { (n : ℕ) (store : List ℕ) (R : List Bool) → ends (numbered ended) relation.now ≡ settled n store R → length R ≡ together sides.now * together sides.now
        → Printed 0 (text_of n (Report.report R sides.now.left.model.shape.states sides.now.right.model.shape.states)) out.old (numbered result) out.new }
{
    let left = sides.left.model.shape.states as u32;
    let right = sides.right.model.shape.states as u32;
    match ended {
        Ok(()) => report_text(left, right, relation, out),
        Err(refusal) => refusal_text(refusal.number(), out),
    }
}

// The report where there is room for it.
fn print_models(sides: &Sides, tolerances: Tolerances, out: &mut [u8]) -> Result<usize, Refusal>
    requires few { AtMost32 sides.now }
    requires room { most_report ≤ length out.old }
    ensures { Printed 0 (of_sides relation_at sides.now tolerances.epsilon tolerances.rho) out.old (numbered result) out.new }
{
    let mut relation = [0u8; 512];
    let ended = epsdelta(sides, tolerances, &mut relation);
    finish(ended, sides, &relation, out)
}

// Writes the report of the relation of two models, or the line of what is refused; 2 for over 32 states of a model, 7 where the store is short.
pub fn relation_text(
    sides: &Sides,
    tolerances: Tolerances,
    out: &mut [u8],
) -> Result<usize, Refusal>
    ensures { Printed (relation_fault sides.now.left.model.shape sides.now.right.model.shape (length out.old)) (of_sides relation_at sides.now tolerances.epsilon tolerances.rho) out.old (numbered result) out.new }
{
    if sides.left.model.shape.states > 32 || sides.right.model.shape.states > 32 {
        return Err(Refusal::CardSize);
    }
    if out.len() < MOST_REPORT {
        return Err(Refusal::Store);
    }
    print_models(sides, tolerances, out)
}
