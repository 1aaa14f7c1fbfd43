// The relation of the states whose rows stand in lists: marks, then sweeps.
ghost use Rattle.std.specs.Prelude.{◌≡◌, ◌≤◌, not, length};
ghost use Rattle.numbers.specs.Bits.{packed};
ghost use Rattle.numbers.specs.Refuse.{check, code};
ghost use Rattle.epsdelta_theory.specs.Relation.{relation_bytes};
ghost use Rattle.epsdelta_theory.specs.FlowTest;
ghost use Rattle.flow_links.proofs.RowsRead.{states_of, Fitting, written};
ghost use Rattle.epsdelta_sweeps.specs.Read.{readable, relation_in};

use crate::classed::Classed;
use crate::marks::marks;
use crate::place::Terms;
use crate::plenty::plenty_of;
use crate::rows::{all_stand, long_enough};
use crate::run::run;
use epsdelta_theory::relation_bytes;
use epsdelta_theory::tolerances::Tolerances;
use flow_links::rows::Rows;
use numbers::refusal::Refusal;
use numbers::{ONE, SLACK};

// What a flow has to come to: (1 - ε) - 1e-9.
fn needed(epsilon: f64) -> f64
    ensures { result ≡ FlowTest.needed epsilon }
{
    ONE - epsilon - SLACK
}

// The relation, in as many bytes as it has.
fn make(rows: &Rows, classes: &[u32], tolerances: Tolerances, relation: &mut [u8])
    requires { Fitting rows.now × (states_of rows.now ≤ length classes.now) × (length relation.old ≡ relation_bytes (states_of rows.now)) }
    ensures { relation.new ≡ packed (relation_in rows.now classes.now tolerances) }
{
    let of = Classed {
        classes: &classes[..rows.exits.len()],
        exits: rows.exits,
        rho: tolerances.rho,
    };
    marks(&of, relation);
    let need = needed(tolerances.epsilon);
    let plenty = plenty_of(rows, need);
    let terms = Terms {
        rows: *rows,
        need,
        plenty,
    };
    run(&terms, relation);
}

// The relation of states with these rows, one class for each.
// It is made if the lists can be read, and bytes past it are kept; else the answer is a refusal, and the bytes are as they were.
pub fn relate(
    rows: &Rows,
    classes: &[u32],
    tolerances: Tolerances,
    relation: &mut [u8],
) -> Result<(), Refusal>
    ensures { (code result ≡ check 7 (not (readable rows.now classes.now (length relation.old))) 0)
        × (relation.new ≡ written (readable rows.now classes.now (length relation.old)) (relation_in rows.now classes.now tolerances) relation.old) }
{
    if !long_enough(rows, classes.len(), relation.len()) || !all_stand(rows) {
        return Err(Refusal::Store);
    }
    let bytes = relation_bytes(rows.exits.len());
    make(rows, classes, tolerances, &mut relation[..bytes]);
    Ok(())
}
