// Sweeps from the marks on until one without a strike, with a network only where a flow test asks for one.
ghost use Rattle.std.specs.Prelude.{◌≤◌};
ghost use Rattle.flow_duality.proofs.Places.{Bytes};
ghost use Rattle.flow_links.proofs.RowsRead.{states_of};
ghost use Rattle.epsdelta_sweeps.specs.Leading.{Runnable, RunsIn};

use crate::changes::{Memory, Strikes};
use crate::network::with_rows;
use crate::place::{Place, Terms};
use crate::sweeps::advance;

// Sweeps until one without a strike, with room for the strikes of N states.
fn run_in<const N: usize>(terms: &Terms, relation: &mut [u8])
    requires room { (states_of terms.now.rows ≤ N) × (N ≤ 2000) }
    requires rows_fit { Runnable terms.now relation.old }
    requires relation_value { Bytes (states_of terms.now.rows) relation.old }
    ensures { RunsIn terms.now relation.old relation.new }
{
    let mut strikes = [Strikes::NONE; N];
    let mut memory = Memory {
        relation,
        strikes: &mut strikes[..terms.rows.exits.len()],
        again: false,
    };
    if let Err(asked) = advance(terms, &mut memory, Place::FIRST) {
        with_rows(terms, &mut memory, asked);
    }
}

// The same with room for as many states as there are; that for 64 is enough for a card.
pub(crate) fn run(terms: &Terms, relation: &mut [u8])
    requires rows_fit { Runnable terms.now relation.old }
    requires relation_value { Bytes (states_of terms.now.rows) relation.old }
    ensures { RunsIn terms.now relation.old relation.new }
{
    if terms.rows.exits.len() <= 64 {
        run_in::<64>(terms, relation);
        return;
    }
    run_in::<2000>(terms, relation);
}
