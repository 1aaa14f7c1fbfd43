// The rows of a chain, made from a model's edges: targets rising, probabilities beside them.
ghost use Rattle.std.specs.Prelude.{◌+◌, ◌≤◌, ◌<◌, length};
ghost use Rattle.bisim_core.specs.Data.{columns_of};
ghost use Rattle.bisim_core.specs.Model;
ghost use Rattle.bisim_core.specs.Model.{row};
ghost use Rattle.bisim_core.proofs.Accepted.{Accepted};
ghost use Rattle.epsdelta_theory.proofs.RowsIn.{LaidJumps};
ghost use Rattle.parts.specs.Jumping.{degree};
ghost use Rattle.chain_theory.specs.Chain.{chain_row, chain_rows};
ghost use Rattle.chain_theory.specs.Lent.{of_store, SameLists};
ghost use Rattle.chains.specs.Outcome;

use crate::rates::exit_rate;
use bisim_core::wlts::Wlts;
use chain_theory::ChainStore;
use numbers::MARGIN;
use parts::rates::Jumps;

// The row of state s, at the start of the lists: its edges but those back to it, each weight divided by the rate, and what is left to stay. How many entries it has; those past them are as they were.
fn make_row(model: &Wlts, s: usize, rate: f64, targets: &mut [u32], probs: &mut [f64]) -> usize
    requires model { Accepted model.now.shape (columns_of model.now) × (s < model.now.shape.states) }
    requires room { (degree (columns_of model.now) s < length targets.old) × (degree (columns_of model.now) s < length probs.old) }
    ensures few { result ≤ degree (columns_of model.now) s + 1 }
    ensures made { LaidJumps (chain_row rate s (row (columns_of model.now) s)) result targets.old probs.old targets.new probs.new }
{
    let mut entries = Jumps {
        targets,
        rates: probs,
        len: 0,
    };
    entries.add_edges(model, s, 0, Some(rate));
    let stay = 1.0 - exit_rate(model, s) / rate;
    if stay > MARGIN {
        entries.add(s as u32, stay);
    }
    entries.len
}

// The rows of all states, one after the other, and where each begins. Where the last ends; what stands past that is as it was.
pub(crate) fn make_rows(model: &Wlts, rate: f64, store: &mut ChainStore) -> usize
    requires accepted { Accepted model.now.shape (columns_of model.now) }
    requires room { (model.now.shape.states < length store.old.offsets.now) × (model.now.shape.edges + model.now.shape.states ≤ length store.old.targets.now) × (model.now.shape.edges + model.now.shape.states ≤ length store.old.probs.now) }
    ensures rows_laid { Outcome.RowsLaid (chain_rows rate 0 (Model.model model.now.shape (columns_of model.now))) result (of_store store.old) (of_store store.new) }
    ensures same_lists { SameLists store.old store.new }
{
    store.offsets[0] = 0;
    let mut end = 0;
    for s in 0..model.shape.states {
        end += make_row(
            model,
            s,
            rate,
            &mut store.targets[end..],
            &mut store.probs[end..],
        );
        store.offsets[s + 1] = end as u32;
    }
    end
}
