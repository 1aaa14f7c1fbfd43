// Exit rates: the weights of a state's edges but self-loops, added in their order.
ghost use Rattle.std.specs.Prelude.{◌≡◌, ◌<◌};
ghost use Rattle.bisim_core.specs.Data.{columns_of};
ghost use Rattle.bisim_core.specs.Model;
ghost use Rattle.bisim_core.specs.Model.{row};
ghost use Rattle.bisim_core.proofs.Accepted.{Accepted};
ghost use Rattle.chain_theory.specs.Chain.{exit_rate, greatest_exit};

use bisim_core::wlts::Wlts;
use numbers::larger;

// The exit rate of state s.
pub(crate) fn exit_rate(model: &Wlts, s: usize) -> f64
    requires { Accepted model.now.shape (columns_of model.now) × (s < model.now.shape.states) }
    ensures { result ≡ exit_rate (row (columns_of model.now) s) }
{
    let mut total = 0.0;
    for i in model.row(s) {
        if model.edge_targets[i] as usize != s {
            total += model.edge_weights[i];
        }
    }
    total
}

// The greatest exit rate of a model's states, 0 if nothing moves.
pub(crate) fn greatest_exit(model: &Wlts) -> f64
    requires { Accepted model.now.shape (columns_of model.now) }
    ensures { result ≡ greatest_exit (Model.model model.now.shape (columns_of model.now)) }
{
    let mut greatest = 0.0;
    for s in 0..model.shape.states {
        greatest = larger(greatest, exit_rate(model, s));
    }
    greatest
}
