// The checks of the arguments of `distance`: 4 to 14.
ghost use Rattle.std.specs.Prelude.{◌≡◌};
ghost use Rattle.numbers.specs.Refuse.{code};
ghost use Rattle.chain_theory.specs.Lent.{of_chain};
ghost use Rattle.bisim_checks.specs.Rest.{of_rest};
ghost use Rattle.distance_theory.specs.Refusal.{distance_refusal as refusal_of};

use bisim_checks::rest::{Rest, rest_refusal};
use chain_check::check::chain_refusal;
use distance_run::question::Question;
use numbers::ONE;
use numbers::bounds::Bounds;
use numbers::refusal::Refusal;
use parts::refusals::earlier;

// What the observations of a chain may be.
const OBSERVATIONS: Bounds = Bounds {
    least: 0.0,
    greatest: ONE,
};

// The first check that fails: of either chain by itself, or of the rest.
pub(crate) fn distance_refusal(of: &Question, rest: Rest) -> Result<(), Refusal>
    ensures { code result ≡ of_rest (refusal_of of.now.left.shape (of_chain of.now.left) of.now.right.shape (of_chain of.now.right)) rest }
{
    let of_left = chain_refusal(&of.left, OBSERVATIONS);
    let of_right = chain_refusal(&of.right, OBSERVATIONS);
    earlier(earlier(of_left, of_right), rest_refusal(rest))
}
