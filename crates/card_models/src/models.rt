// The two models of a card together.
ghost use Rattle.std.specs.Prelude.{◌≡◌};
ghost use Rattle.numbers.specs.Refuse.{numbered};
ghost use Rattle.card_models.specs.Together;

use bisim_core::wlts::Shape;
use numbers::refusal::Refusal;
use parts::refusals::earlier;

// Both models, or the refusal of the lower number.
pub fn both_models(
    left: Result<Shape, Refusal>,
    right: Result<Shape, Refusal>,
) -> Result<(Shape, Shape), Refusal>
    ensures { numbered result ≡ Together.both (numbered left) (numbered right) }
{
    earlier(left.map(|_| ()), right.map(|_| ()))?;
    Ok((left?, right?))
}
