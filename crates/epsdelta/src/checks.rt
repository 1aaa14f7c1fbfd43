// Checks 7 to 10, which come after those of both models.
ghost use Rattle.std.specs.Prelude.{◌≡◌, length};
ghost use Rattle.numbers.specs.Refuse.{code};
ghost use Rattle.epsdelta_theory.specs.Refusal.{short, tolerances_outside};
ghost use Rattle.epsdelta.specs.Outcome.{later_of};
ghost use Rattle.epsdelta.specs.Sides.{EachFew};

use crate::asked::{Settings, Sides};
use epsdelta_theory::relation_bytes;
use epsdelta_theory::tolerances::Tolerances;
use numbers::bounds::Bounds;
use numbers::refusal::Refusal;
use numbers::{GREATEST_FACTOR, ONE, Real};

// What ρ may be.
const FACTORS: Bounds = Bounds {
    least: ONE,
    greatest: GREATEST_FACTOR,
};

// 7: too few classes of a model, or too few bytes for the relation.
fn lacking(sides: &Sides, bytes: usize) -> bool
    requires { EachFew sides.now }
    ensures { result ≡ short sides.now.left.model.shape.states sides.now.right.model.shape.states (length sides.now.left.classes.now) (length sides.now.right.classes.now) bytes }
{
    let states = sides.states();
    sides.left.classes.len() < sides.left.model.shape.states
        || sides.right.classes.len() < sides.right.model.shape.states
        || bytes < relation_bytes(states)
}

// 9: ε is no finite number from 0 on, or ρ is not from 1 to 2^20.
fn outside(of: Tolerances) -> bool
    ensures { result ≡ tolerances_outside of.epsilon of.rho }
{
    !Real(of.epsilon).is_valid() || !FACTORS.hold(of.rho)
}

// The first of the four that fails, where the settings say whether 8 does.
pub(crate) fn later(settings: &Settings, bytes: usize) -> Result<(), Refusal>
    requires { EachFew settings.now.sides.now }
    ensures { code result ≡ later_of settings.now bytes }
{
    let sides = settings.sides;
    if lacking(sides, bytes) {
        return Err(Refusal::Store);
    }
    if settings.absent {
        return Err(Refusal::NoInitialState);
    }
    if outside(settings.tolerances) {
        return Err(Refusal::Tolerance);
    }
    if 2000 < sides.states() {
        return Err(Refusal::StatesTogether);
    }
    Ok(())
}
