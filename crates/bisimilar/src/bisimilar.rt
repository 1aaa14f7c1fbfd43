// Whether two models are bisimilar: the relation made, read at the initial states, and cleared.
ghost use Rattle.std.specs.Prelude.{◌≡◌, ◌||◌, length, replicate};
ghost use Rattle.numbers.specs.Refuse.{numbered};
ghost use Rattle.epsdelta_theory.specs.Refusal.{absent};
ghost use Rattle.bisimilar.specs.Related.{related_outcome};
ghost use Rattle.epsdelta.specs.Outcome.{ends};
ghost use Rattle.epsdelta.specs.Sides.{of_sides};
ghost use Rattle.bisimilar.specs.Outcome.{bisimilar_outcome};

use crate::related::related;
use bisim_core::ids::StateId;
use epsdelta::asked::{Settings, Sides};
use epsdelta::relation::epsdelta_unless;
use epsdelta_theory::tolerances::Tolerances;
use numbers::refusal::Refusal;

// Whether one of two models has no initial state.
fn one_absent(left: Option<StateId>, right: Option<StateId>) -> bool
    ensures { result ≡ (absent left || absent right) }
{
    left.is_none() || right.is_none()
}

// What the relation says of s and t, and its bytes cleared.
fn conclude(sides: &Sides, s: StateId, t: StateId, relation: &mut [u8]) -> Result<bool, Refusal>
    ensures { ends (numbered result) relation.new ≡ ends (related_outcome sides.now.left.model.shape.states sides.now.right.model.shape.states relation.old s.0 t.0) (replicate (length relation.old) 0) }
{
    let verdict = related(
        sides.left.model.shape.states,
        sides.right.model.shape.states,
        relation,
        s,
        t,
    );
    relation.fill(0);
    verdict
}

// Whether the initial states are related. The relation is work space: a refusal leaves its bytes as they were, and otherwise every byte is zero at the end.
pub fn epsdelta_bisimilar(
    sides: &Sides,
    tolerances: Tolerances,
    relation: &mut [u8],
) -> Result<bool, Refusal>
    ensures { ends (numbered result) relation.new ≡ of_sides bisimilar_outcome sides.now tolerances.epsilon tolerances.rho relation.old }
{
    let first = sides.left.model.shape.initial;
    let second = sides.right.model.shape.initial;
    let settings = Settings {
        sides: &*sides,
        tolerances,
        absent: one_absent(first, second),
    };
    epsdelta_unless(&settings, relation)?;
    conclude(sides, first.unwrap(), second.unwrap(), relation)
}
