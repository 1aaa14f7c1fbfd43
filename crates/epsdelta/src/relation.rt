// The relation of two models: their checks, their rows side by side, and the relation over these.
ghost use Rattle.std.specs.Prelude.{◌≡◌, ℕ, Bool, ◌≤◌, ◌<◌, true, ◌||◌, ltb, length, take};
ghost use Rattle.numbers.specs.Lists.{every};
ghost use Rattle.numbers.specs.Refuse.{code, numbered};
ghost use Rattle.epsdelta_theory.specs.Jumps.{Jumps};
ghost use Rattle.epsdelta_theory.specs.Refusal.{epsdelta_refusal};
ghost use Rattle.epsdelta_theory.specs.Claim.{Sound};
ghost use Rattle.epsdelta_theory.specs.Epsdelta.{given, given_rows, epsdelta};
ghost use Rattle.epsdelta_jumps.specs.Union;
ghost use Rattle.epsdelta.specs.Outcome.{Roomy, ends, settled, later_of, AnswersTo, outcome};
ghost use Rattle.epsdelta.specs.Rows.{stands_in, rows_in};
ghost use Rattle.epsdelta.specs.Sides.{EachFew, together, classes_of, of_sides};

use crate::asked::{Settings, Sides};
use crate::checks::later;
use epsdelta_jumps::jumps::{Fault, union};
use epsdelta_jumps::store::RowStore;
use epsdelta_sweeps::relate::relate;
use epsdelta_theory::tolerances::Tolerances;
use flow_links::rows::Rows;
use numbers::refusal::Refusal;

// The classes of both models, one after the other.
fn join_classes(sides: &Sides, classes: &mut [u32])
    requires few { together sides.now ≤ 2000 }
    requires room { (sides.now.left.model.shape.states ≤ length sides.now.left.classes.now) × (sides.now.right.model.shape.states ≤ length sides.now.right.classes.now) × (together sides.now ≤ length classes.old) }
    ensures { take (together sides.now) classes.new ≡ classes_of sides.now }
{
    let n = sides.left.model.shape.states;
    let m = sides.right.model.shape.states;
    classes[..n].copy_from_slice(&sides.left.classes[..n]);
    classes[n..sides.states()].copy_from_slice(&sides.right.classes[..m]);
}

// What is left once the checks of both models have passed: what checks 7 to 10 say, or the relation; `classes` is work space.
// Stays: rows and classes are two, lent in this order: of a struct of both behind one `&mut` the borrow checker does not cover this function, since the classes are read while the rows are lent.
fn finish(
    settings: &Settings,
    rows: &RowStore,
    classes: &mut [u32],
    relation: &mut [u8],
) -> Result<(), Refusal>
    requires models { EachFew settings.now.sides.now }
    requires rows { (together settings.now.sides.now ≤ 2000) → (every (stands_in rows.now) (together settings.now.sides.now) ≡ true) × (together settings.now.sides.now ≤ length rows.now.exits.now) × (together settings.now.sides.now < length rows.now.starts.now) × (together settings.now.sides.now ≤ length classes.old) }
    ensures { (J : Jumps) → (together settings.now.sides.now ≤ 2000 → rows_in rows.now (together settings.now.sides.now) ≡ J) → ends (numbered result) relation.new ≡ settled (later_of settings.now (length relation.old)) relation.old (epsdelta (given_rows J (classes_of settings.now.sides.now) settings.now.tolerances.epsilon settings.now.tolerances.rho)).relation }
{
    later(settings, relation.len())?;
    join_classes(settings.sides, classes);
    let read = Rows {
        exits: &rows.exits[..settings.sides.states()],
        starts: rows.starts,
        targets: rows.targets,
        probs: rows.probs,
    };
    relate(&read, classes, settings.tolerances, relation)
}

// What `union` refused: lists are short only where check 10 fails, which comes later.
fn refused(joined: Result<(), Fault>) -> Result<(), Refusal>
    ensures { (n : ℕ) (b : Bool) → Union.faulted joined ≡ Union.settled n b → code result ≡ n }
{
    match joined {
        Err(Fault::Refused(refusal)) => Err(refusal),
        Err(Fault::Short) | Ok(()) => Ok(()),
    }
}

// The relation of two models, unless a check fails; `rows` and `classes` are work space.
fn epsdelta_in(
    settings: &Settings,
    rows: &mut RowStore,
    classes: &mut [u32],
    relation: &mut [u8],
) -> Result<(), Refusal>
    requires { Roomy settings.now.sides.now.left.model.shape settings.now.sides.now.right.model.shape (length rows.old.exits.now) (length rows.old.starts.now) (length rows.old.targets.now) (length rows.old.probs.now) (length classes.old) }
    ensures { AnswersTo settings.now relation.old result relation.new }
{
    let sides = settings.sides;
    refused(union(&sides.left.model, &sides.right.model, rows))?;
    finish(settings, rows, classes, relation)
}

// In work space for so many states, their starts and so many edges.
fn epsdelta_with<const STATES: usize, const STARTS: usize, const EDGES: usize>(
    settings: &Settings,
    relation: &mut [u8],
) -> Result<(), Refusal>
    requires sizes { (STATES ≤ 2000) × (STARTS ≤ 2001) × (EDGES ≤ 8192) }
    requires room { Roomy settings.now.sides.now.left.model.shape settings.now.sides.now.right.model.shape STATES STARTS EDGES EDGES STATES }
    ensures { AnswersTo settings.now relation.old result relation.new }
{
    let mut exits = [0.0; STATES];
    let mut starts = [0u32; STARTS];
    let mut targets = [0u32; EDGES];
    let mut probs = [0.0; EDGES];
    let mut classes = [0u32; STATES];
    let mut rows = RowStore {
        exits: &mut exits,
        starts: &mut starts,
        targets: &mut targets,
        probs: &mut probs,
    };
    epsdelta_in(settings, &mut rows, &mut classes, relation)
}

// Whether a model has over 32 states or 200 edges, which none of a card has.
fn larger(sides: &Sides) -> bool
    ensures { result ≡ (ltb 32 sides.now.left.model.shape.states || (ltb 200 sides.now.left.model.shape.edges || (ltb 32 sides.now.right.model.shape.states || ltb 200 sides.now.right.model.shape.edges))) }
{
    let left = sides.left.model.shape;
    let right = sides.right.model.shape;
    32 < left.states || 200 < left.edges || 32 < right.states || 200 < right.edges
}

// The relation of two models, unless a check fails. The entries that ask for initial states say by `settings` that check 8 fails, so that they refuse before anything is written.
pub fn epsdelta_unless(settings: &Settings, relation: &mut [u8]) -> Result<(), Refusal>
    ensures { AnswersTo settings.now relation.old result relation.new }
{
    if larger(settings.sides) {
        return epsdelta_with::<2000, 2001, 8192>(settings, relation);
    }
    epsdelta_with::<64, 65, 400>(settings, relation)
}

// The relation of two models, of every pair of states of both, the right one's numbered after the left's. A refusal leaves the bytes as they were, and bytes past the relation's are kept.
pub fn epsdelta(sides: &Sides, tolerances: Tolerances, relation: &mut [u8]) -> Result<(), Refusal>
    ensures relation_after { ends (numbered result) relation.new ≡ of_sides outcome sides.now tolerances.epsilon tolerances.rho relation.old }
    ensures sound { of_sides epsdelta_refusal sides.now tolerances.epsilon tolerances.rho (length relation.old) ≡ 0 → Sound (of_sides given sides.now tolerances.epsilon tolerances.rho) }
{
    let settings = Settings {
        sides: &*sides,
        tolerances,
        absent: false,
    };
    epsdelta_unless(&settings, relation)
}
