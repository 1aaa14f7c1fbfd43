// A model of a card, built.
ghost use Rattle.std.specs.Prelude.{◌≡◌};
ghost use Rattle.numbers.specs.Refuse.{numbered};
ghost use Rattle.bisim_build.specs.Build.{ends};
ghost use Rattle.build_theory.specs.Lent.{columns_in, kept};
ghost use Rattle.card_models.specs.Lent.{transitions_in};
ghost use Rattle.card_models.specs.Sides.{side_ends};

use bisim_build::builder::build;
use bisim_core::ids::StateId;
use bisim_core::wlts::Shape;
use build_theory::lent::{Draft, Store};
use card_reader::Head;
use numbers::least;
use numbers::refusal::Refusal;

// The transitions of both models of a card, column by column; those of the left model stand first.
#[derive(Clone, Copy, Debug)]
pub struct CardTransitions<'a> {
    pub sources: &'a [u32],
    pub labels: &'a [u32],
    pub targets: &'a [u32],
    pub weights: &'a [f64],
}

// Builds the model of that head, its transitions being those from `from` on, into the lent lists; 7 where they are not there.
// Stays: cut at `from` by the caller, the four columns would be tested there, once for each of the two models; here the test has one place, and its refusal.
pub fn build_side(
    head: Head,
    from: usize,
    of: &CardTransitions,
    store: &mut Store,
) -> Result<Shape, Refusal>
    ensures built { ends (numbered result) (columns_in store.new) ≡ side_ends head from (transitions_in of.now) (columns_in store.old) }
    ensures same { kept store.old store.new }
{
    let given = head.transitions as usize;
    let there = least(
        of.sources.len(),
        of.labels.len(),
        of.targets.len(),
        of.weights.len(),
    );
    if there.checked_sub(from).is_none_or(|rest| rest < given) {
        return Err(Refusal::Store);
    }
    let end = from + given;
    let draft = Draft {
        states: head.states as usize,
        initial: Some(StateId(head.initial)),
        sources: &of.sources[from..end],
        labels: &of.labels[from..end],
        targets: &of.targets[from..end],
        weights: &of.weights[from..end],
        given,
    };
    build(&draft, store)
}
