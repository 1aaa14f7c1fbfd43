// The relation of a card's models, and the report.
ghost use Rattle.std.specs.Prelude.{◌≡◌, ◌+◌, ◌≤◌, length};
ghost use Rattle.numbers.specs.Refuse.{numbered};
ghost use Rattle.bisim_core.specs.Data.{columns, transitions};
ghost use Rattle.bisim_build.specs.Build.{ends};
ghost use Rattle.build_theory.specs.Lent.{columns_in, kept};
ghost use Rattle.card_reader.specs.Lent.{columns_of};
ghost use Rattle.card_report.specs.Report.{Printed, store_fault, most_report};
ghost use Rattle.card.specs.Printing.{printed};
ghost use Rattle.card_models.specs.Sides.{side_ends};
ghost use Rattle.card_models.proofs.Handing.{blank, Room, Few, FewBoth, lists_text, right_text, heads_text};

use bisim_core::wlts::Shape;
use build_theory::lent::Store;
use card_models::{CardTransitions, both_models, build_side};
use card_reader::{CardLists, Head, Heads, read_card};
use card_relation::{in_parts, relation_text};
use card_report::{MOST_REPORT, refusal_text};
use epsdelta::asked::{Side, Sides};
use numbers::refusal::Refusal;

// The report of both models, or the refusal of one.
fn print_both(
    models: Result<(Shape, Shape), Refusal>,
    left: &Store,
    right: &Store,
    heads: Heads,
    classes: &[u32],
    out: &mut [u8],
) -> Result<usize, Refusal>
    requires { FewBoth (numbered models) × (heads.left.states + heads.right.states ≤ length classes.now) × (most_report ≤ length out.old) }
    ensures { Printed 0 (lists_text (numbered models) (columns_in left.now) (columns_in right.now) heads classes.now) out.old (numbered result) out.new }
{
    let middle = heads.left.states as usize;
    let end = middle + heads.right.states as usize;
    match models {
        Err(refusal) => refusal_text(refusal.number(), out),
        Ok((a, b)) => {
            let sides = Sides {
                left: Side {
                    model: left.model(a),
                    classes: &classes[0..middle],
                },
                right: Side {
                    model: right.model(b),
                    classes: &classes[middle..end],
                },
            };
            relation_text(&sides, in_parts(heads.epsilon, heads.rho), out)
        }
    }
}

// Room for the columns of a model of 32 states and 200 transitions.
#[derive(Drop)]
struct Arrays {
    label_values: [u32; 200],
    offsets: [u32; 33],
    edge_labels: [u32; 200],
    edge_targets: [u32; 200],
    edge_weights: [f64; 200],
}

impl Arrays {
    fn new() -> Arrays
        ensures { columns result.label_values result.offsets result.edge_labels result.edge_targets result.edge_weights ≡ blank }
    {
        Arrays {
            label_values: [0; 200],
            offsets: [0; 33],
            edge_labels: [0; 200],
            edge_targets: [0; 200],
            edge_weights: [0.0; 200],
        }
    }

    fn lend<'a>(&'a mut self) -> Store<'a>
        ensures { columns_in result ≡ columns self.old.label_values self.old.offsets self.old.edge_labels self.old.edge_targets self.old.edge_weights }
    {
        let Arrays {
            label_values,
            offsets,
            edge_labels,
            edge_targets,
            edge_weights,
        } = self;
        Store {
            label_values,
            offsets,
            edge_labels,
            edge_targets,
            edge_weights,
        }
    }
}

// Builds the model of that head, its transitions being those from `from` on in the lists.
// Stays: as `build_side`, which looks at `from`.
fn build_listed(
    head: Head,
    from: usize,
    lists: &CardLists,
    store: &mut Store,
) -> Result<Shape, Refusal>
    ensures built { ends (numbered result) (columns_in store.new) ≡ side_ends head from (transitions lists.now.sources.now lists.now.labels.now lists.now.targets.now lists.now.weights.now) (columns_in store.old) }
    ensures same { kept store.old store.new }
{
    let of = CardTransitions {
        sources: lists.sources,
        labels: lists.labels,
        targets: lists.targets,
        weights: lists.weights,
    };
    build_side(head, from, &of, store)
}

// Builds the right model of the card that the lists hold; the left one is built, and stands in its store.
fn print_right(
    left: Result<Shape, Refusal>,
    left_store: &Store,
    heads: Heads,
    lists: &CardLists,
    out: &mut [u8],
) -> Result<usize, Refusal>
    requires { Few (numbered left) × Room heads (columns_of lists.now) × (most_report ≤ length out.old) }
    ensures { Printed 0 (right_text (numbered left) (columns_in left_store.now) heads (columns_of lists.now)) out.old (numbered result) out.new }
{
    let mut arrays = Arrays::new();
    let mut store = arrays.lend();
    let right = build_listed(
        heads.right,
        heads.left.transitions as usize,
        lists,
        &mut store,
    );
    print_both(
        both_models(left, right),
        left_store,
        &store,
        heads,
        lists.classes,
        out,
    )
}

// The report of the card that the lists hold: builds the left model first.
fn print_card(heads: Heads, lists: &CardLists, out: &mut [u8]) -> Result<usize, Refusal>
    requires { Room heads (columns_of lists.now) × (most_report ≤ length out.old) }
    ensures { Printed 0 (heads_text heads (columns_of lists.now)) out.old (numbered result) out.new }
{
    let mut arrays = Arrays::new();
    let mut store = arrays.lend();
    let left = build_listed(heads.left, 0, lists, &mut store);
    print_right(left, &store, heads, lists, out)
}

// Writes what is printed for the bytes of a card, and gives its length; 7 where the store is short for the greatest report.
pub fn report(card: &[u8], out: &mut [u8]) -> Result<usize, Refusal>
    ensures { Printed (store_fault (length out.old)) (printed card.now) out.old (numbered result) out.new }
{
    if out.len() < MOST_REPORT {
        return Err(Refusal::Store);
    }
    let mut classes = [0u32; 64];
    let mut sources = [0u32; 400];
    let mut labels = [0u32; 400];
    let mut targets = [0u32; 400];
    let mut weights = [0.0f64; 400];
    let mut lists = CardLists {
        classes: &mut classes,
        sources: &mut sources,
        labels: &mut labels,
        targets: &mut targets,
        weights: &mut weights,
    };
    match read_card(card, &mut lists) {
        Err(refusal) => refusal_text(refusal.number(), out),
        Ok(heads) => print_card(heads, &lists, out),
    }
}
