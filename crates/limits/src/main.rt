// Runs `build` at each limit of document 01 and one step past it, and prints the refusal's number, 0 for none.
#![tactic(auto)]

ghost use Rattle.std.specs.Prelude.{◌<◌};

use bisim_build::builder::build;
use bisim_core::wlts::Shape;
use build_theory::lent::{Draft, Store};
use numbers::refusal::{Refusal, code};
use std::{array, io};

// What `build` answers with lists that are long enough.
fn outcome(draft: &Draft) -> Result<Shape, Refusal> {
    let mut label_values = [0u32; 4097];
    let mut offsets = [0u32; 2002];
    let mut edge_labels = [0u32; 4097];
    let mut edge_targets = [0u32; 4097];
    let mut edge_weights = [0.0f64; 4097];
    let mut store = Store {
        label_values: &mut label_values,
        offsets: &mut offsets,
        edge_labels: &mut edge_labels,
        edge_targets: &mut edge_targets,
        edge_weights: &mut edge_weights,
    };
    build(draft, &mut store)
}

// Entry i is i / every % 2,000.
fn counted<const N: usize>(every: usize) -> [u32; N]
    requires { (0 < every) × (N < 65536) }
{
    array::from_fn(|i| (i / every % 2000) as u32)
}

// The last of 41 states with k others as targets.
fn targets(k: usize) -> Result<Shape, Refusal> {
    let sources = [40u32; 40];
    let labels = [0u32; 40];
    let to: [u32; 40] = counted(1);
    let weights = [1.0f64; 40];
    outcome(&Draft {
        states: 41,
        initial: None,
        sources: &sources,
        labels: &labels,
        targets: &to,
        weights: &weights,
        given: k,
    })
}

fn states(k: usize) -> Result<Shape, Refusal> {
    outcome(&Draft {
        states: k,
        initial: None,
        sources: &[0u32; 1],
        labels: &[0u32; 1],
        targets: &[0u32; 1],
        weights: &[1.0f64; 1],
        given: 1,
    })
}

// k loops on one state, with a label each.
fn labels(k: usize) -> Result<Shape, Refusal> {
    let zeros = [0u32; 257];
    let labels: [u32; 257] = counted(1);
    let weights = [1.0f64; 257];
    outcome(&Draft {
        states: 1,
        initial: None,
        sources: &zeros,
        labels: &labels,
        targets: &zeros,
        weights: &weights,
        given: k,
    })
}

// k loops on 2,000 states, with three labels.
fn transitions(k: usize) -> Result<Shape, Refusal> {
    let states: [u32; 4097] = counted(1);
    let labels: [u32; 4097] = counted(2000);
    let weights = [1.0f64; 4097];
    outcome(&Draft {
        states: 2000,
        initial: None,
        sources: &states,
        labels: &labels,
        targets: &states,
        weights: &weights,
        given: k,
    })
}

fn weight(w: f64) -> Result<Shape, Refusal> {
    outcome(&Draft {
        states: 2,
        initial: None,
        sources: &[0u32; 1],
        labels: &[0u32; 1],
        targets: &[1u32; 1],
        weights: &[w; 1],
        given: 1,
    })
}

fn show(rt: &impl Print, what: &str, answer: Result<Shape, Refusal>) -> io::Result<()> {
    let refusal = code(&answer);
    println!(rt; "{what}: {refusal}")
}

fn show_sizes(rt: &impl Print) -> io::Result<()> {
    show(rt, "31 targets", targets(31))?;
    show(rt, "32 targets", targets(32))?;
    show(rt, "2,000 states", states(2000))?;
    show(rt, "2,001 states", states(2001))?;
    show(rt, "4,096 transitions", transitions(4096))?;
    show(rt, "4,097 transitions", transitions(4097))?;
    show(rt, "256 labels", labels(256))?;
    show(rt, "257 labels", labels(257))?;
    Ok(())
}

fn show_weights(rt: &impl Print) -> io::Result<()> {
    let zero = 0.0;
    show(rt, "weight 0", weight(zero))?;
    show(rt, "weight -0", weight(-zero))?;
    show(rt, "weight 2^-40", weight(9.094947017729282e-13))?;
    show(rt, "weight just below 2^-40", weight(9.094947017729281e-13))?;
    show(rt, "weight 2^40", weight(1099511627776.0))?;
    show(rt, "weight just above 2^40", weight(1099511627776.0002))?;
    show(rt, "weight NaN", weight(f64::NAN))?;
    show(rt, "weight infinity", weight(f64::INFINITY))?;
    show(rt, "weight -infinity", weight(f64::NEG_INFINITY))?;
    show(rt, "weight -1", weight(-1.0))?;
    Ok(())
}

fn main(rt: HostRuntime) -> io::Result<()> {
    show_sizes(&rt)?;
    show_weights(&rt)
}
