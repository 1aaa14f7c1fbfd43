// Sweeps over the pairs of a relation, until one without a strike. They are left where a flow test is not known without a network, and resumed with its answer.
ghost use Rattle.std.specs.Prelude.{◌≡◌, ◌≤◌, ◌<◌, ◌+◌, true, false, List, Bool, IfSome};
ghost use Rattle.numbers.specs.Bits.{packed};
ghost use Rattle.numbers.specs.Refuse.{numbered};
ghost use Rattle.flow_duality.proofs.Plenty.{Even};
ghost use Rattle.flow_links.proofs.RowsRead.{Fitting, states_of};
ghost use Rattle.epsdelta_sweeps.specs.Place.{Same, Judged, Stands};
ghost use Rattle.epsdelta_sweeps.specs.Leading.{place_of, Paired, Worded, Enough, passes_in, Tested, Answers, Ample, Holding, AtTurn, AtTest, Sweepable, Asking, FromTurn, FromTest, ToTurn, ToSweepEnd, ToEnd};

use crate::changes::{Memory, fade, unchanged};
use crate::place::{Asked, Place, Terms};
use crate::plenty::plenty_between;
use crate::rows::test;
use flow_core::Flow;
use flow_direct::reach::{Ways, both_ways, enough, verdict};
use numbers::refusal::Refusal;

// What is known without a network of the flow test from s to t.
fn judge(terms: &Terms, memory: &Memory, s: usize, t: usize) -> Option<bool>
    requires { Paired terms.now.rows s t }
    ensures { IfSome result (λ passes. Tested terms.now memory.now s t passes) }
{
    verdict(&test(&terms.rows, memory, s, t), terms.need)
}

// What is known without a network of the flow tests from s to t and back: where the flow is plenty, both pass.
fn judge_both(terms: &Terms, memory: &Memory, s: usize, t: usize) -> Ways
    requires { Paired terms.now.rows s t × Enough terms.now.rows terms.now.need terms.now.plenty × Even (states_of terms.now.rows) memory.now.relation.now }
    ensures { (R : List Bool) → memory.now.relation.now ≡ packed R → Judged (passes_in terms.now.rows terms.now.need R s t) (passes_in terms.now.rows terms.now.need R t s) result }
{
    let test = test(&terms.rows, memory, s, t);
    let here = plenty_between(terms, &test);
    both_ways(&test, terms.need, here)
}

// Whether the sweep has struck once the flow test from s to t passed: the test back is judged.
fn passed_forth(terms: &Terms, memory: &mut Memory, at: Place) -> Result<bool, Asked>
    requires { Paired terms.now.rows at.s at.t × Worded (states_of terms.now.rows) memory.old }
    ensures { (Holding terms.now memory.old at false true → Tested terms.now memory.old at.s at.t true → ToTurn (FromTest terms.now memory.old at false memory.new) at.s (at.t + 1) result) × Same memory.old memory.new }
{
    match judge(terms, memory, at.t, at.s) {
        Some(true) => Ok(at.struck),
        Some(false) => {
            memory.strike(at.s, at.t);
            Ok(true)
        }
        None => Err(at.ask(true)),
    }
}

// Whether the sweep has struck after the turn of (s, t), which stands: it is tested if s has an exit, unless nothing that its tests read was struck since they passed.
fn turn(terms: &Terms, memory: &mut Memory, at: Place) -> Result<bool, Asked>
    requires { Fitting terms.now.rows × (at.s < at.t) × (at.t < states_of terms.now.rows) × AtTurn terms.now memory.old at × Stands memory.old at.s at.t }
    ensures { ToTurn (FromTurn terms.now memory.old at memory.new) at.s (at.t + 1) result × Same memory.old memory.new }
{
    let Place { s, t, struck } = at;
    if terms.rows.exits[s] == 0.0 || unchanged(&terms.rows, memory, s, t) {
        return Ok(struck);
    }
    match judge_both(terms, memory, s, t) {
        Ways::Plenty | Ways::Both(true) => Ok(struck),
        Ways::Forth => Err(at.ask(true)),
        Ways::Unknown => Err(at.ask(false)),
        Ways::Both(false) => {
            memory.strike(s, t);
            Ok(true)
        }
    }
}

// The turns of s with t and every higher state: of pairs that don't stand, nothing is to be done.
fn sweep_row(terms: &Terms, memory: &mut Memory, at: Place) -> Result<bool, Asked>
    requires { Fitting terms.now.rows × (at.s < at.t) × (at.t ≤ states_of terms.now.rows) × AtTurn terms.now memory.old at }
    ensures { ToTurn (FromTurn terms.now memory.old at memory.new) (at.s + 1) (at.s + 1 + 1) result × Same memory.old memory.new }
{
    let mut struck = at.struck;
    let mut from = at.t;
    // Stays: a turn strikes pairs, so that no iterator over those that stand can be lent meanwhile; with a `for` over all t, and the bit asked in `turn`, `relation_1000_3_many_classes` takes twice as long (24.9, 26.8, 29.3 ms instead of 10.5, 13.1, 16.8).
    while let Some(t) = memory.next(at.s, from) {
        struck = turn(terms, memory, Place { t, struck, ..at })?;
        from = t + 1;
    }
    Ok(struck)
}

// The rest of a sweep over the pairs s < t in rising order, and whether it struck.
fn sweep(terms: &Terms, memory: &mut Memory, at: Place) -> Result<bool, Asked>
    requires { Sweepable terms.now memory.old at }
    ensures { ToSweepEnd (FromTurn terms.now memory.old at memory.new) (states_of terms.now.rows) result × Same memory.old memory.new }
{
    let mut struck = at.struck;
    let mut t = at.t;
    for s in at.s..terms.rows.exits.len() {
        struck = sweep_row(terms, memory, Place { s, t, struck })?;
        t = s + 2;
    }
    Ok(struck)
}

// The rest of a sweep, and further ones until one without a strike.
pub(crate) fn advance(terms: &Terms, memory: &mut Memory, at: Place) -> Result<(), Asked>
    requires { Sweepable terms.now memory.old at }
    ensures { ToEnd (FromTurn terms.now memory.old at memory.new) (states_of terms.now.rows) result × Same memory.old memory.new }
{
    let mut struck = sweep(terms, memory, at)?;
    while struck {
        fade(memory);
        struck = sweep(terms, memory, Place::FIRST)?;
    }
    Ok(())
}

// True only if a flow of the test that is asked for is plenty: then the test back passes too.
fn ample(terms: &Terms, memory: &Memory, asked: Asked, answer: Result<Flow, Refusal>) -> bool
    requires { Paired terms.now.rows asked.s asked.t }
    ensures { result ≡ true → Ample terms.now asked (numbered answer) }
{
    let test = test(&terms.rows, memory, asked.s, asked.t);
    plenty_between(terms, &test).is_some_and(|x| enough(answer, x))
}

// Whether the sweep has struck once the test that is asked for ended: where it failed, the pair is struck.
fn tested(
    terms: &Terms,
    memory: &mut Memory,
    asked: Asked,
    answer: Result<Flow, Refusal>,
) -> Result<bool, Asked>
    requires { Paired terms.now.rows asked.s asked.t × Worded (states_of terms.now.rows) memory.old × AtTest terms.now memory.old asked × Answers terms.now.rows memory.old asked (numbered answer) }
    ensures { ToTurn (FromTest terms.now memory.old (place_of asked) asked.back memory.new) asked.s (asked.t + 1) result × Same memory.old memory.new }
{
    if !enough(answer, terms.need) {
        memory.strike(asked.s, asked.t);
        return Ok(true);
    }
    if asked.back || ample(terms, memory, asked, answer) {
        return Ok(asked.struck);
    }
    passed_forth(terms, memory, asked.place())
}

// The answer to the test that is asked for, and the sweeps from there on.
pub(crate) fn settle(
    terms: &Terms,
    memory: &mut Memory,
    asked: Asked,
    answer: Result<Flow, Refusal>,
) -> Result<(), Asked>
    requires { Asking terms.now memory.old asked × Answers terms.now.rows memory.old asked (numbered answer) }
    ensures { ToEnd (FromTest terms.now memory.old (place_of asked) asked.back memory.new) (states_of terms.now.rows) result × Same memory.old memory.new }
{
    let struck = tested(terms, memory, asked, answer)?;
    let next = Place {
        s: asked.s,
        t: asked.t + 1,
        struck,
    };
    advance(terms, memory, next)
}
