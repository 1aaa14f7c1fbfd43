// `distance`, with the row of contribution records that is lent to it.
ghost use Rattle.std.specs.Prelude.{◌≡◌};
ghost use Rattle.numbers.specs.Refuse.{numbered};
ghost use Rattle.chain_theory.specs.Lent.{of_chain};
ghost use Rattle.distance_theory.specs.Lent.{SameScratch};
ghost use Rattle.distance_theory.specs.Outcome.{ends};
ghost use Rattle.distance_theory.specs.Outcome;
ghost use Rattle.distance.specs.Measuring.{handed, hand_out, memory_of};

use crate::measure::measure;
use chain_theory::Chain;
use distance_contributions::row::write_contributions;
use distance_run::question::Question;
use distance_theory::lent::Scratch;
use distance_theory::{Distance, Goal, PairContribution};
use distance_words::told::Answer;
use numbers::refusal::Refusal;

// The contributions that are told go into the row, unless it has under 64 records or over 64 are told; the rest as the answer.
pub fn hand_out(
    records: &mut [PairContribution],
    told: Result<Answer, Refusal>,
) -> Result<Distance, Refusal>
    ensures { handed (numbered result) records.new ≡ hand_out (numbered told) records.old }
{
    let answer = told?;
    // Stays: what the row refuses is dropped, for where it is short, or over 64 are told, this function told the distance all the same, and what it promised it still must; `measure` refuses such a row, and tells no more.
    let _ = write_contributions(records, &answer.records, answer.distance.contributions);
    Ok(answer.distance)
}

// The distance of two chains, and its contributions; or the first check that fails.
// Stays: with `of: &Question` the one caller, `tanqesha_distance`, would write the struct that is made here.
pub fn distance(
    left: &Chain,
    right: &Chain,
    goal: Goal,
    scratch: &mut Scratch,
    records: &mut [PairContribution],
) -> Result<Distance, Refusal>
    ensures lists { SameScratch scratch.old scratch.new }
    ensures ends { ends (numbered result) (memory_of scratch.new records.new) ≡ Outcome.distance left.now.shape (of_chain left.now) right.now.shape (of_chain right.now) goal.gamma goal.options (memory_of scratch.old records.old) }
{
    let of = Question {
        left: *left,
        right: *right,
        goal,
    };
    let told = measure(&of, scratch, records.len());
    hand_out(records, told)
}
