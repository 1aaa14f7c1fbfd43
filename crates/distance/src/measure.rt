// `distance` but for the row of contribution records.
ghost use Rattle.std.specs.Prelude.{◌≡◌};
ghost use Rattle.numbers.specs.Refuse.{numbered};
ghost use Rattle.distance_theory.specs.Lent.{SameScratch};
ghost use Rattle.distance_run.specs.Asked.{ran_in};
ghost use Rattle.distance.specs.Measuring.{measured_on};

use crate::check::distance_refusal;
use bisim_checks::rest::Rest;
use distance_run::question::Question;
use distance_run::run::run;
use distance_theory::lent::Scratch;
use distance_words::told::Answer;
use numbers::refusal::Refusal;

// The run of two chains, once the checks of the arguments have passed: scratch is all zero then. A refusal of theirs leaves it as it was.
pub fn measure(of: &Question, scratch: &mut Scratch, records: usize) -> Result<Answer, Refusal>
    ensures lists { SameScratch scratch.old scratch.new }
    ensures measured { ran_in (numbered result) scratch.new ≡ measured_on of.now scratch.old records }
{
    let rest = Rest::new(of.goal, scratch, records);
    distance_refusal(of, rest)?;
    run(of, scratch)
}
