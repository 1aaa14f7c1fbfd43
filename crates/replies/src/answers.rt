// What an answer holds is put behind the references; a refusal is handed on, and leaves them as they were.
ghost use Rattle.std.specs.Prelude.{◌≡◌};
ghost use Rattle.numbers.specs.Refuse.{numbered, code};
ghost use Rattle.replies.specs.Answers.{number_of, held, present_of, value_of};
ghost use Rattle.replies.specs.Flows.{told, of_flow};

use flow_core::Flow;
use numbers::refusal::Refusal;

// A value.
pub fn put<T: Copy>(answer: Result<T, Refusal>, place: &mut T) -> Result<(), Refusal>
    ensures number { code result ≡ number_of (numbered answer) }
    ensures place { place.new ≡ held (numbered answer) place.old }
{
    *place = answer?;
    Ok(())
}

// A value that may be absent, and whether it is there: 1 or 0.
pub fn put_option<T: Copy>(
    answer: Result<Option<T>, Refusal>,
    present: &mut u32,
    place: &mut T,
) -> Result<(), Refusal>
    ensures number { code result ≡ number_of (numbered answer) }
    ensures present { present.new ≡ present_of (numbered answer) present.old }
    ensures place { place.new ≡ value_of (numbered answer) place.old }
{
    match answer? {
        Some(value) => {
            *present = 1;
            *place = value;
        }
        None => *present = 0,
    }
    Ok(())
}

// Two values.
pub fn put_pair<A: Copy, B: Copy>(
    answer: Result<(A, B), Refusal>,
    first: &mut A,
    second: &mut B,
) -> Result<(), Refusal>
    ensures number { code result ≡ number_of (numbered answer) }
    ensures places { (first.new, second.new) ≡ held (numbered answer) (first.old, second.old) }
{
    (*first, *second) = answer?;
    Ok(())
}

// A flow, its phases and its pushes.
pub fn put_flow(
    answer: Result<Flow, Refusal>,
    flow: &mut f64,
    phases: &mut usize,
    pushes: &mut usize,
) -> Result<(), Refusal>
    ensures { told (code result) flow.new phases.new pushes.new ≡ of_flow (numbered answer) flow.old phases.old pushes.old }
{
    let f = answer?;
    *flow = f.flow;
    *phases = f.phases;
    *pushes = f.pushes;
    Ok(())
}
