// What a run tells, set against the stored answer.
ghost use Rattle.replay_text.specs.Reading.{Lasts};

use distance_theory::{Distance, PairContribution};
use distance_words::told::{Answer, Listed};
use numbers::refusal::Refusal;
use replay_text::lists::front;
use replay_text::text::Reader;

// The values of a distance, and its counts.
type Figures = ((f64, f64, f64), (usize, usize, usize));

fn figures(d: Distance) -> Figures {
    (
        (d.value, d.error_bound, d.gamma),
        (d.pairs_explored, d.contributions, d.rounds),
    )
}

// The first n records: each field in a list of its own.
// Stays: `map` is of an array, so that the list of a field is made of the whole and cut afterwards; of a slice it would be a loop for each field.
fn expect_records(r: &mut Reader, records: [PairContribution; 64], n: usize)
    ensures { Lasts r.old r.new }
{
    r.expect_list(front(&records.map(|c| c.left), n));
    r.expect_list(front(&records.map(|c| c.right), n));
    r.expect_list(front(&records.map(|c| c.gap), n));
    r.expect_list(front(&records.map(|c| c.occupancy), n));
    r.expect_list(front(&records.map(|c| c.contribution), n));
}

// The distance and its contributions, or the refusal, with zeros and none.
pub fn expect(r: &mut Reader, told: &Result<Answer, Refusal>)
    ensures { Lasts r.old r.new }
{
    match told {
        Ok(answer) => {
            r.expect_answer(Ok(figures(answer.distance)));
            expect_records(r, answer.records, answer.distance.contributions);
        }
        Err(refusal) => {
            r.expect_answer::<Figures>(Err(*refusal));
            expect_records(r, Listed::default().records, 0);
        }
    }
}
