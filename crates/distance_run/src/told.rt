// What is told of pairs whose couplings are solved.
ghost use Rattle.std.specs.Prelude.{◌≡◌};
ghost use Rattle.numbers.specs.Refuse.{numbered};
ghost use Rattle.distance_words.proofs.Found.{tell_of};

use distance_theory::Distance;
use distance_words::told::{Accounted, Answer, Rounds};
use numbers::refusal::Refusal;
use numbers::{EPS, ONE};

// 19 where mass is left, else the distance of n pairs: its value, the most that a value was off, and the rounds made.
pub(crate) fn tell(
    n: usize,
    value: f64,
    gamma: f64,
    made: Rounds,
    account: &Accounted,
) -> Result<Answer, Refusal>
    ensures { numbered result ≡ tell_of n value gamma made.residual made.rounds account.now }
{
    if EPS < account.mass {
        return Err(Refusal::Occupancy);
    }
    let listed = &account.listed;
    let distance = Distance {
        value,
        error_bound: made.residual / (ONE - gamma),
        gamma,
        pairs_explored: n,
        contributions: listed.count,
        rounds: made.rounds,
    };
    Ok(Answer {
        distance,
        records: listed.records,
    })
}
