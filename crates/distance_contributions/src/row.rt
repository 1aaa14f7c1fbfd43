// The lent row of contribution records.
ghost use Rattle.std.specs.Prelude.{◌≡◌};
ghost use Rattle.numbers.specs.Refuse.{code};
ghost use Rattle.distance_contributions.specs.Row.{stored, written};

use distance_theory::PairContribution;
use numbers::refusal::Refusal;

// Writes the first `count` of 64 records into a lent row, and keeps what stands behind them. 7 where the row has under 64 records, 14 where over 64 are to be written.
// Stays: there is no heap, so that the records are 64 and the count says how many of them are meant; a slice cut by the caller could not be refused by 14.
pub fn write_contributions(
    records: &mut [PairContribution],
    from: &[PairContribution; 64],
    count: usize,
) -> Result<(), Refusal>
    ensures { stored (code result) records.new ≡ written from.now count records.old }
{
    if records.len() < 64 {
        return Err(Refusal::Store);
    }
    if count > 64 {
        return Err(Refusal::TopOrRounds);
    }
    records[..count].copy_from_slice(&from[..count]);
    Ok(())
}
