// The report's text in a lent store.
ghost use Rattle.std.specs.Prelude.{◌≡◌, ◌+◌, ◌*◌, ◌≤◌, ◌<◌, length};
ghost use Rattle.numbers.specs.Refuse.{numbered};
ghost use Rattle.epsdelta_theory.specs.Relation;
ghost use Rattle.card_layout.proofs.Writes.{PairsPut};
ghost use Rattle.card_report.specs.Report;
ghost use Rattle.card_report.specs.Report.{relation_in, refusal_line, Printed};

use crate::lines::put_line;
use epsdelta_theory::relation_bytes;
use numbers::bit;
use numbers::refusal::Refusal;

// The greatest report: a head and 1,024 pairs.
pub const MOST_REPORT: usize = 13331;

// A relation over the states of two models, and how many states each has; its pairs are those of a left state and a right one.
#[derive(Clone, Copy, Debug)]
struct Pairs<'a> {
    relation: &'a [u8],
    left: u32,
    right: u32,
    ghost few: { (left ≤ 32) × (right ≤ 32) },
}

impl Pairs<'_> {
    ghost use Rattle.card_report.specs.Paired.{relation_of};

    // Left state s and right state t are related.
    fn related(&self, s: u32, t: u32) -> bool
        requires { (s < self.now.left) × (t < self.now.right) }
        ensures { result ≡ Relation.related (self.now.left + self.now.right) self.now.left (relation_of self.now) s t }
    {
        let bit_of = s * (self.left + self.right) + (self.left + t);
        bit(self.relation, bit_of as usize)
    }

    // The related pairs of left state s, written to the first bytes. Gives how many bytes.
    fn put_across(&self, s: u32, out: &mut [u8]) -> usize
        requires { (s < self.now.left) × (13 * self.now.right ≤ length out.old) }
        ensures { PairsPut (Report.across (relation_of self.now) self.now.left self.now.right s self.now.right 0) (13 * self.now.right) out.old result out.new }
    {
        let mut size = 0;
        for t in 0..self.right {
            if self.related(s, t) {
                put_line(&mut out[size..], &[s, t]);
                size += 13;
            }
        }
        size
    }

    // The related pairs by left then right, written to the first bytes. Gives how many bytes.
    fn put(&self, out: &mut [u8]) -> usize
        requires { 416 * self.now.left ≤ length out.old }
        ensures { PairsPut (Report.pairs (relation_of self.now) self.now.left self.now.right) (416 * self.now.left) out.old result out.new }
    {
        let mut size = 0;
        for s in 0..self.left {
            size += self.put_across(s, &mut out[size..]);
        }
        size
    }
}

// Writes the report of a relation over the states of both models, and gives its length: 2 for over 32 states, 7 where the relation or the store is short.
pub fn report_text(left: u32, right: u32, relation: &[u8], out: &mut [u8]) -> Result<usize, Refusal>
    ensures { Printed (Report.report_fault left right (length relation.now) (length out.old)) (Report.report (relation_in relation.now (left + right)) left right) out.old (numbered result) out.new }
{
    if left > 32 || right > 32 {
        return Err(Refusal::CardSize);
    }
    let needed = relation_bytes((left + right) as usize);
    if relation.len() < needed || out.len() < MOST_REPORT {
        return Err(Refusal::Store);
    }
    let of = Pairs {
        relation,
        left,
        right,
    };
    let size = of.put(&mut out[19..]);
    put_line(out, &[left, right, (size / 13) as u32]);
    Ok(19 + size)
}

// Writes a refusal's line, and gives its length; 7 where the store is short for a report.
pub fn refusal_text(number: u32, out: &mut [u8]) -> Result<usize, Refusal>
    ensures { Printed (Report.store_fault (length out.old)) (refusal_line number) out.old (numbered result) out.new }
{
    if out.len() < MOST_REPORT {
        return Err(Refusal::Store);
    }
    put_line(out, &[number]);
    Ok(7)
}
