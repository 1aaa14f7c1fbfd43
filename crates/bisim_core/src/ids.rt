// Ids of states and labels, and label values interned by first appearance.
ghost use Rattle.std.specs.Prelude.{◌≡◌, ◌&&◌, ◌||◌, not, take, eqb, ltb};
ghost use Rattle.numbers.specs.Refuse.{code, numbered};
ghost use Rattle.bisim_core.specs.Ids;
ghost use Rattle.bisim_core.specs.Ids.{ends, listed};

use numbers::refusal::Refusal;
use numbers::seek;

#[repr(C)]
#[derive(Clone, Copy, Debug, PartialEq, Eq, PartialOrd, Ord)]
pub struct StateId(pub u32);

#[derive(Clone, Copy, Debug, PartialEq, Eq, PartialOrd, Ord)]
pub struct LabelId(pub u32);

// The label values known: a list of which the first `count` are in use.
// Stays: the C interface lends the list with room for more, and a count that may be too large.
#[derive(Clone, Copy, Debug)]
pub struct Interner<'a> {
    pub labels: &'a [u32],
    pub count: usize,
}

// Whether x is in a list. Every number is looked at, so that several can be compared at a time.
fn listed(labels: &[u32], x: u32) -> bool
    ensures { result ≡ Ids.listed x labels.now }
{
    labels.iter().fold(false, |found, y| found | (*y == x))
}

// No value is listed twice: none is among those before it.
pub(crate) fn single(labels: &[u32]) -> bool
    ensures { result ≡ Ids.single labels.now }
{
    (0..labels.len()).all(|i| !listed(&labels[..i], labels[i]))
}

impl Interner<'_> {
    // Where the value stands among those in use.
    fn place(&self, value: u32) -> Option<usize>
        ensures { result ≡ Ids.place value (take self.now.count self.now.labels.now) }
    {
        seek(&self.labels[..self.count.min(self.labels.len())], value)
    }

    // Over 256 values, once this one is added if it is not known: the list is read only where 256 are in use.
    fn overfull(&self, value: u32) -> bool
        ensures { result ≡ (ltb 256 self.now.count || (eqb self.now.count 256 && not (listed value (take self.now.count self.now.labels.now)))) }
    {
        self.count > 256 || (self.count == 256 && self.place(value).is_none())
    }

    // Too few entries for the count, or a value listed twice.
    fn mislisted(&self) -> bool
        ensures { result ≡ Ids.mislisted self.now.labels.now self.now.count }
    {
        self.labels.len() < self.count || !single(&self.labels[..self.count])
    }

    // Over 256 values in use, or mislisted.
    fn check(&self) -> Result<(), Refusal>
        ensures { code result ≡ Ids.get_refusal self.now.labels.now self.now.count }
    {
        if self.count > 256 {
            Err(Refusal::ModelSize)
        } else if self.mislisted() {
            Err(Refusal::OutOfRange)
        } else {
            Ok(())
        }
    }

    // The id of a label value, if it has one.
    pub fn get(&self, value: u32) -> Result<Option<LabelId>, Refusal>
        ensures { numbered result ≡ Ids.get self.now.labels.now self.now.count value }
    {
        self.check()?;
        Ok(self.place(value).map(|at| LabelId(at as u32)))
    }

    // The label value of an id. The list is read last, since that takes longest.
    pub fn resolve(&self, id: LabelId) -> Result<u32, Refusal>
        ensures { numbered result ≡ Ids.resolve self.now.labels.now self.now.count id.0 }
    {
        if self.count > 256 {
            return Err(Refusal::ModelSize);
        }
        let at = id.0 as usize;
        if at >= self.count {
            return Err(Refusal::OutOfRange);
        }
        self.check()?;
        Ok(self.labels[at])
    }
}

// The id of a label value, and how many values the list then has: a new value goes behind the `count` in use. 3: a 257th label; 4: mislisted; 7: no room.
// Stays: the C interface lends the list and counts beside it how much is in use, and a refusal has to leave the list as it was.
pub fn intern(labels: &mut [u32], count: usize, value: u32) -> Result<(LabelId, usize), Refusal>
    ensures { ends (numbered result) labels.new ≡ Ids.interning labels.old count value }
{
    let known = Interner { labels, count };
    if known.overfull(value) {
        return Err(Refusal::ModelSize);
    }
    if known.mislisted() {
        return Err(Refusal::OutOfRange);
    }
    match known.place(value) {
        Some(at) => Ok((LabelId(at as u32), count)),
        None => {
            if labels.len() <= count {
                return Err(Refusal::Store);
            }
            let more = count + 1;
            labels[count] = value;
            Ok((LabelId(count as u32), more))
        }
    }
}
