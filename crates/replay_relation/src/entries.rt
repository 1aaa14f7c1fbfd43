// The entries that answers are counted for.
#[derive(Clone, Copy, Debug, PartialEq, Eq)]
pub enum Entry {
    Epsdelta,
    EpsdeltaBisimilar,
    MinEpsilon,
    Related,
}
