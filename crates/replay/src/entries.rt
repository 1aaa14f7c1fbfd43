// The entries that answers are counted for.
#[derive(Clone, Copy, Debug, PartialEq, Eq)]
pub enum Entry {
    IsValid,
    IsZero,
    Sum,
    Intern,
    Get,
    Resolve,
    Build,
    ModelRefusal,
    NumStates,
    NumTransitions,
    NumLabels,
    Initial,
    Successors,
    Label,
    LabelId,
}
