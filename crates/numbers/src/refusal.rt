// Why a call is turned back.
ghost use Rattle.std.specs.Prelude.{◌≡◌};
ghost use Rattle.numbers.specs.Refuse.{code, number};

// A variant for each number of document 01's list.
#[derive(Clone, Copy, Debug, PartialEq, Eq, PartialOrd, Ord)]
pub enum Refusal {
    CardLayout = 1, // a card is not as laid out
    CardSize = 2, // a model of a card is too large
    ModelSize = 3, // a model is too large
    OutOfRange = 4, // a number is not below its count, or a model or chain is not as built
    Weight = 5, // a weight is out of range
    Targets = 6, // a state has too many targets
    Store = 7, // a list or store is short
    NoInitialState = 8, // an initial state is absent
    Tolerance = 9, // ε or ρ is out of range
    StatesTogether = 10, // both models together have too many states
    DiscountOrRate = 11, // γ or a rate is out of range
    Observation = 12, // an observation is out of range
    Chain = 13, // a chain is not one
    TopOrRounds = 14, // `top` or `max_rounds` is too large
    NetworkOrMasses = 15, // a network is too large or not as made, or masses or costs are out of range
    Totals = 16, // masses have different totals
    Pairs = 17, // too many pairs are discovered
    CouplingStore = 18, // the coupling store is short
    Occupancy = 19, // `occupancy` has not come to its end
}

impl Refusal {
    // Stays: an enum has no conversion to its number but the cast; a `From` would be this body.
    pub fn number(self) -> u32
        ensures { result ≡ number self }
    {
        self as u32
    }
}

// The refusal's number, 0 where there is none.
// Stays: the C interface answers with this number.
pub fn code<T>(answer: &Result<T, Refusal>) -> u32
    ensures { result ≡ code answer.now }
{
    match answer {
        Ok(_) => 0,
        Err(refusal) => refusal.number(),
    }
}
