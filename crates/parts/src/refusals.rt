// Refusals of two models or chains.
ghost use Rattle.std.specs.Prelude.{◌≡◌};
ghost use Rattle.numbers.specs.Refuse.{code};
ghost use Rattle.parts.specs.Earlier;

use numbers::refusal::Refusal;

// Of what is refused of each by number, the check that comes first; 0 if nothing.
pub fn earlier_number(left: u32, right: u32) -> u32
    ensures { result ≡ Earlier.earlier left right }
{
    match (left, right) {
        (0, _) => right,
        (_, 0) => left,
        _ => left.min(right),
    }
}

// Of what turns each of two back, the check that comes first.
// Stays: of `Err(a.min(b))` the check knows no more than `ord_min (RefusalOrd.cmp-value) a b`, and no law leads from there to the numbers; of `b < a` it does.
pub fn earlier(left: Result<(), Refusal>, right: Result<(), Refusal>) -> Result<(), Refusal>
    ensures { code result ≡ Earlier.earlier (code left) (code right) }
{
    match (left, right) {
        (Ok(()), _) => right,
        (Err(_), Ok(())) => left,
        (Err(a), Err(b)) => { if b < a { right } else { left } }
    }
}
