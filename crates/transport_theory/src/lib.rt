// `transport` as a definition (specs/) and its laws (proofs/).
#![tactic(auto)]

ghost use Rattle.std.specs.Prelude.{◌≡◌, length};
ghost use Rattle.transport_theory.specs.Lent.{few, places_of};

// The masses of both sides, and what it costs to move one unit of mass from each on the left to each on the right, in row order.
#[derive(Clone, Copy, Debug)]
pub struct Masses<'a> {
    pub left: &'a [f64],
    pub right: &'a [f64],
    pub costs: &'a [f64],
}

impl Masses<'_> {
    // At most 32 masses on a side.
    pub fn few(&self) -> bool
        ensures { result ≡ few (length self.now.left.now) (length self.now.right.now) }
    {
        self.left.len() <= 32 && self.right.len() <= 32
    }

    // How many places the links of at most 32 masses on a side take: one for each mass and each cell, and one for its reverse. None where there are more.
    pub fn places(&self) -> Option<usize>
        ensures { result ≡ places_of (length self.now.left.now) (length self.now.right.now) }
    {
        if !self.few() {
            return None;
        }
        let m = self.left.len();
        let n = self.right.len();
        Some(2 * (m + n + m * n))
    }
}
