// What is asked of two chains.
use chain_theory::Chain;
use distance_theory::Goal;

// Two chains, and what is asked of how far they are apart.
#[derive(Clone, Copy, Debug)]
pub struct Question<'a> {
    pub left: Chain<'a>,
    pub right: Chain<'a>,
    pub goal: Goal,
}
