// The flow run as a definition (specs/), what is proved of every run (proofs/Theorem.antt), and the push along a path.
#![tactic(auto)]

ghost use Rattle.std.specs.Prelude.{◌≡◌};
ghost use Rattle.flow_theory.specs.Network.{rev};

pub mod path; // path.rt: the push along a path

// The flow after a phase, and the pushes of the phase.
#[derive(Clone, Copy, Debug, PartialEq)]
pub struct AfterPhase {
    pub flow: f64,
    pub count: usize,
}

// The reverse of a link, and the link of a reverse: links 2k and 2k + 1 are a pair.
// Stays: the node that a link leaves is `heads[reverse(e)]` where it is asked for. By a total `tail(heads, e)`, which tests each index by `get`, runs on networks of 66 nodes and 964 added links take 1.6 % more instructions, and 1.7 % more on 18 nodes and 60 (built by rustc -O3).
pub fn reverse(e: usize) -> usize
    ensures { result ≡ rev e }
{
    e ^ 1
}
