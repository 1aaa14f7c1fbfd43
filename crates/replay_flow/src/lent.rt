// A network lent to an entry, and taken back.
ghost use Rattle.std.specs.Prelude.{◌≡◌};
ghost use Rattle.numbers.specs.Refuse.{numbered, code};
ghost use Rattle.flow.specs.Network as nets;
ghost use Rattle.flow.specs.Network.{flow_through, added, leaves};

use flow::network::FlowNetwork;
use flow_check::{Edge, Ends};
use flow_core::Flow;
use numbers::refusal::Refusal;

// What an entry answers, and the network that it leaves.
#[derive(Clone, Copy)]
pub struct Left<T> {
    pub answer: Result<T, Refusal>,
    pub net: FlowNetwork,
}

pub fn max_flow(mut net: FlowNetwork, ends: Ends) -> Left<Flow>
    ensures { nets.ends (numbered result.answer) result.net ≡ flow_through net ends.source ends.sink }
{
    let answer = net.max_flow(ends);
    Left { answer, net }
}

pub fn add_edge(mut net: FlowNetwork, edge: Edge) -> Left<()>
    ensures { leaves (code result.answer) result.net ≡ added net edge.from edge.to edge.cap edge.cost }
{
    let answer = net.add_edge(edge);
    Left { answer, net }
}
