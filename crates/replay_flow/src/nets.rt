// Networks as rows of numbers: what a case does not list is zero.
ghost use Rattle.std.specs.Prelude.{◌<◌};

use flow::network::{FlowNetwork, Link};
use replay_text::text::Reader;
use std::array;

// A network, and how many links, starts and places of the node lists the case lists.
#[derive(Clone, Copy)]
pub struct Listed {
    pub net: FlowNetwork,
    pub links: usize,
    pub starts: usize,
    pub list: usize,
}

// The links of a network as a case lists them, a row for each of their fields.
#[derive(Drop)]
struct Rows {
    heads: [u32; 2176],
    caps: [f64; 2176],
    costs: [f64; 2176],
}

// A network of so many nodes without links, as rows of zeros.
pub fn blank(nodes: usize) -> FlowNetwork {
    let links = [Link {
        head: 0,
        cap: 0.0,
        cost: 0.0,
    }; 2176];
    let starts = [0u32; 67];
    let list = [0u32; 2176];
    FlowNetwork {
        links,
        count: 0,
        nodes,
        starts,
        list,
    }
}

impl Rows {
    fn new() -> Rows {
        Rows {
            heads: [0; 2176],
            caps: [0.0; 2176],
            costs: [0.0; 2176],
        }
    }

    // The rows of a case, and how many links they list.
    fn read(&mut self, r: &mut Reader) -> usize {
        let links = r.next_list_field(&mut self.heads).len();
        r.next_list_field(&mut self.caps);
        r.next_list_field(&mut self.costs);
        links
    }

    fn pack(&self) -> [Link; 2176] {
        array::from_fn(
            |i|
                requires { i < 2176 }
            {
                Link {
                    head: self.heads[i],
                    cap: self.caps[i],
                    cost: self.costs[i],
                }
            },
        )
    }
}

pub fn read(r: &mut Reader) -> Listed {
    let nodes = r.next_number_field() as usize;
    let count = r.next_number_field() as usize;
    let mut rows = Rows::new();
    let n = rows.read(r);
    let mut starts = [0u32; 67];
    let mut list = [0u32; 2176];
    let s = r.next_list_field(&mut starts).len();
    let o = r.next_list_field(&mut list).len();
    let links = rows.pack();
    Listed {
        net: FlowNetwork {
            links,
            count,
            nodes,
            starts,
            list,
        },
        links: n,
        starts: s,
        list: o,
    }
}
