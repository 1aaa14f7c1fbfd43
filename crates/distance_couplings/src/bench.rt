// Work space for the cheapest couplings of many pairs.
ghost use Rattle.std.specs.Prelude.{◌≡◌, replicate};
ghost use Rattle.numbers.specs.Real.{nought};
ghost use Rattle.transport.specs.Network as network;

// What one transport is made on: a network, and lists for the rows and the columns of its plan.
#[derive(Drop)]
pub(crate) struct Moving {
    pub(crate) bench: transport::bench::Bench,
    pub(crate) rows: [u32; 1024],
    pub(crate) columns: [u32; 1024],
}

// The same, and lists for the costs and the masses that are moved. What it holds is work space: only the next call's own writing touches it.
#[derive(Drop)]
pub struct Bench {
    pub(crate) costs: [f64; 1024],
    pub(crate) fitted: [f64; 32],
    pub(crate) moving: Moving,
}

impl Bench {
    // One whose numbers are all 0.
    pub fn new() -> Bench
        ensures { result ≡ record { costs = replicate 1024 nought; fitted = replicate 32 nought; moving = record { bench = network.clear; rows = replicate 1024 0; columns = replicate 1024 0 } } }
    {
        Bench {
            costs: [0.0; 1024],
            fitted: [0.0; 32],
            moving: Moving {
                bench: transport::bench::Bench::new(),
                rows: [0; 1024],
                columns: [0; 1024],
            },
        }
    }
}
