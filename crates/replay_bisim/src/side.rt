// A model in the text, with its state, its observations and how much is lent for its chain.
use bisim_core::ids::StateId;
use chains::observed::Observed;
use replay_measures::asked;
use replay_measures::asked::ChainRooms;
use replay_text::columns::{Column, Model};
use replay_text::text::Reader;

// What is read.
#[derive(Drop)]
pub struct Side {
    model: Model,
    state: StateId,
    observations: Column<f64, 200>,
    pub rooms: ChainRooms,
}

impl Side {
    // Nothing is read yet.
    pub fn new() -> Side {
        Side {
            model: Model::new(),
            state: StateId(0),
            observations: Column::new(),
            rooms: ChainRooms {
                offsets: 0,
                targets: 0,
                probs: 0,
                seen: 0,
            },
        }
    }

    // The lists of whole numbers have room for 400 entries together, weights and observations for 200.
    pub fn read(&mut self, r: &mut Reader) {
        let room = self.model.read_within(400, 200, r);
        self.state = StateId(r.next_short_field());
        self.observations.fill_within(room, r);
        self.rooms = asked::read_chain_rooms(r);
    }

    // What is asked of it.
    pub fn observed<'a>(&'a self) -> Observed<'a> {
        Observed {
            model: self.model.lent(),
            state: self.state,
            observations: self.observations.read(),
        }
    }
}
