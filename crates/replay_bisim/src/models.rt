// The kind `bisim_distance`: two models and a goal; the answer, its contributions, and whether scratch is zero or as it was.
use crate::side::Side;
use bisim_measure::measure::measure;
use replay_measures::chains::Store;
use replay_measures::scratch::Lists;
use replay_measures::{answer, asked, scratch};
use replay_text::text::Reader;

// The models, the goal, and how much is lent; the answer, and what the lists that are lent hold then.
pub fn run(r: &mut Reader, left: &mut Side, right: &mut Side, lists: &mut Lists) {
    left.read(r);
    right.read(r);
    let goal = asked::read(r);
    let rooms = asked::read_rooms(r);
    let mut left_chain = Store::new();
    let mut right_chain = Store::new();
    let told = measure(
        &left.observed(),
        &mut left_chain.lend(left.rooms),
        &right.observed(),
        &mut right_chain.lend(right.rooms),
        goal,
        &mut lists.lend(rooms),
        rooms.records,
    );
    answer::expect(r, &told);
    scratch::expect_lists(r, 14);
    lists.expect(r, rooms);
    left_chain.expect(r, left.rooms);
    right_chain.expect(r, right.rooms);
    scratch::expect_kept(r);
}
