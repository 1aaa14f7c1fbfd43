// The kind `distance`: two chains and a goal; the answer, its contributions, and whether scratch is zero or as it was.
use distance::measure::measure;
use distance_run::question::Question;
use replay_measures::chains::Store;
use replay_measures::scratch::Lists;
use replay_measures::{answer, asked, scratch};
use replay_text::text::Reader;

// The chains, the goal, and how much is lent; the answer, and what each list holds then.
pub fn run(r: &mut Reader, lists: &mut Lists) {
    let mut left = Store::new();
    let mut right = Store::new();
    let left = left.read_together(r);
    let right = right.read_together(r);
    let goal = asked::read(r);
    let rooms = asked::read_rooms(r);
    let of = Question {
        left: left.chain(),
        right: right.chain(),
        goal,
    };
    let told = measure(&of, &mut lists.lend(rooms), rooms.records);
    answer::expect(r, &told);
    scratch::expect_lists(r, 6);
    lists.expect(r, rooms);
    scratch::expect_kept(r);
}
