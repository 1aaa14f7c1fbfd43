// The kind `normalise`: two chains; by how much their observations differ, and the observations of each afterwards.
use crate::entries::Entry;
use normalise::normalise;
use replay_measures::chains::Store;
use replay_text::text::Reader;

// The answer, and the observations as `normalise` leaves them.
pub fn run(r: &mut Reader) {
    let mut left = Store::new();
    let mut right = Store::new();
    let mut left = left.read_apart(r);
    let mut right = right.read_apart(r);
    let answer = normalise(&mut left, &mut right);
    r.expect_answer(answer);
    r.expect_list(left.observations);
    r.expect_list(right.observations);
    r.count(Entry::Normalise as usize);
}
