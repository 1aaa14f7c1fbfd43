// The kind `rate`: two models, and the rate that covers both.
use crate::entries::Entry;
use chains::chain::common_rate;
use replay_text::columns::Model;
use replay_text::text::Reader;

pub fn run(r: &mut Reader) {
    let mut left = Model::new();
    let mut right = Model::new();
    left.read_next(r);
    right.read_next(r);
    let answer = common_rate(&left.lent(), &right.lent());
    r.check(Entry::CommonRate as usize, answer);
}
