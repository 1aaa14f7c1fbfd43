// The kinds `relation` and `related`.
use crate::entries::Entry;
use crate::store;
use bisim_core::ids::StateId;
use bisim_core::wlts::Wlts;
use bisimilar::bisimilar::epsdelta_bisimilar;
use bisimilar::related::related;
use epsdelta::asked::{Side, Sides};
use epsdelta::relation::epsdelta;
use epsdelta_theory::tolerances::Tolerances;
use min_epsilon::least::min_epsilon;
use numbers::refusal::Refusal;
use replay_text::columns::Model;
use replay_text::lists;
use replay_text::text::Reader;
use replay_text::values::Value;

// What is asked: two models with the classes of their states, the tolerances, and the bytes listed.
#[derive(Clone, Copy)]
struct Asked<'a> {
    sides: Sides<'a>,
    tolerances: Tolerances,
    listed: &'a [u8],
}

// What an entry answers, by `answer`, in bytes as they are at first, and the bytes as it leaves them.
fn check<T: Value, F: FnOnce(Asked, &mut [u8]) -> Result<T, Refusal>>(
    r: &mut Reader,
    entry: Entry,
    x: Asked,
    lent: &mut [u8],
    answer: F,
)
    requires { F.IsAlwaysCallable answer }
{
    store::fill(lent, x.listed);
    r.expect_answer(answer(x, lent));
    store::expect(r, lent, x.listed.len());
    r.count(entry as usize);
}

// The classes, the tolerances and the bytes; each entry gets the bytes as they are at first.
fn run_lent(r: &mut Reader, bytes: &mut [u8], left: Wlts, right: Wlts) {
    let mut left_classes = [0u32; 2112];
    let mut right_classes = [0u32; 2112];
    let mut listed = [0u8; 512];
    let sides = Sides {
        left: Side {
            model: left,
            classes: r.next_list_field(&mut left_classes),
        },
        right: Side {
            model: right,
            classes: r.next_list_field(&mut right_classes),
        },
    };
    let tolerances = Tolerances {
        epsilon: r.next_real_field(),
        rho: r.next_real_field(),
    };
    let l = store::read(r, &mut listed, bytes.len());
    let x = Asked {
        sides,
        tolerances,
        listed: l.listed,
    };
    let lent = lists::front_mut(bytes, l.room);
    check(r, Entry::Epsdelta, x, lent, |x, lent| {
        epsdelta(&x.sides, x.tolerances, lent)
    });
    check(r, Entry::EpsdeltaBisimilar, x, lent, |x, lent| {
        epsdelta_bisimilar(&x.sides, x.tolerances, lent)
    });
    check(r, Entry::MinEpsilon, x, lent, |x, lent| {
        min_epsilon(&x.sides, x.tolerances.rho, lent)
    });
}

// Both models, and what comes after them.
pub fn run(r: &mut Reader, bytes: &mut [u8]) {
    let mut left = Model::new();
    let mut right = Model::new();
    left.read_next(r);
    right.read_next(r);
    run_lent(r, bytes, left.lent(), right.lent());
}

// Whether the bytes, as they are handed in, hold s with t.
pub fn run_related(r: &mut Reader, bytes: &mut [u8]) {
    let mut listed = [0u8; 512];
    let left = r.next_number_field() as usize;
    let right = r.next_number_field() as usize;
    let l = store::read(r, &mut listed, bytes.len());
    let s = StateId(r.next_short_field());
    let t = StateId(r.next_short_field());
    let lent = lists::front_mut(bytes, l.room);
    store::fill(lent, l.listed);
    r.expect_answer(related(left, right, lent, s, t));
    r.count(Entry::Related as usize);
}
