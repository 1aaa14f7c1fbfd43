// The kind `real`: `Real` of the crate numbers.
use crate::entries::Entry;
use numbers::Real;
use replay_text::text::Reader;

pub fn run(r: &mut Reader) {
    let mut store = [0.0f64; 2112];
    let x = Real(r.next_real_field());
    let xs = r.next_list_field(&mut store);
    r.check(Entry::IsValid as usize, Ok(x.is_valid()));
    r.check(Entry::IsZero as usize, Ok(x.is_zero()));
    r.check(Entry::Sum as usize, Ok(Real::sum(xs).0));
}
