// The marks of a relation, byte after byte.
ghost use Rattle.std.specs.Prelude.{◌≡◌, ◌≤◌, ◌<◌, ◌+◌, ◌*◌, true, false, length, get_or};
ghost use Rattle.numbers.specs.Bits.{packed};
ghost use Rattle.epsdelta_theory.specs.Relation.{relation_bytes};
ghost use Rattle.epsdelta_theory.specs.Sweeps.{Task};
ghost use Rattle.epsdelta_theory.specs.Sweeps;
ghost use Rattle.epsdelta_theory.proofs.TasksIn.{marked_in};
ghost use Rattle.epsdelta_sweeps.specs.Marked.{MarksOf, Reached, Byte};

use crate::classed::Classed;
use epsdelta_theory::rates_close;

// Whether s and t have equal classes, and exit rates that pass the rate test.
fn marked(of: &Classed, s: usize, t: usize) -> bool
    requires { (s < length of.now.classes.now) × (t < length of.now.classes.now) }
    ensures { result ≡ marked_in of.now.classes.now of.now.exits.now of.now.rho s t }
{
    of.classes[s] == of.classes[t] && rates_close(of.exits[s], of.exits[t], of.rho)
}

// The entry of (s, t), by the pair's lower state and its higher one; false past the last state.
fn entry(of: &Classed, s: usize, t: usize) -> bool
    requires { t < length of.now.classes.now }
    ensures { (Q : Task) → MarksOf Q of.now → result ≡ get_or (Sweeps.marks Q) (s * length of.now.classes.now + t) false }
{
    s < of.classes.len() && marked(of, s.min(t), s.max(t))
}

// True only if the states of the eight entries of row s from column t on all have another class than s.
fn apart(of: &Classed, s: usize, t: usize) -> bool
    requires { (s < length of.now.classes.now) × (t + 8 ≤ length of.now.classes.now) }
    ensures { result ≡ true → Byte of.now (s * length of.now.classes.now + t) 0 }
{
    !of.classes[t..t + 8].contains(&of.classes[s])
}

// The byte of the eight entries from `first` on, in whatever rows, the last of them first.
fn byte_of(of: &Classed, first: usize) -> u8
    requires { Reached of.now first }
    ensures { Byte of.now first result }
{
    let states = of.classes.len();
    let mut byte = 0;
    for i in (first..first + 8).rev() {
        byte = 2 * byte + u8::from(entry(of, i / states, i % states));
    }
    byte
}

// The byte of the eight entries of row s from column t on, without a division for each.
fn byte_in_row(of: &Classed, s: usize, t: usize) -> u8
    requires { t + 8 ≤ length of.now.classes.now }
    ensures { Byte of.now (s * length of.now.classes.now + t) result }
{
    let mut byte = 0;
    for i in (t..t + 8).rev() {
        byte = 2 * byte + u8::from(entry(of, s, i));
    }
    byte
}

// The same as `byte_of`, without a look at each entry where no class is shared.
fn byte_at(of: &Classed, first: usize) -> u8
    requires { Reached of.now first }
    ensures { Byte of.now first result }
{
    let states = of.classes.len();
    let s = first / states;
    let t = first % states;
    if states <= s || states - t < 8 {
        return byte_of(of, first);
    }
    if apart(of, s, t) {
        return 0;
    }
    byte_in_row(of, s, t)
}

// Writes the marks of all pairs, both orders; spare bits are zero.
pub(crate) fn marks(of: &Classed, relation: &mut [u8])
    requires { (length of.now.classes.now ≤ 2000) × (length relation.old ≡ relation_bytes (length of.now.classes.now)) }
    ensures { (Q : Task) → MarksOf Q of.now → relation.new ≡ packed (Sweeps.marks Q) }
{
    for (k, byte) in relation.iter_mut().enumerate() {
        *byte = byte_at(of, 8 * k);
    }
}
