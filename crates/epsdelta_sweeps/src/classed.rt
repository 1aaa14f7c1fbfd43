// What the marks of a relation are made of.
ghost use Rattle.std.specs.Prelude.{◌≡◌, length};

// The class and the exit rate of each state, and by what factor rates may differ.
#[derive(Clone, Copy)]
pub(crate) struct Classed<'a> {
    pub(crate) classes: &'a [u32],
    pub(crate) exits: &'a [f64],
    pub(crate) rho: f64,
    ghost rated: { length exits.now ≡ length classes.now },
}
