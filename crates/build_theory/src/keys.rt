// Transitions as numbers whose order is that of their parts.
ghost use Rattle.std.specs.Prelude.{◌≡◌, ◌+◌, ◌*◌, ◌/◌, ◌%◌};

// The triple of an edge: source, label id (8 bits) and target (11 bits).
#[derive(Clone, Copy, Debug, PartialEq, Eq, PartialOrd, Ord)]
pub struct Triple(pub u64);

impl Triple {
    pub fn source(self) -> u64
        ensures { result ≡ self.0 / 524288 }
    {
        self.0 / 524288
    }

    pub fn label(self) -> u32
        ensures { result ≡ (self.0 / 2048) % 256 }
    {
        (self.0 / 2048 % 256) as u32
    }

    pub fn target(self) -> u32
        ensures { result ≡ self.0 % 2048 }
    {
        (self.0 % 2048) as u32
    }
}

// The key of a transition, by which a sort of numbers is the stable sort: its triple and its place (12 bits).
#[derive(Clone, Copy, Debug, PartialEq, Eq, PartialOrd, Ord)]
pub struct Key(pub u64);

impl Key {
    pub fn new(source: u32, label: u8, target: u32, at: u16) -> Key
        ensures { result.0 ≡ ((source * 256 + label) * 2048 + target) * 4096 + at }
    {
        let labelled = u64::from(source) * 256 + u64::from(label);
        Key((labelled * 2048 + u64::from(target)) * 4096 + u64::from(at))
    }

    pub fn triple(self) -> Triple
        ensures { result.0 ≡ self.0 / 4096 }
    {
        Triple(self.0 / 4096)
    }

    pub fn at(self) -> usize
        ensures { result ≡ self.0 % 4096 }
    {
        (self.0 % 4096) as usize
    }
}
