// How often the answers of each entry are the stored ones, and how often they differ.
ghost use Rattle.std.specs.Prelude.{◌≡◌};
ghost use Rattle.replay_text.specs.Tally.{more, none, tallied, other_tallied, tally_of};

// How many answers agree with the stored ones, and how many differ.
#[derive(Clone, Copy, Debug, Default)]
pub struct Tally {
    pub agree: u64,
    pub differ: u64,
}

impl Tally {
    // Stays: the bool is what is counted; two methods would leave its one test to each caller.
    fn count(&mut self, agrees: bool)
        ensures { self.new ≡ more self.old agrees }
    {
        if agrees {
            self.agree = self.agree.saturating_add(1);
        } else {
            self.differ = self.differ.saturating_add(1);
        }
    }
}

// The answers of each entry by its number, those of cases of no known kind or with more text than their kind has, and all.
#[derive(Clone, Copy, Debug, Default)]
pub struct Counts {
    pub entries: [Tally; 22],
    pub other: Tally,
    pub all: Tally,
}

impl Counts {
    pub fn new() -> Counts
        ensures { result ≡ none }
    {
        Counts::default()
    }

    // Stays: the bool is what is counted; by `get_mut` in place of test and index `grind` stopped at its limit of instances where there is such an entry (tried by two, some ten minutes).
    pub fn count(&mut self, entry: usize, agrees: bool)
        ensures { self.new ≡ tallied self.old entry agrees }
    {
        if entry < 22 {
            self.entries[entry].count(agrees);
        }
        self.all.count(agrees);
    }

    // A case that cannot be read: one difference.
    pub fn count_other(&mut self)
        ensures { self.new ≡ other_tallied self.old }
    {
        self.other.count(false);
        self.all.count(false);
    }

    // Prints how many answers of an entry agree and differ, and says how many differ. What can't be written is lost.
    pub fn print(&self, rt: &impl Print, what: &str, entry: usize) -> u64
        ensures { result ≡ (tally_of self.now entry).differ }
    {
        let of = self.entries.get(entry).copied().unwrap_or_default();
        let _ = println!(rt; "{what} {} agree {} differ", of.agree, of.differ);
        of.differ
    }

    // The two last lines: cases of no known kind, and all; it says how many of all differ.
    pub fn print_end(&self, rt: &impl Print) -> u64
        ensures { result ≡ self.now.all.differ }
    {
        let (other, all) = (self.other, self.all);
        let _ = println!(rt; "other {} agree {} differ", other.agree, other.differ);
        let _ = println!(rt; "{} agree, {} differ", all.agree, all.differ);
        all.differ
    }
}
