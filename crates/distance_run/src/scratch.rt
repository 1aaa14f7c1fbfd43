// Scratch: the lists of the pairs and the coupling store, all zero once a run is over.
ghost use Rattle.std.specs.Prelude.{◌≡◌};
ghost use Rattle.distance_theory.specs.Lent.{SameScratch};
ghost use Rattle.distance_theory.specs.Outcome.{zeros, noughts};

use distance_theory::lent::Scratch;

// Every entry of the lists of pairs and of the coupling store is 0.
// Stays: a function of one caller; a method of `Scratch` would stand in distance_theory and be public.
pub(crate) fn clear(scratch: &mut Scratch)
    ensures same { SameScratch scratch.old scratch.new }
    ensures lefts { scratch.new.lefts.now ≡ zeros scratch.old.lefts.now }
    ensures rights { scratch.new.rights.now ≡ zeros scratch.old.rights.now }
    ensures codes { scratch.new.codes.now ≡ zeros scratch.old.codes.now }
    ensures places { scratch.new.places.now ≡ zeros scratch.old.places.now }
    ensures masses { scratch.new.masses.now ≡ noughts scratch.old.masses.now }
{
    scratch.lefts.fill(0);
    scratch.rights.fill(0);
    scratch.codes.fill(0);
    scratch.places.fill(0);
    scratch.masses.fill(0.0);
}
