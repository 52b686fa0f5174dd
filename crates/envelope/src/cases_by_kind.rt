ghost use Rattle.std.specs.Prelude.{◌≡◌, ◌<◌, get_or};
ghost use Rattle.standard.specs.Kinds.{kind_count};
ghost use Rattle.envelope.specs.Places.{PlacesInRange};

use standard::KINDS;

// The load cases of each kind as a set: bit k is case k.
#[derive(Clone, Copy)]
pub struct CasesByKind {
    pub sets: [u64; KINDS],
    pub ghost in_range: { PlacesInRange sets },
}

impl CasesByKind {
    // The cases of a kind.
    // Stays: the number of a kind, since the pass in `sums` walks over the numbers.
    pub fn of(&self, kind: usize) -> u64
        requires { kind < kind_count }
        ensures { result ≡ get_or self.now.sets kind 0 }
    {
        self.sets[kind]
    }
}
