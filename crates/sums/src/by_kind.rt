ghost use Rattle.std.specs.Prelude.{◌≡◌, ℕ, ◌<◌, ◌+ℤ◌, pos, neg_ℤ};
ghost use Rattle.standard.specs.Kinds.{kind_count, number_of};
ghost use Rattle.envelope.specs.Signs.{over, under};
ghost use Rattle.sums.specs.Sums.{SidesInRange, SidesAtMost, sum_most, held_at, SumsInRange, KindPut, fluid_between, fluid_acts};

use crate::Sides;
use envelope::Sign;
use standard::{KINDS, Kind};

// The sums of each kind on one effect: above zero, and below without its sign.
// Stays: numbers without a sign, cast both ways (`as` is proved to fit), since with `[Sides; KINDS]` a utilisation takes 9 % more
// instructions and the extremes 5 %, and with `unsigned_abs` in `put` a utilisation 9 %.
#[derive(Clone, Copy)]
pub struct Sums {
    pub by_kind: [[u64; 2]; KINDS],
    pub ghost in_range: { SumsInRange by_kind },
}

impl Sums {
    // No case is summed.
    pub fn new() -> Self {
        Sums {
            by_kind: [[0, 0]; KINDS],
        }
    }

    // The sides of a kind in place of what was held of it.
    // Stays: the number of a kind, since the pass walks over a run of kinds.
    pub(crate) fn put(&mut self, kind: usize, sides: Sides)
        requires { (kind < kind_count) × SidesInRange sides × SidesAtMost sides sum_most }
        ensures { KindPut (held_at self.old.by_kind) (held_at self.new.by_kind) kind sides }
    {
        self.by_kind[kind] = [sides.above as u64, (-sides.below) as u64];
    }

    // What is held of a kind above zero with a sign.
    pub fn held(&self, kind: Kind, sign: Sign) -> i64
        ensures { result ≡ pos (held_at self.now.by_kind (number_of kind) (over sign)) }
    {
        self.by_kind[kind as usize][sign as usize] as i64
    }

    // What is above zero with a sign, less what is below.
    pub fn excess(&self, kind: Kind, sign: Sign) -> i64
        ensures { result ≡ pos (held_at self.now.by_kind (number_of kind) (over sign)) +ℤ neg_ℤ (pos (held_at self.now.by_kind (number_of kind) (under sign))) }
    {
        self.held(kind, sign) - self.held(kind, sign.opposite())
    }

    // Whether the F cases act: with the sign their total is above zero.
    pub fn fluid_acts(&self, sign: Sign) -> bool
        ensures { result ≡ fluid_acts (held_at self.now.by_kind) sign }
    {
        self.held(Kind::Fluid, sign.opposite()) < self.held(Kind::Fluid, sign)
    }
}

// The same of any numbers by kind, in range or not, and of any two sides by their numbers.
pub fn fluid_acts(by_kind: &[[u64; 2]; KINDS], above: usize, below: usize) -> bool
    requires { (above < 2) × (below < 2) }
    ensures { result ≡ fluid_between (held_at by_kind.now) above below }
{
    let fluid = by_kind[Kind::Fluid as usize];
    fluid[below] < fluid[above]
}
