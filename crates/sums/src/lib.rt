#![tactic(auto)]

ghost use Rattle.std.specs.Prelude.{◌≡◌, ℕ, ◌*◌, ◌<◌, ◌≤◌, ◌^◌, ℤ, ◌+ℤ◌, pos, neg_ℤ, nat_abs, get_or};
ghost use Rattle.integers.specs.Sets.{has};
ghost use Rattle.standard.specs.Combination.{case_count};
ghost use Rattle.standard.specs.Kinds.{class_of, kind_count};
ghost use Rattle.envelope.specs.Range.{kind_of, effect_of, effect_most, KindsInRange};
ghost use Rattle.envelope.specs.Places.{Places};
ghost use Rattle.envelope.specs.Signs.{over, under};
ghost use Rattle.sums.specs.Sums.{alone, split_of, sides_in, sides_with, nothing, SidesRoom, SidesInRange, SidesAtMost, sum_most, held_at, SumsInRange, KindPut, SumsOf, fluid_acts, total_in, TotalsFit};
ghost use Rattle.sums.specs.Directions.{held_in};

mod by_kind;

pub use by_kind::{Sums, fluid_acts};
use envelope::{CasesByKind, StationEffects};
use integers::Members;
use standard::{KINDS, Kind};
use std::array;

// What the effects of the cases of a kind make above zero and, with its sign, below; by default no case acts.
#[derive(Clone, Copy, PartialEq, Eq, Debug, Default)]
pub struct Sides {
    pub above: i64,
    pub below: i64,
}

impl Sides {
    // The sides of a total.
    pub fn of(total: i64) -> Self
        requires { nat_abs total < 2 ^ 63 }
        ensures { result ≡ split_of total }
    {
        let above = total.max(0);
        Sides {
            above,
            below: total - above,
        }
    }

    // One case more.
    // Stays: a bool, here and in the functions below, since with a closure for each of the two joins a look takes 20 to 30 instructions more.
    pub fn with(self, compared: bool, x: i64) -> Self
        requires { SidesRoom self x }
        ensures { result ≡ sides_with compared self x }
    {
        if compared {
            return Sides {
                above: self.above.max(x),
                below: self.below.min(x),
            };
        }
        let case = Sides::of(x);
        Sides {
            above: self.above + case.above,
            below: self.below + case.below,
        }
    }
}

// How a pass reads the three effects of a case: as a number in each of N directions.
pub trait Reading<const N: usize>: Copy {
    // of the cases' effects on the components, in a direction
    ghost along: { Self → (ℕ → ℕ → ℤ) → ℕ → ℕ → ℤ };

    fn of_case(self, effects: StationEffects<'_>, case: usize) -> [i64; N]
        requires { case < case_count }
        ensures { (d : ℕ) → d < N → get_or result d (pos 0) ≡ along self (effect_of effects.entry.all.now) d case };
}

// The cases of each kind as sets.
pub fn places_of(kinds: &[u8]) -> CasesByKind
    requires { KindsInRange kinds.now }
    ensures { Places result.sets (kind_of kinds.now) }
{
    let mut sets = [0u64; KINDS];
    // Stays: a bit that is doubled, since with `enumerate` and `1 << case` a utilisation of 32 cases takes 2 % more instructions.
    let mut bit: u64 = 1;
    for kind in kinds {
        let kind = usize::from(*kind);
        let placed = 0 < kind;
        if placed {
            sets[kind] += bit;
        }
        bit *= 2;
    }
    CasesByKind { sets }
}

// Whether at most one case of the kind acts, so that its cases are compared; others are added up.
// Stays: a kind by its number, here and in `put_all` and `put`, since the pass walks over the numbers, one test each.
pub fn acts_alone(kind: usize) -> bool
    ensures { result ≡ alone (class_of kind) }
{
    matches!(kind, 6..=13)
}

// One case more in each direction.
fn with_case<const N: usize>(sides: [Sides; N], compared: bool, effects: [i64; N]) -> [Sides; N]
    requires { (d : ℕ) → d < N → SidesRoom (get_or sides d nothing) (get_or effects d (pos 0)) }
    ensures { (d : ℕ) → d < N → get_or result d nothing ≡ sides_with compared (get_or sides.entry d nothing) (get_or effects.entry d (pos 0)) }
{
    array::from_fn(
        |d|
            requires { (d < N) × SidesRoom (get_or sides d nothing) (get_or effects d (pos 0)) }
            ensures { result ≡ sides_with compared (get_or sides d nothing) (get_or effects d (pos 0)) }
        { sides[d].with(compared, effects[d]) },
    )
}

// What the cases of a set make in each direction.
fn sides_of<const N: usize, R: Reading<N>>(
    reading: R,
    compared: bool,
    set: u64,
    effects: StationEffects<'_>,
) -> [Sides; N]
    requires cases { set < 2 ^ case_count }
    requires fits { N * 16 < 2 ^ 63 }
    requires small { (d k : ℕ) → nat_abs (R.along reading (effect_of effects.all.now) d k) ≤ effect_most }
    ensures { (d : ℕ) → d < N → get_or result d nothing ≡ sides_in compared (has set) (R.along reading (effect_of effects.entry.all.now) d) case_count }
{
    let mut sides = [Sides::default(); N];
    for k in Members(set) {
        sides = with_case(sides, compared, reading.of_case(effects, k));
    }
    sides
}

// The sides of a total in each direction.
fn split<const N: usize>(totals: [i64; N]) -> [Sides; N]
    requires { (d : ℕ) → nat_abs (get_or totals d (pos 0)) ≤ sum_most }
    ensures { (d : ℕ) → d < N → get_or result d nothing ≡ split_of (get_or totals.entry d (pos 0)) }
{
    array::from_fn(
        |d|
            requires { (d < N) × (nat_abs (get_or totals d (pos 0)) ≤ sum_most) }
            ensures { result ≡ split_of (get_or totals d (pos 0)) }
        { Sides::of(totals[d]) },
    )
}

// The sides of a kind in the sums of each direction.
fn put_all<const N: usize>(sums: &mut [Sums; N], kind: usize, sides: [Sides; N])
    requires { (kind < kind_count) × ((d : ℕ) → d < N → SidesInRange (get_or sides d nothing) × SidesAtMost (get_or sides d nothing) sum_most) }
    ensures { (d : ℕ) → d < N → KindPut (held_in sums.old d) (held_in sums.new d) kind (get_or sides.entry d nothing) }
{
    for (d, held) in sums.iter_mut().enumerate() {
        held.put(kind, sides[d]);
    }
}

// The sums of each kind in N directions, for both signs of each: from the totals of D and F, and from one pass over the cases of the
// others. The sums are lent, since an array that is handed back is copied.
pub fn sum_up<const N: usize, R: Reading<N>>(
    sums: &mut [Sums; N],
    totals: [[i64; N]; 2],
    places: &CasesByKind,
    effects: StationEffects<'_>,
    reading: R,
)
    requires totals { TotalsFit totals }
    requires small { (d k : ℕ) → nat_abs (R.along reading (effect_of effects.all.now) d k) ≤ effect_most }
    ensures { (d : ℕ) → d < N → SumsOf (held_in sums.new d) (total_in totals.entry d) places.now.sets (R.along reading (effect_of effects.entry.all.now) d) kind_count }
{
    put_all(sums, Kind::Dead as usize, split(totals[0]));
    put_all(sums, Kind::Fluid as usize, split(totals[1]));
    for kind in Kind::EarthPermanent as usize..KINDS {
        let sides = sides_of(reading, acts_alone(kind), places.of(kind), effects);
        put_all(sums, kind, sides);
    }
}
