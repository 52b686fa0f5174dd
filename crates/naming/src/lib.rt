#![tactic(auto)]

ghost use Rattle.std.specs.Prelude.{◌≡◌, ◌<◌, ◌≤◌, ◌^◌, length};
ghost use Rattle.integers.specs.Sets.{has};
ghost use Rattle.standard.specs.Combination.{case_count};
ghost use Rattle.standard.specs.Kinds.{kind_count};
ghost use Rattle.standard.specs.Rows.{row_count};
ghost use Rattle.naming.specs.Sets.{with_sign, above_in, lead_in, gathered_in, chosen_of, ChosenInRange, named_of};

mod case_effects;

pub use case_effects::{CaseEffects, OnComponent, Weighed};
use envelope::{CasesByKind, Sign};
use integers::Members;
use standard::Kind;

// The groups of kinds of which at most one case acts.
pub const GROUPS: usize = 6;

// The cases of the kinds that have a factor in a row: those that all act, D, Hp and, where they do, F; Hp alone; those of which
// any subset acts; and each group of which at most one acts.
#[derive(Clone, Copy, PartialEq, Eq, Debug)]
pub struct Chosen {
    pub always: u64,
    pub earth: u64,
    pub free: u64,
    pub groups: [u64; GROUPS],
}

// The sets of a combination: bit k is case k.
#[derive(Clone, Copy, PartialEq, Eq, Debug)]
pub struct Sets {
    pub acting: u64,
    pub low: u64,
}

// The cases of a set whose effect with a sign is above zero.
// Stays: a clause on the set, here and in `lead`, `sides_of` and `extreme`: of a `u32` the sums of sets would need that they are disjoint.
fn above<C: CaseEffects>(set: u64, cases: C, sign: Sign) -> u64
    requires { set < 2 ^ case_count }
    ensures { result ≡ above_in (has set) (with_sign sign (C.effect cases)) case_count }
{
    let mut above = 0;
    for k in Members(set) {
        let x = sign.of(cases.effect_of(k));
        if 0 < x {
            above += 1 << k;
        }
    }
    above
}

// The first case of a set with the greatest effect above zero, as a set: it is empty where no effect is above zero.
fn lead<C: CaseEffects>(set: u64, cases: C) -> u64
    requires { set < 2 ^ case_count }
    ensures { result ≡ lead_in (has set) (C.effect cases) case_count }
{
    let mut lead = 0;
    let mut most = 0;
    for k in Members(set) {
        let x = cases.effect_of(k);
        if most < x {
            lead = 1 << k;
            most = x;
        }
    }
    lead
}

// The cases of some kinds that are among `factored`.
fn gathered(places: &CasesByKind, factored: u16, kinds: &[Kind]) -> u64
    requires { length kinds.now ≤ kind_count }
    ensures { result ≡ gathered_in places.now.sets factored kinds.now }
{
    let mut set = 0;
    for kind in kinds {
        let kind = *kind as usize;
        if (factored >> kind) % 2 == 1 {
            set += places.of(kind);
        }
    }
    set
}

// The cases that may act in a row, by how they may; `fluid` says that the F cases act.
// Stays: a bool, here and in `sets_of`, since whether the F cases act is a test of the sums, and one term alone depends on it.
fn chosen_in(row: u8, places: &CasesByKind, fluid: bool) -> Chosen
    requires { row < row_count }
    ensures { result ≡ chosen_of row places.now.sets fluid }
{
    let factored = rows::kinds_in(row);
    let dead = gathered(places, factored, &[Kind::Dead]);
    let tank = gathered(places, factored, &[Kind::Fluid]);
    let earth = gathered(places, factored, &[Kind::EarthPermanent]);
    let joint = if fluid { tank } else { 0 };
    Chosen {
        always: dead + earth + joint,
        earth,
        free: gathered(places, factored, &[Kind::EarthOther, Kind::Live])
            + gathered(places, factored, &[Kind::SelfStraining]),
        groups: [
            gathered(places, factored, &[Kind::RoofLive, Kind::Snow, Kind::Rain]),
            gathered(places, factored, &[Kind::Wind]),
            gathered(places, factored, &[Kind::Earthquake]),
            gathered(places, factored, &[Kind::Flood]),
            gathered(places, factored, &[Kind::Ice]),
            gathered(places, factored, &[Kind::WindOnIce]),
        ],
    }
}

// The sets of the best combination of a row, for the effects of the cases; `fluid` says that the F cases act.
pub fn sets_of<C: CaseEffects>(row: u8, places: &CasesByKind, cases: C, fluid: bool) -> Sets
    requires { (row < row_count) × ChosenInRange (chosen_of row places.now.sets fluid) }
    ensures { result ≡ named_of (chosen_of row places.now.sets fluid) (C.effect cases) }
{
    let c = chosen_in(row, places, fluid);
    let mut leads = 0;
    for &group in &c.groups {
        leads += lead(group, cases);
    }
    Sets {
        acting: c.always + above(c.free, cases, Sign::Plus) + leads,
        low: above(c.earth, cases, Sign::Minus),
    }
}
