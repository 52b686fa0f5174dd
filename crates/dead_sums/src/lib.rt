// The sums of the D and of the F effects that a sheet holds for each station and component, and the stores on effects that keep them true.

#![tactic(auto)]

ghost use Rattle.std.specs.Prelude.{◌≡◌, [], ◌∷◌, ◌+◌, ◌<◌, ◌≤◌, nat_abs};
ghost use Rattle.std.proofs.lemmas.List.Edits.{sets};
ghost use Rattle.standard.specs.Combination.{case_count};
ghost use Rattle.envelope.specs.Range.{station_count, effect_limit, total_most};
ghost use Rattle.effects.specs.Effects.{effect_count, place, cleared};
ghost use Rattle.dead_sums.specs.DeadSums.{sums_of, EffectsWithin, SumsHeld, MovesInRange, moved_by, sums_moved};

use effects::{COMPONENTS, Effects, STATION_EFFECTS, STATIONS};
use envelope::StationSums;
use standard::Kind;

// The sums of a station without cases.
pub const NO_SUMS: StationSums = StationSums {
    dead: [0; COMPONENTS],
    fluid: [0; COMPONENTS],
};

// D and F, as a sheet's kinds have them.
// Stays: bytes, since a sheet's kinds are bytes of any value.
const DEAD: u8 = Kind::Dead as u8;

const FLUID: u8 = Kind::Fluid as u8;

pub type DeadSums = [StationSums; STATIONS];

// A sum with an effect replaced.
fn moved(sum: i64, old: i16, new: i16) -> i64
    requires { (nat_abs sum ≤ total_most) × (nat_abs old ≤ effect_limit) × (nat_abs new ≤ effect_limit) }
    ensures { result ≡ moved_by sum old new }
{
    sum + (i64::from(new) - i64::from(old))
}

// The sums of D or of F at a station, with three effects, from a position on, replaced.
// Stays: a position, here and in `put_effects`, since the effects stand flat, and a loop by index, since it takes from three arrays.
fn move_sums(
    sums: &mut [i64; COMPONENTS],
    effects: &Effects,
    from: usize,
    values: [i16; COMPONENTS],
)
    requires { (from + 2 < effect_count) × MovesInRange sums.old effects.now values }
    ensures { sums.new ≡ sums_moved sums.old effects.now from values }
{
    for j in 0..COMPONENTS {
        sums[j] = moved(sums[j], effects[from + j], values[j]);
    }
}

// Replaces a case's three effects at a station. The sums of its kind there move by the difference.
// Stays: clauses on the case and the station, which come as bytes of a field and are in range only after its refusals.
pub fn put_effects(
    effects: &mut Effects,
    sums: &mut DeadSums,
    kinds: &[u8],
    case: usize,
    station: usize,
    values: [i16; COMPONENTS],
)
    requires { (case < case_count) × (station < station_count) × EffectsWithin values × SumsHeld kinds.now effects.old sums.old }
    ensures { (effects.new ≡ sets effects.old (place case station) values) × (sums.new ≡ sums_of kinds.now effects.new) }
{
    let from = station * STATION_EFFECTS + case * COMPONENTS;
    match wire::byte(kinds, case) {
        DEAD => move_sums(&mut sums[station].dead, effects, from, values),
        FLUID => move_sums(&mut sums[station].fluid, effects, from, values),
        _ => {}
    }
    effects::put_effects(effects, from, values);
}

// Sets a case's effects to 0 at every station.
pub fn clear_case(effects: &mut Effects, sums: &mut DeadSums, kinds: &[u8], case: usize)
    requires { (case < case_count) × SumsHeld kinds.now effects.old sums.old }
    ensures { (effects.new ≡ cleared effects.old case station_count) × (sums.new ≡ sums_of kinds.now effects.new) }
{
    for station in 0..STATIONS {
        put_effects(effects, sums, kinds, case, station, [0; COMPONENTS]);
    }
}
