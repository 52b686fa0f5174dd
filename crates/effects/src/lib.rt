// The effects of a sheet as they stand in memory, and the stores on them.

#![tactic(auto)]

ghost use Rattle.std.specs.Prelude.{◌≡◌, ◌+◌, ◌<◌};
ghost use Rattle.std.proofs.lemmas.List.Edits.{sets};
ghost use Rattle.effects.specs.Effects.{effect_count};

pub use envelope::COMPONENTS;
use standard::CASES;

pub const STATIONS: usize = 16;

// The effects of a station, and of all.
pub const STATION_EFFECTS: usize = CASES * COMPONENTS;

pub const EFFECTS: usize = STATIONS * STATION_EFFECTS;

// Stays: flat, since a list of lists of lists owes a length at each station and at each case in `InRange`, `SumsHeld` and `EffectsInRange`, where
// this one owes one.
pub type Effects = [i16; EFFECTS];

// Replaces the effects from a position on.
pub fn put_effects(effects: &mut Effects, at: usize, values: [i16; COMPONENTS])
    requires { at + 2 < effect_count }
    ensures { effects.new ≡ sets effects.old at values }
{
    effects[at..at + COMPONENTS].copy_from_slice(&values);
}
