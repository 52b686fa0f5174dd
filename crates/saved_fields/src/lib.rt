#![tactic(auto)]

// Writes the fields of a saved sheet, place by place and station by station.
ghost use Rattle.std.specs.Prelude.{◌≡◌, [], ◌∷◌, ◌++◌, ℕ, ◌+◌, ◌*◌, ◌<◌, ◌≤◌, List, length, get_or};
ghost use Rattle.standard.specs.Combination.{case_count};
ghost use Rattle.envelope.specs.Range.{station_count};
ghost use Rattle.effects.specs.Effects.{effect_in};
ghost use Rattle.sheet.specs.Sheet.{capacity_on, capacity_in};
ghost use Rattle.saved_fields.specs.Saved.{up_to, all_zero, station_bytes, case_bytes, capacity_bytes, settings_bytes, station_most, case_most, capacity_most, settings_most, saved_most};

use effects::{COMPONENTS, Effects, STATION_EFFECTS, STATIONS};
use standard::{CASES, Capacities, Settings};
use std::marker::Model;
use wire::Buffer;

// The most bytes of a saved sheet.
pub const SAVED_MOST: usize = 6 + 4 + 5 + CASES * (5 + STATIONS * 11) + STATIONS * 10;

// The fields of a saved sheet, as far as they are written.
#[derive(Drop)]
pub struct SavedFields {
    bytes: Buffer<SAVED_MOST>,
}

// Contracts see the bytes written.
impl Model for SavedFields {
    ghost Value = { List ℕ };

    ghost view = { λ s. s.bytes };
}

// Stays: each method is lent the arrays that it reads and not the sheet, since its clauses speak of these alone.
impl SavedFields {
    pub fn new() -> SavedFields
        ensures { result ≡ [] }
    {
        SavedFields {
            bytes: Buffer::new(),
        }
    }

    pub fn as_slice(&self) -> &[u8]
        ensures { result.now ≡ self.now }
    {
        self.bytes.as_slice()
    }

    // Appends one field.
    // Stays: a clause on the room, here and below, since each part has a bound of its own.
    fn push(&mut self, field: &[u8])
        requires { length self.old + length field.now ≤ saved_most }
        ensures { self.new ≡ self.old ++ field.now }
    {
        self.bytes.push(field);
    }

    // Tag 01, tag 08 unless the ice rows are off, tag 09 unless the factor of T is 1000.
    #[tactic(auto, using(crate::proofs::Words::word_bytes_of), unfolding(crate::specs::Saved::settings_bytes, crate::specs::Saved::settings_field, crate::specs::Saved::switch_field, crate::specs::Saved::straining_field))]
    pub fn push_settings(&mut self, s: Settings)
        requires { length self.old + settings_most ≤ saved_most }
        ensures bytes { self.new ≡ self.old ++ settings_bytes s }
        ensures most { length self.new ≤ length self.old + settings_most }
    {
        self.push(&[1, 0, 3, s.method, s.live, s.zone]);
        if s.ice != 0 {
            self.push(&[8, 0, 1, s.ice]);
        }
        if s.straining != 1000 {
            let [high, low] = s.straining.to_be_bytes();
            self.push(&[9, 0, 2, high, low]);
        }
    }

    // Tag 03, unless all three effects are 0.
    #[tactic(auto, using(crate::proofs::Words::word_bytes_of), unfolding(crate::specs::Saved::station_bytes, crate::specs::Saved::effects_field, crate::specs::Saved::words))]
    fn push_effects(&mut self, effects: &Effects, case: u8, station: u8)
        requires { (case < case_count) × (station < station_count) × (length self.old + station_most ≤ saved_most) }
        ensures { self.new ≡ self.old ++ station_bytes (effect_in effects.now) case station }
    {
        let [n, y, z] = effects_at(effects, case, station);
        if all_zero(n, y, z) {
            return;
        }
        let [n0, n1] = n.to_be_bytes();
        let [y0, y1] = y.to_be_bytes();
        let [z0, z1] = z.to_be_bytes();
        self.push(&[3, 0, 8, case, station, n0, n1, y0, y1, z0, z1]);
    }

    // Tag 02 for a filled place, and then its effects, station by station.
    #[tactic(auto, unfolding(crate::specs::Saved::case_bytes, crate::specs::Saved::fill_field))]
    fn push_case(&mut self, kinds: &[u8; CASES], effects: &Effects, case: u8)
        requires { (case < case_count) × (length self.old + case_most ≤ saved_most) }
        ensures { self.new ≡ self.old ++ case_bytes (λ k. get_or kinds.now k 0) (effect_in effects.now) case }
    {
        let kind = kinds[usize::from(case)];
        if kind == 0 {
            return;
        }
        self.push(&[2, 0, 2, case, kind]);
        for station in 0..16 {
            self.push_effects(effects, case, station);
        }
    }

    // The filled places, rising.
    // Stays: beside `push_capacities`, as each has items and a bound of its own.
    pub fn push_cases(&mut self, kinds: &[u8; CASES], effects: &Effects)
        requires { length self.old + case_count * case_most ≤ saved_most }
        ensures bytes { self.new ≡ self.old ++ up_to (case_bytes (λ k. get_or kinds.now k 0) (effect_in effects.now)) case_count }
        ensures most { length self.new ≤ length self.old + case_count * case_most }
    {
        for case in 0..32 {
            self.push_case(kinds, effects, case);
        }
    }

    // Tag 05 for a station that has capacities.
    #[tactic(auto, using(crate::proofs::Words::word_bytes_of), unfolding(crate::specs::Saved::capacity_bytes, crate::specs::Saved::capacities_field, crate::specs::Saved::words))]
    fn push_capacity(&mut self, station: u8, capacities: Capacities)
        requires { length self.old + capacity_most ≤ saved_most }
        ensures { self.new ≡ self.old ++ capacity_bytes (λ _. capacity_on capacities) station }
    {
        if capacities.n == 0 {
            return;
        }
        let [n0, n1] = capacities.n.to_be_bytes();
        let [y0, y1] = capacities.y.to_be_bytes();
        let [z0, z1] = capacities.z.to_be_bytes();
        self.push(&[5, 0, 7, station, n0, n1, y0, y1, z0, z1]);
    }

    // The stations that have capacities, rising.
    pub fn push_capacities(&mut self, capacities: &[Capacities; STATIONS])
        requires { length self.old + station_count * capacity_most ≤ saved_most }
        ensures { self.new ≡ self.old ++ up_to (capacity_bytes (capacity_in capacities.now)) station_count }
    {
        for station in 0..16 {
            self.push_capacity(station, capacities[usize::from(station)]);
        }
    }
}

fn all_zero(n: i16, y: i16, z: i16) -> bool
    ensures { result ≡ all_zero n y z }
{
    n == 0 && y == 0 && z == 0
}

// A case's three effects at a station.
// Stays: a position from the case and the station, with a clause on each, since the effects stand flat.
fn effects_at(effects: &Effects, case: u8, station: u8) -> [i16; COMPONENTS]
    requires { (case < case_count) × (station < station_count) }
    ensures { result ≡ effect_in effects.now case station 0 ∷ effect_in effects.now case station 1 ∷ effect_in effects.now case station 2 ∷ [] }
{
    let at = usize::from(station) * STATION_EFFECTS + usize::from(case) * COMPONENTS;
    [effects[at], effects[at + 1], effects[at + 2]]
}
