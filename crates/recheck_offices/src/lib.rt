// Two offices on one sheet (SCOPE 9.5): two lists that differ only in the effects and capacities of some stations have the same
// answers for the other stations. Here are the fields for such stations, the fields with other values, and the comparison of two answers.

#![tactic(auto)]

ghost use Rattle.std.specs.Prelude.{◌≡◌, ◌≢◌, ◌⊎◌, ◌+◌, ◌<◌, length};
ghost use Rattle.recheck_offices.specs.Limits.{EffectWithin, CapacityWithin};
ghost use Rattle.recheck_offices.specs.Offices.{is_chosen, others, given_by, looks_at};
ghost use Rattle.recheck_offices.specs.Offices.{other_effect, other_capacity, other_value, with_pair, changed_pair, changed_three, changed, same_bytes, answers_agree};

use recheck_bytes::{byte_at, pair_at};
use recheck_sheet::{Tag, whole_tag};

// Chosen stations: one alone, or all others.
#[derive(Clone, Copy, Debug, PartialEq, Eq)]
pub enum Stations {
    Only(u8),
    AllBut(u8),
}

impl Stations {
    fn contain(self, station: u8) -> bool
        ensures { result ≡ is_chosen self station }
    {
        match self {
            Stations::Only(one) => station == one,
            Stations::AllBut(one) => station != one,
        }
    }

    // The stations that are not chosen.
    pub fn others(self) -> Stations
        ensures { result ≡ others self }
    {
        match self {
            Stations::Only(one) => Stations::AllBut(one),
            Stations::AllBut(one) => Stations::Only(one),
        }
    }
}

// What a field gives a station.
#[derive(Clone, Copy, Debug, PartialEq, Eq)]
enum Values {
    Effects,
    Capacities,
}

impl Values {
    fn other(self, value: u16) -> u16
        ensures { result ≡ other_value self value }
    {
        match self {
            Values::Effects => other_effect(value),
            Values::Capacities => other_capacity(value),
        }
    }

    // Whether the field gives a chosen station such values.
    #[tactic(auto, unfolding(crate::specs::Offices::gives_effects, crate::specs::Offices::gives_capacities))]
    fn given_by(self, field: &[u8], stations: Stations) -> bool
        ensures { result ≡ given_by self field.now stations }
    {
        match self {
            Values::Effects => {
                whole_tag(field) == Some(Tag::Effects) && stations.contain(byte_at(field, 4))
            }
            Values::Capacities => {
                whole_tag(field) == Some(Tag::Capacities) && stations.contain(byte_at(field, 3))
            }
        }
    }
}

// Whether the field is a look at a chosen station.
#[tactic(auto, unfolding(crate::specs::Offices::looks_at))]
pub fn looks_at(field: &[u8], stations: Stations) -> bool
    ensures { result ≡ looks_at field.now stations }
{
    let tag = whole_tag(field);
    let looks = tag == Some(Tag::Extremes) || tag == Some(Tag::Utilisation);
    looks && stations.contain(byte_at(field, 3))
}

// Another effect, within the limits where this one is.
fn other_effect(effect: u16) -> u16
    ensures value { result ≡ other_effect effect }
    ensures other { EffectWithin effect → EffectWithin result × (result ≢ effect) }
    ensures kept { 10000 < effect → effect < 55536 → result ≡ effect }
{
    match effect {
        0..=10000 => effect.wrapping_sub(10000),
        10001..=55535 => effect,
        _ => effect - 55535,
    }
}

// Another capacity, within the limits where this one is.
fn other_capacity(capacity: u16) -> u16
    ensures value { result ≡ other_capacity capacity }
    ensures other { CapacityWithin capacity → CapacityWithin result × (result ≢ capacity) }
    ensures kept { (capacity ≡ 0) ⊎ (10000 < capacity) → result ≡ capacity }
{
    match capacity {
        1..=10000 => 10001 - capacity,
        _ => capacity,
    }
}

// Stays: positions here and below, since the definitions go by them, and a part lent for each number would have them as its ends.
fn put_pair(s: &mut [u8], at: usize, value: u16)
    requires { at + 1 < length s.old }
    ensures { s.new ≡ with_pair s.old at value }
{
    s[at..at + 2].copy_from_slice(&value.to_be_bytes());
}

// The number in the two bytes at this position replaced by another.
#[tactic(auto, unfolding(crate::specs::Offices::changed_pair))]
fn change_pair(s: &mut [u8], at: usize, values: Values)
    requires at_bound { at < 60000 }
    requires at_in_bounds { at + 1 < length s.old }
    ensures { s.new ≡ changed_pair values s.old at }
{
    let value = pair_at(s, at);
    put_pair(s, at, values.other(value));
}

// The three from this position on.
fn change_three(s: &mut [u8], at: usize, values: Values)
    requires at_bound { at < 10 }
    requires at_in_bounds { at + 5 < length s.old }
    ensures { s.new ≡ changed_three values s.old at }
{
    change_pair(s, at, values);
    change_pair(s, at + 2, values);
    change_pair(s, at + 4, values);
}

// The field with other effects or capacities, where it gives those of a chosen station.
#[tactic(auto, unfolding(crate::specs::Offices::changed, crate::specs::Offices::gives_effects, crate::specs::Offices::gives_capacities))]
pub fn change(field: &mut [u8], stations: Stations)
    ensures { field.new ≡ changed field.old stations }
{
    if Values::Effects.given_by(field, stations) {
        change_three(field, 5, Values::Effects);
    } else if Values::Capacities.given_by(field, stations) {
        change_three(field, 4, Values::Capacities);
    }
}

// Whether two answers are the same bytes.
pub fn same_bytes(s: &[u8], t: &[u8]) -> bool
    ensures { result ≡ same_bytes s.now t.now }
{
    s == t
}

// Whether the answers to a field are as they must be: the same, unless it is a look at a chosen station.
pub fn answers_agree(field: &[u8], stations: Stations, s: &[u8], t: &[u8]) -> bool
    ensures { result ≡ answers_agree field.now stations s.now t.now }
{
    looks_at(field, stations) || same_bytes(s, t)
}
