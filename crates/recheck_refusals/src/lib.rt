// What a field is owed before it is carried out: the first refusal due, in the order of SCOPE 7.2.

#![tactic(auto)]

mod refusal;

use recheck_bytes::{BODY_MOST, byte_at, index_at, pair_at};
use recheck_sheet::{CASES, STATIONS, Tag, WorkingSheet};
pub use refusal::Refusal;

// `Ok` where the values are as they must be.
// Stays: a bool, the test itself, which chooses no step.
fn admit(right: bool, otherwise: Refusal) -> Result<(), Refusal> {
    right.then_some(()).ok_or(otherwise)
}

// The field's tag, where header and body are all there, the tag is known and the length is the tag's.
fn header(field: &[u8]) -> Result<Tag, Refusal> {
    let length = pair_at(field, 1);
    let whole = length <= BODY_MOST && 3 + usize::from(length) <= field.len();
    admit(whole, Refusal::Cut)?;
    let tag = Tag::try_from(byte_at(field, 0))?;
    admit(tag.takes(length), Refusal::Length)?;
    Ok(tag)
}

// Stays: a function for each rule of SCOPE 7.1 here and below, with its own limits and refusal, of the bytes that a body has.
fn admit_settings(method: u8, live: u8, zone: u8) -> Result<(), Refusal> {
    let right = (1..=2).contains(&method) && live <= 1 && zone <= 2;
    admit(right, Refusal::Setting)
}

fn admit_case(case: u8) -> Result<(), Refusal> {
    admit(usize::from(case) < CASES, Refusal::Case)
}

fn admit_station(station: u8) -> Result<(), Refusal> {
    admit(usize::from(station) < STATIONS, Refusal::Station)
}

fn admit_effect(effect: u16) -> Result<(), Refusal> {
    let right = (-10000..=10000).contains(&effect.cast_signed());
    admit(right, Refusal::Effect)
}

fn admit_capacity(capacity: u16) -> Result<(), Refusal> {
    admit((1..=10000).contains(&capacity), Refusal::Capacity)
}

// The factor of T, within the range of the method that the sheet has.
fn admit_straining(method: u8, factor: u16) -> Result<(), Refusal> {
    let limits = if method == 1 { 1000..=2000 } else { 750..=1000 };
    admit(limits.contains(&factor), Refusal::Straining)
}

// The body's values, from first to last.
fn admit_values(tag: Tag, method: u8, field: &[u8]) -> Result<(), Refusal> {
    let first = byte_at(field, 3);
    let second = byte_at(field, 4);
    match tag {
        Tag::Restart => admit_settings(first, second, byte_at(field, 5)),
        Tag::Fill => {
            admit_case(first)?;
            admit((1..=14).contains(&second), Refusal::Kind)
        }
        Tag::Effects => {
            admit_case(first)?;
            admit_station(second)?;
            admit_effect(pair_at(field, 5))?;
            admit_effect(pair_at(field, 7))?;
            admit_effect(pair_at(field, 9))
        }
        Tag::Empty | Tag::Name => admit_case(first),
        Tag::Capacities => {
            admit_station(first)?;
            admit_capacity(pair_at(field, 4))?;
            admit_capacity(pair_at(field, 6))?;
            admit_capacity(pair_at(field, 8))
        }
        Tag::Extremes => {
            admit_station(first)?;
            admit(second <= 2, Refusal::Component)
        }
        Tag::Utilisation => admit_station(first),
        Tag::Ice => admit(first <= 1, Refusal::Setting),
        Tag::Straining => admit_straining(method, pair_at(field, 3)),
    }
}

// What the sheet itself refuses: a place taken, a place empty, a station with no capacities.
fn admit_places(tag: Tag, w: &WorkingSheet, field: &[u8]) -> Result<(), Refusal> {
    let at = index_at(field, 3);
    // Stays: a remainder, which changes no case or station that `admit_values` lets in, and needs no clause.
    let kind = w.places[at % CASES].kind;
    match tag {
        Tag::Fill => admit(kind.is_none(), Refusal::PlaceTaken),
        Tag::Effects | Tag::Empty => admit(kind.is_some(), Refusal::PlaceEmpty),
        Tag::Utilisation => admit(w.capacities[at % STATIONS].is_some(), Refusal::NoCapacities),
        _ => Ok(()),
    }
}

// The field's tag, or the refusal due for a reading of it on this sheet.
pub fn accepted_tag(w: &WorkingSheet, field: &[u8]) -> Result<Tag, Refusal> {
    let tag = header(field)?;
    admit_values(tag, w.options.method, field)?;
    admit_places(tag, w, field)?;
    Ok(tag)
}
