// The refusals on the values of a body: each function refuses with the first that is due.

#![tactic(auto)]

ghost use Rattle.std.specs.Prelude.{◌≡◌, IfOk};
ghost use Rattle.standard.specs.Range.{method_outside, straining_outside};
ghost use Rattle.envelope.specs.Components.{number_of_component};
ghost use Rattle.refusals.specs.Refusals.{case_outside, station_outside, component_outside, effect_outside, capacity_outside, kind_outside, due_settings, due_fill_at, due_effects_at, due_empty_at, due_capacities, due_extremes, due_switch, due_straining, due_utilisation_at, due_name};
ghost use Rattle.refusals.specs.Numbers.{number, number_of, refused_where};

use envelope::{Component, NoComponent};
use standard::{Capacities, Class};

pub const LAST_CASE: u8 = 31;

const LAST_STATION: u8 = 15;

const EFFECT_LIMIT: u16 = 10000;

const CAPACITY_LIMIT: u16 = 10000;

// A case's effects on the three components as the words of a field's body: each is a signed number by its bits.
#[derive(Clone, Copy, PartialEq, Eq, Debug)]
pub struct EffectWords {
    pub n: u16,
    pub y: u16,
    pub z: u16,
}

/// Why a field is refused.
#[derive(Clone, Copy, PartialEq, Eq, Debug)]
pub enum Refusal {
    UnknownTag = 1,
    WrongLength = 2,
    Cut = 3,
    Setting = 4,
    Case = 5,
    Station = 6,
    Kind = 7,
    Component = 8,
    Effect = 9,
    Capacity = 10,
    Taken = 11,
    Empty = 12,
    NoCapacities = 13,
    ShortOutput = 14,
    Straining = 15,
}

/// The number that is answered.
impl From<Refusal> for u8 {
    ghost from_gives = { λ refusal n. n ≡ number refusal };

    fn from(refusal: Refusal) -> u8 {
        refusal as u8
    }
}

/// A byte that stands for no component is refused.
impl From<NoComponent> for Refusal {
    ghost from_gives = { λ none refusal. number refusal ≡ 8 };

    fn from(_: NoComponent) -> Refusal {
        Refusal::Component
    }
}

// A step of a function that refuses: the refusal where it is due.
// Stays: a bool, the test itself, which chooses no step.
pub fn refuse_where(due: bool, refusal: Refusal) -> Result<(), Refusal>
    ensures { result ≡ refused_where due refusal }
{
    if due { Err(refusal) } else { Ok(()) }
}

fn check_case(case: u8) -> Result<(), Refusal>
    ensures { result ≡ refused_where (case_outside case) Refusal.Case }
{
    refuse_where(LAST_CASE < case, Refusal::Case)
}

fn check_station(station: u8) -> Result<(), Refusal>
    ensures { result ≡ refused_where (station_outside station) Refusal.Station }
{
    refuse_where(LAST_STATION < station, Refusal::Station)
}

// Stays: a byte, as a field has it, here and in the functions below: one that is no kind or component is refused.
fn check_kind(kind: u8) -> Result<(), Refusal>
    ensures { result ≡ refused_where (kind_outside kind) Refusal.Kind }
{
    let class = standard::class_of(usize::from(kind));
    refuse_where(matches!(class, Class::Unknown), Refusal::Kind)
}

fn check_effect(raw: u16) -> Result<(), Refusal>
    ensures { result ≡ refused_where (effect_outside raw) Refusal.Effect }
{
    let size = raw.cast_signed().unsigned_abs();
    refuse_where(EFFECT_LIMIT < size, Refusal::Effect)
}

fn check_capacity(capacity: u16) -> Result<(), Refusal>
    ensures { result ≡ refused_where (capacity_outside capacity) Refusal.Capacity }
{
    let outside = capacity == 0 || CAPACITY_LIMIT < capacity;
    refuse_where(outside, Refusal::Capacity)
}

// Whether no sheet has this method.
fn method_outside(method: u8) -> bool
    ensures { result ≡ method_outside method }
{
    method == 0 || 2 < method
}

fn straining_outside(method: u8, factor: u16) -> bool
    ensures { result ≡ straining_outside method factor }
{
    let limits = if method == 1 { 1000..=2000 } else { 750..=1000 };
    !limits.contains(&factor)
}

// Stays: three bytes, as the body of tag 01 has them.
#[tactic(auto, unfolding(crate::specs::Refusals::due_settings))]
pub fn check_settings(method: u8, live: u8, zone: u8) -> Result<(), Refusal>
    ensures { number_of result ≡ due_settings method live zone }
{
    let outside = method_outside(method) || 1 < live || 2 < zone;
    refuse_where(outside, Refusal::Setting)
}

// `held` is the kind at the place.
// Stays: 0 for an empty place, here and in the functions below, as the sheet's kinds have it.
#[tactic(auto, unfolding(crate::specs::Refusals::due_fill_at))]
pub fn check_fill(case: u8, kind: u8, held: u8) -> Result<(), Refusal>
    ensures { number_of result ≡ due_fill_at held case kind }
{
    check_case(case)?;
    check_kind(kind)?;
    refuse_where(held != 0, Refusal::Taken)
}

#[tactic(auto, unfolding(crate::specs::Refusals::due_effects_at))]
pub fn check_effects(case: u8, station: u8, effects: EffectWords, held: u8) -> Result<(), Refusal>
    ensures { number_of result ≡ due_effects_at held case station effects.n effects.y effects.z }
{
    check_case(case)?;
    check_station(station)?;
    check_effect(effects.n)?;
    check_effect(effects.y)?;
    check_effect(effects.z)?;
    refuse_where(held == 0, Refusal::Empty)
}

// Stays: beside `check_utilisation`, as each tag has its own tests and refusals.
#[tactic(auto, unfolding(crate::specs::Refusals::due_empty_at))]
pub fn check_empty(case: u8, held: u8) -> Result<(), Refusal>
    ensures { number_of result ≡ due_empty_at held case }
{
    check_case(case)?;
    refuse_where(held == 0, Refusal::Empty)
}

#[tactic(auto, unfolding(crate::specs::Refusals::due_capacities))]
pub fn check_capacities(station: u8, capacities: Capacities) -> Result<(), Refusal>
    ensures { number_of result ≡ due_capacities station capacities.n capacities.y capacities.z }
{
    check_station(station)?;
    check_capacity(capacities.n)?;
    check_capacity(capacities.y)?;
    check_capacity(capacities.z)
}

#[tactic(auto, unfolding(crate::specs::Refusals::due_extremes))]
pub fn check_extremes(station: u8, component: u8) -> Result<Component, Refusal>
    ensures refusal { number_of result ≡ due_extremes station component }
    ensures component { IfOk result (λ known. number_of_component known ≡ component) }
{
    check_station(station)?;
    Ok(Component::try_from(component)?)
}

// `held` is the station's first capacity.
// Stays: 0 for a station without capacities, as the sheet has them.
#[tactic(auto, unfolding(crate::specs::Refusals::due_utilisation_at))]
pub fn check_utilisation(station: u8, held: u16) -> Result<(), Refusal>
    ensures { number_of result ≡ due_utilisation_at held station }
{
    check_station(station)?;
    refuse_where(held == 0, Refusal::NoCapacities)
}

#[tactic(auto, unfolding(crate::specs::Refusals::due_switch))]
pub fn check_switch(byte: u8) -> Result<(), Refusal>
    ensures { number_of result ≡ due_switch byte }
{
    refuse_where(1 < byte, Refusal::Setting)
}

// `method` is the sheet's.
#[tactic(auto, unfolding(crate::specs::Refusals::due_straining))]
pub fn check_straining(method: u8, factor: u16) -> Result<(), Refusal>
    ensures { number_of result ≡ due_straining method factor }
{
    refuse_where(straining_outside(method, factor), Refusal::Straining)
}

#[tactic(auto, unfolding(crate::specs::Refusals::due_name))]
pub fn check_name(case: u8) -> Result<(), Refusal>
    ensures { number_of result ≡ due_name case }
{
    check_case(case)
}
