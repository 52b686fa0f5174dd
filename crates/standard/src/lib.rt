#![tactic(auto)]

ghost use Rattle.std.specs.Prelude.{◌≡◌};
ghost use Rattle.standard.specs.Kinds.{class_of};
ghost use Rattle.standard.specs.Rows.{settings_of, switched, strained, fresh_settings, low_of};

// Kinds are numbered from 1, so that 0 is an empty place; rows are numbered as in docs/FIELDS.md.
pub const KINDS: usize = 15;

pub const ROWS: usize = 44;

pub const CASES: usize = 32;

// The kinds by their numbers.
#[derive(Clone, Copy, PartialEq, Eq, Debug)]
pub enum Kind {
    Dead = 1,
    Fluid = 2,
    EarthPermanent = 3,
    EarthOther = 4,
    Live = 5,
    RoofLive = 6,
    Snow = 7,
    Rain = 8,
    Wind = 9,
    Earthquake = 10,
    Flood = 11,
    Ice = 12,
    WindOnIce = 13,
    SelfStraining = 14,
}

// What a sheet sets for all its combinations. In this order it takes eight bytes, which are copied faster than six.
// Stays: bytes and no enums, since `save` asks nothing of a sheet, so that it saves settings that are out of range too.
#[derive(Clone, Copy, PartialEq, Eq, Debug)]
pub struct Settings {
    pub method: u8,
    pub live: u8,
    pub zone: u8,
    // The factor of T, in thousandths.
    pub straining: u16,
    pub ice: u8,
}

impl Settings {
    // Stays: three bytes, as the body of tag 01 has them.
    pub fn of(method: u8, live: u8, zone: u8) -> Settings
        ensures { result ≡ settings_of method live zone }
    {
        Settings {
            method,
            live,
            zone,
            straining: 1000,
            ice: 0,
        }
    }

    // The same with the ice rows switched on, at 1, or off.
    // Stays: this and `strained` in place of a store, since the definitions of these names give the settings after tags 08 and 09.
    pub fn switched(self, ice: u8) -> Settings
        ensures { result ≡ switched ice self }
    {
        Settings { ice, ..self }
    }

    // The same with another factor of T.
    pub fn strained(self, factor: u16) -> Settings
        ensures { result ≡ strained factor self }
    {
        Settings {
            straining: factor,
            ..self
        }
    }

    // The low factor of Hp.
    #[tactic(auto, unfolding(crate::specs::Rows::low_of))]
    pub fn low_factor(self) -> u16
        ensures { result ≡ low_of self }
    {
        if self.method == 1 { 900 } else { 600 }
    }
}

// Those of a fresh sheet.
// Stays: no `Default`, which would be a second name for this one, by which callers outside the repository make a sheet.
pub fn fresh_settings() -> Settings
    ensures { result ≡ fresh_settings }
{
    Settings::of(1, 0, 0)
}

// How the cases of a kind may act: all of them, all together or none, any subset, at most one of a group of kinds.
// Stays: found by a match on the number of a kind, which is a byte of a sheet and may be no kind; a rule of the project.
#[derive(Clone, Copy, PartialEq, Eq, Debug)]
pub enum Class {
    Always,
    Together,
    Subset,
    OneOf(usize),
    Unknown,
}

// A station's capacities.
// Stays: their range is a clause and no fact here, since `save` takes a sheet with any capacities.
#[derive(Clone, Copy, PartialEq, Eq, Debug)]
pub struct Capacities {
    pub n: u16,
    pub y: u16,
    pub z: u16,
}

#[tactic(auto, unfolding(crate::specs::Kinds::class_of))]
pub fn class_of(kind: usize) -> Class
    ensures { result ≡ class_of kind }
{
    match kind {
        1 => Class::Always,
        2 => Class::Together,
        3 => Class::Always,
        14 => Class::Subset,
        4..=5 => Class::Subset,
        6..=8 => Class::OneOf(0),
        9..=13 => Class::OneOf(kind - 8),
        _ => Class::Unknown,
    }
}
