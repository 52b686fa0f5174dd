#![tactic(auto)]

ghost use Rattle.std.specs.Prelude.{◌≡◌, ◌<◌, ◌^◌, nat_abs};
ghost use Rattle.envelope.specs.Signs.{signed, opposite};

mod cases_by_kind;
mod component;
mod station;
mod station_effects;

pub use cases_by_kind::CasesByKind;
pub use component::{Component, NoComponent};
pub use station::Station;
pub use station_effects::StationEffects;

// The number of an effect's components.
pub const COMPONENTS: usize = 3;

// Effects as they are, or with their signs turned. The minimum is the maximum of the effects with their signs turned, with its own turned.
#[derive(Clone, Copy, PartialEq, Eq, Debug)]
pub enum Sign {
    Plus = 0,
    Minus = 1,
}

impl Sign {
    // x with this sign.
    pub fn of(self, x: i64) -> i64
        requires { nat_abs x < 2 ^ 63 }
        ensures { result ≡ signed self x }
    {
        match self {
            Sign::Plus => x,
            Sign::Minus => -x,
        }
    }

    pub fn opposite(self) -> Sign
        ensures { result ≡ opposite self }
    {
        match self {
            Sign::Plus => Sign::Minus,
            Sign::Minus => Sign::Plus,
        }
    }
}

// The row that governs and its value.
#[derive(Clone, Copy, PartialEq, Eq, Debug)]
pub struct Best {
    pub row: u8,
    pub value: i64,
}

// A governing number, and the combination that reaches it: bit k of a set is case k.
// Stays: the row and its two sets in both this and `Utilised`, since the statements name them as `x.row`, `x.acting` and `x.low`; with a
// combination inside, each would go by one name more.
#[derive(Clone, Copy, PartialEq, Eq, Debug)]
pub struct Extreme {
    pub value: i64,
    pub row: usize,
    pub acting: u32,
    pub low: u32,
}

#[derive(Clone, Copy, PartialEq, Eq, Debug)]
pub struct Extremes {
    pub maximum: Extreme,
    pub minimum: Extreme,
}

// The best of a pattern of signs.
// Stays: a pattern by its number, whose bits are its signs.
#[derive(Clone, Copy, PartialEq, Eq, Debug)]
pub struct Peak {
    pub pattern: usize,
    pub best: Best,
}

// Utilisation as numerator over denominator, with the combination that has it.
// Stays: the verdict beside the two numbers that it follows from, since the statement of a utilisation names it and the answer has it.
#[derive(Clone, Copy, PartialEq, Eq, Debug)]
pub struct Utilised {
    pub numerator: u64,
    pub denominator: u64,
    pub pass: bool,
    pub row: usize,
    pub acting: u32,
    pub low: u32,
}

// The sums of the effects of a station's D and of its F cases, on each component.
#[derive(Clone, Copy, PartialEq, Eq, Debug)]
pub struct StationSums {
    pub dead: [i64; COMPONENTS],
    pub fluid: [i64; COMPONENTS],
}

// What the effects on the three components count for.
// Stays: their range is a clause where they are used and no fact here, since `pattern_of` makes weights of capacities of any size.
#[derive(Clone, Copy, PartialEq, Eq, Debug)]
pub struct Weights {
    pub n: i64,
    pub y: i64,
    pub z: i64,
}
