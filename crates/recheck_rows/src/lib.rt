// The lines of the standard, kind by kind: which rows a sheet opens, and each kind's factor in a row, in thousandths. T alone has its
// factor from the sheet.

#![tactic(auto)]

ghost use Rattle.std.specs.Prelude.{◌≡◌, ◌≤◌, max};
ghost use Rattle.recheck_rows.specs.Rows.{strength_open, allowable_open, is_open, low_factor_of, self_straining};

use factors::{
    dead, earth, earthquake, flood, fluid, ice_weight, ice_wind, live, roof, snow, wind,
};
use kind::Kind;

mod factors;
mod kind;

// How many places for load cases a sheet has (SCOPE 2.2).
pub const CASES: usize = 32;

// What opens rows and gives their factors: the sheet's five settings.
// Stays: bytes and no enums, since the working sheet takes the values of any field of tag 01 or 08, and its statement holds of each.
#[derive(Clone, Copy)]
pub struct Options {
    pub method: u8,
    pub live: u8,
    pub zone: u8,
    pub ice: u8,
    pub straining: u16,
}

impl Options {
    // Whether the sheet opens the row. Flood and ice rows come beside the plain ones.
    pub fn opens(self, row: u8) -> bool
        ensures { result ≡ is_open row self.method self.zone self.ice }
    {
        if self.method == 1 {
            self.strength_open(row)
        } else {
            self.allowable_open(row)
        }
    }

    // Stays: this and the next are the standard's two lists of rows, each with the method's own numbers.
    #[tactic(auto, unfolding(crate::specs::Rows::strength_open))]
    fn strength_open(self, row: u8) -> bool
        ensures { result ≡ strength_open row self.zone self.ice }
    {
        match row {
            1..=8 => true,
            9..=10 => self.zone == 1,
            11..=12 => self.zone == 2,
            13..=15 => self.ice == 1,
            _ => false,
        }
    }

    #[tactic(auto, unfolding(crate::specs::Rows::allowable_open))]
    fn allowable_open(self, row: u8) -> bool
        ensures { result ≡ allowable_open row self.zone self.ice }
    {
        match row {
            21..=30 => true,
            31..=35 => self.zone == 1,
            36..=40 => self.zone == 2,
            41..=43 => self.ice == 1,
            _ => false,
        }
    }

    // The full factor of a kind in a row: 0 where the kind may not act there, and of a byte that stands for no kind.
    // Stays: the kind is a byte, since the working sheet holds the byte of any field of tag 02, and its statement says so.
    pub fn factor(self, row: u8, kind: u8) -> u64
        ensures { result ≤ max 2000 self.straining }
    {
        let Ok(kind) = Kind::try_from(kind) else {
            return 0;
        };
        let factor = match kind {
            Kind::Dead => dead(row),
            Kind::Fluid => fluid(row),
            Kind::PermanentEarth | Kind::OtherEarth => earth(row),
            Kind::Live => live(row, self.live),
            Kind::RoofLive | Kind::Rain => roof(row),
            Kind::Snow => snow(row),
            Kind::Wind => wind(row),
            Kind::Earthquake => earthquake(row),
            Kind::Flood => flood(row),
            Kind::IceWeight => ice_weight(row),
            Kind::IceWind => ice_wind(row),
            Kind::SelfStraining => return self.self_straining(row),
        };
        factor.thousandths
    }

    // Every row but the first of each method has the sheet's factor for T, flood and ice rows too.
    fn self_straining(self, row: u8) -> u64
        ensures value { result ≡ self_straining row self.straining }
        ensures upper_bound { result ≤ self.straining }
    {
        match row {
            1 | 21 => 0,
            _ => u64::from(self.straining),
        }
    }

    // The low factor of permanent earth pressure.
    pub fn low_factor(self) -> u64
        ensures { result ≡ low_factor_of self.method }
    {
        if self.method == 1 { 900 } else { 600 }
    }
}
