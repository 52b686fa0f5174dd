// The working sheet, and what becomes of it under tags 01 to 05, 08 and 09, once no refusal is due. Every other tag leaves it, a case name
// (tag 60) too.

#![tactic(auto)]

ghost use Rattle.std.specs.Prelude.{◌≡◌, ◌<◌};
ghost use Rattle.recheck_sheet.specs.Sheet.{blank_of, capacities_in, changed_by, component_of, kind_in, of_kind, triple_at, with_capacities, with_effects, with_kind};
ghost use Rattle.recheck_sheet.specs.Tags.{tag_of};
ghost use Rattle.recheck_bytes.specs.Bytes.{byte_at};

mod tag;

use recheck_bytes::{byte_at, index_at, pair_at};
pub use recheck_rows::CASES;
use recheck_rows::Options;
pub use tag::{ACCEPTED, EXTREMES, REFUSED, Tag, UTILISATION, UnknownTag, whole_tag};

pub const STATIONS: usize = 16;

// A number for each component. An effect is 16 bits of two's complement.
#[derive(Clone, Copy, Default, PartialEq, Eq)]
pub struct Triple {
    pub n: u16,
    pub my: u16,
    pub mz: u16,
}

// The place of a load case: the kind of the case, where there is one, and its effects at each station.
// Stays: the kind is a byte, since `change` takes fields with any, and its statement holds of each.
#[derive(Clone, Copy)]
pub struct Place {
    pub kind: Option<u8>,
    pub effects: [Triple; STATIONS],
}

// The working sheet. A station has capacities once they are set.
#[derive(Clone, Copy)]
pub struct WorkingSheet {
    pub options: Options,
    pub places: [Place; CASES],
    pub capacities: [Option<Triple>; STATIONS],
}

impl Triple {
    // The number of a component, 0 for N, 1 for My, and else Mz.
    // Stays: a component by its number, since the sums stand in one list, and a sum's index gives the number.
    pub fn component(self, component: usize) -> u16
        ensures { result ≡ component_of self component }
    {
        match component {
            0 => self.n,
            1 => self.my,
            _ => self.mz,
        }
    }

    // The three numbers that stand from a place on.
    // Stays: a place, and no part of the field, as past the end of a short field stands 0.
    fn read(field: &[u8], at: usize) -> Self
        requires { at < 1000 }
        ensures { result ≡ triple_at field.now at }
    {
        Triple {
            n: pair_at(field, at),
            my: pair_at(field, at + 2),
            mz: pair_at(field, at + 4),
        }
    }
}

// The kind that a byte gives a place: none is 0.
fn kind_in(byte: u8) -> Option<u8>
    ensures { result ≡ kind_in byte }
{
    (byte != 0).then_some(byte)
}

// The capacities that three numbers give a station: none where the first is 0.
fn capacities_in(triple: Triple) -> Option<Triple>
    ensures { result ≡ capacities_in triple }
{
    (triple.n != 0).then_some(triple)
}

impl Place {
    // A place of this kind with no effect at any station.
    fn of_kind(kind: Option<u8>) -> Self
        ensures { result ≡ of_kind kind }
    {
        Place {
            kind,
            effects: [Triple::default(); STATIONS],
        }
    }
}

// Stays: remainders of cases and stations, as `change` takes fields with any and has nothing to refuse them by.
impl WorkingSheet {
    pub fn fresh() -> Self
        ensures { result ≡ blank_of 1 0 0 }
    {
        Self::blank(1, 0, 0)
    }

    // Stays: three bytes, as the body of tag 01 has them.
    #[tactic(auto, unfolding(crate::specs::Sheet::blank_of))]
    fn blank(method: u8, live: u8, zone: u8) -> Self
        ensures { result ≡ blank_of method live zone }
    {
        WorkingSheet {
            options: Options {
                method,
                live,
                zone,
                ice: 0,
                straining: 1000,
            },
            places: [Place::of_kind(None); CASES],
            capacities: [None; STATIONS],
        }
    }

    // The place's kind set and its effects at every station 0: so for filling and for emptying alike.
    #[tactic(auto, unfolding(crate::specs::Sheet::with_kind))]
    fn set_kind(&mut self, case: usize, kind: Option<u8>)
        ensures { self.new ≡ with_kind self.old case kind }
    {
        self.places[case % CASES] = Place::of_kind(kind);
    }

    #[tactic(auto, unfolding(crate::specs::Sheet::with_effects))]
    fn set_effects(&mut self, field: &[u8])
        ensures { self.new ≡ with_effects self.old field.now }
    {
        let case = index_at(field, 3) % CASES;
        let station = index_at(field, 4) % STATIONS;
        self.places[case].effects[station] = Triple::read(field, 5);
    }

    #[tactic(auto, unfolding(crate::specs::Sheet::with_capacities))]
    fn set_capacities(&mut self, field: &[u8])
        ensures { self.new ≡ with_capacities self.old field.now }
    {
        let station = index_at(field, 3) % STATIONS;
        self.capacities[station] = capacities_in(Triple::read(field, 4));
    }

    // What becomes of the sheet under an accepted field.
    pub fn change(&mut self, field: &[u8])
        ensures { self.new ≡ changed_by (tag_of (byte_at field.now 0)) self.old field.now }
    {
        let Ok(tag) = Tag::try_from(byte_at(field, 0)) else {
            return;
        };
        match tag {
            Tag::Restart => {
                *self = Self::blank(byte_at(field, 3), byte_at(field, 4), byte_at(field, 5));
            }
            Tag::Fill => self.set_kind(index_at(field, 3), kind_in(byte_at(field, 4))),
            Tag::Effects => self.set_effects(field),
            Tag::Empty => self.set_kind(index_at(field, 3), None),
            Tag::Capacities => self.set_capacities(field),
            Tag::Ice => self.options.ice = byte_at(field, 3),
            Tag::Straining => self.options.straining = pair_at(field, 3),
            Tag::Extremes | Tag::Utilisation | Tag::Name => {}
        }
    }
}
