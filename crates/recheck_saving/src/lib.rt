// The saved form of the working sheet (SCOPE 8.1): tag 01; tag 08 while the ice rows are open; tag 09 where the factor of T is not 1000;
// for each filled place, rising, tag 02, then tag 03 for each station, rising, with an effect other than 0; then tag 05 for each station
// that has capacities.

#![tactic(auto)]

ghost use Rattle.std.specs.Prelude.{◌≡◌, ◌+◌, ◌≤◌, List, ℕ, length};

use recheck_bytes::Buffer;
use recheck_rows::Options;
use recheck_sheet::{Place, Triple, WorkingSheet};
use std::marker::Model;

// No working sheet has more bytes: 15 of settings, 181 for each place and 10 for each station.
const ROOM: usize = 5967;

// The saved form as it grows.
#[derive(Drop)]
pub struct SavedForm {
    form: Buffer<ROOM>,
}

// Clauses see the bytes put.
impl Model for SavedForm {
    ghost Value = { List ℕ };

    ghost view = { λ s. s.form };
}

impl SavedForm {
    pub fn of(w: &WorkingSheet) -> Self {
        let mut form = SavedForm {
            form: Buffer::empty(),
        };
        form.put_settings(w.options);
        form.put_places(w);
        form.put_all_capacities(w);
        form
    }

    pub fn bytes(&self) -> &[u8]
        ensures value { result.now ≡ self.now }
        ensures upper_bound { length result.now ≤ 5967 }
    {
        self.form.as_slice()
    }

    // A field or a part of one, after what stands there.
    // Stays: a clause on the room, here and below, since each part has a bound of its own.
    fn put(&mut self, part: &[u8])
        requires { length self.old + length part.now ≤ 5967 }
        ensures { length self.new ≡ length self.old + length part.now }
    {
        self.form.push(part);
    }

    fn put_number(&mut self, number: u16)
        requires { length self.old + 2 ≤ 5967 }
        ensures { length self.new ≡ length self.old + 2 }
    {
        self.put(&number.to_be_bytes());
    }

    fn put_triple(&mut self, triple: Triple)
        requires { length self.old + 6 ≤ 5967 }
        ensures { length self.new ≡ length self.old + 6 }
    {
        self.put_number(triple.n);
        self.put_number(triple.my);
        self.put_number(triple.mz);
    }

    // Tag 01; while the ice rows are open, tag 08; and tag 09, unless the factor of T is the one that tag 01 sets.
    fn put_settings(&mut self, options: Options)
        requires { length self.old ≡ 0 }
        ensures { length self.new ≤ 15 }
    {
        self.put(&[1, 0, 3, options.method, options.live, options.zone]);
        if options.ice != 0 {
            self.put(&[8, 0, 1, options.ice]);
        }
        if options.straining != 1000 {
            self.put(&[9, 0, 2]);
            self.put_number(options.straining);
        }
    }

    // Tag 03, unless all three effects are 0.
    fn put_effects(&mut self, case: u8, station: u8, effects: Triple)
        requires { length self.old + 11 ≤ 5967 }
        ensures { length self.new ≤ length self.old + 11 }
    {
        if effects != Triple::default() {
            self.put(&[3, 0, 8, case, station]);
            self.put_triple(effects);
        }
    }

    // A filled place with its stations; an empty one has nothing.
    fn put_place(&mut self, case: u8, place: &Place)
        requires { length self.old + 181 ≤ 5967 }
        ensures { length self.new ≤ length self.old + 181 }
    {
        let Some(kind) = place.kind else {
            return;
        };
        self.put(&[2, 0, 2, case, kind]);
        for (station, effects) in (0..16).zip(&place.effects) {
            self.put_effects(case, station, *effects);
        }
    }

    // Stays: beside `put_all_capacities`, as each is an order of SCOPE 8.1 with items and a bound of its own; a closure that puts an item would
    // need both bounds as a contract.
    fn put_places(&mut self, w: &WorkingSheet)
        requires { length self.old ≤ 15 }
        ensures { length self.new ≤ 5807 }
    {
        for (case, place) in (0..32).zip(&w.places) {
            self.put_place(case, place);
        }
    }

    // Tag 05, where the station has capacities.
    fn put_capacities(&mut self, station: u8, capacities: Option<Triple>)
        requires { length self.old + 10 ≤ 5967 }
        ensures { length self.new ≤ length self.old + 10 }
    {
        if let Some(triple) = capacities {
            self.put(&[5, 0, 7, station]);
            self.put_triple(triple);
        }
    }

    fn put_all_capacities(&mut self, w: &WorkingSheet)
        requires { length self.old ≤ 5807 }
    {
        for (station, capacities) in (0..16).zip(&w.capacities) {
            self.put_capacities(station, *capacities);
        }
    }
}
