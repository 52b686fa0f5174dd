// The sums that a sheet holds: for each station and component, the effects of the D cases added up, and those of the F cases. They
// are worked out from the working sheet here, case by case, and compared with those that the library's sheet has.
// Station s, component k: D at 6 s + k and F at 6 s + 3 + k.

#![tactic(auto)]

ghost use Rattle.std.specs.Prelude.{◌≡◌, ◌↔◌, ◌≢◌, ◌<◌, ◌≤ℤ◌, pos, neg_ℤ, IsTrue, Any};
ghost use Rattle.recheck_sums.specs.Sums.{kind_at, share, sum_at, sums_of};

use recheck_sheet::{CASES, Place, WorkingSheet};
use std::array::from_fn;

// How many sums a sheet has.
pub const SUMS: usize = 96;

// What a place adds to the sum over the cases of a kind: its effect, where its case is of that kind.
// Stays: kind and component by number, here and below, since a place holds the byte of its kind, and an index of the list gives both.
#[tactic(auto, unfolding(crate::specs::Sums::share))]
fn share(place: &Place, kind: u8, station: usize, component: usize) -> i64
    requires { station < 16 }
    ensures value { result ≡ share place.now kind station component }
    ensures lower_bound { neg_ℤ (pos 32768) ≤ℤ result }
    ensures upper_bound { result ≤ℤ pos 32767 }
{
    if place.kind != Some(kind) {
        return 0;
    }
    i64::from(place.effects[station].component(component).cast_signed())
}

// The sum over the cases of a kind.
fn sum_at(places: &[Place; CASES], kind: u8, station: usize, component: usize) -> i64
    requires { station < 16 }
    ensures { result ≡ sum_at places.now kind station component }
{
    let mut sum = 0;
    for place in places {
        sum += share(place, kind, station, component);
    }
    sum
}

// The kind whose sum stands at an index: of the six of a station, the first three are those of D.
fn kind_at(index: usize) -> u8
    ensures { result ≡ kind_at index }
{
    if index % 6 < 3 { 1 } else { 2 }
}

// The sums that the sheet must have.
// Stays: one list by index, since `sums_are` states that two lists of numbers are equal, and `held_sums` gives the library's in this order.
pub fn sums_of(w: &WorkingSheet) -> [i64; SUMS]
    ensures { result ≡ sums_of w.now }
{
    from_fn(|i| sum_at(&w.places, kind_at(i), i / 6, i % 3))
}

// Whether any of these sums is not 0.
pub fn has_sums(due: &[i64; SUMS]) -> bool
    ensures { IsTrue result ↔ Any (λ sum. sum ≢ pos 0) due.now }
{
    due.iter().any(|sum| *sum != 0)
}

// Whether the numbers are these sums, all of them and no more.
pub fn sums_are(due: &[i64; SUMS], sums: &[i64]) -> bool
    ensures { IsTrue result ↔ (sums.now ≡ due.now) }
{
    sums == due.as_slice()
}

// Whether the numbers are the sums of the working sheet.
pub fn sums_agree(w: &WorkingSheet, sums: &[i64]) -> bool
    ensures { IsTrue result ↔ (sums.now ≡ sums_of w.now) }
{
    sums_are(&sums_of(w), sums)
}
