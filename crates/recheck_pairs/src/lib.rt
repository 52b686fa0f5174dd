// The law of the pair (SCOPE 4.7): with the sign of every effect turned, the maximum is the former minimum with its sign turned, and
// the reverse. Here are the sheet with its signs turned and the comparison of two answers, of their numbers alone: the combinations
// named may differ among equals.

#![tactic(auto)]

ghost use Rattle.std.specs.Prelude.{◌≡◌, map};
ghost use Rattle.recheck_bytes.specs.Bytes.{number_at};
ghost use Rattle.recheck_pairs.specs.Pair.{has_extremes, opposite, pair_agrees};
ghost use Rattle.recheck_pairs.specs.Turned.{negated, turned, turned_place, turned_triple};

use recheck_bytes::{byte_at, number_at};
use recheck_sheet::{CASES, EXTREMES, Place, Tag, Triple, WorkingSheet};

// Minus an effect, in 16 bits of two's complement.
fn negated(effect: u16) -> u16
    ensures { result ≡ negated effect }
{
    effect.wrapping_neg()
}

fn turned_triple(t: Triple) -> Triple
    ensures { result ≡ turned_triple t }
{
    Triple {
        n: negated(t.n),
        my: negated(t.my),
        mz: negated(t.mz),
    }
}

fn turned_place(place: Place) -> Place
    ensures { result ≡ turned_place place }
{
    Place {
        kind: place.kind,
        effects: place.effects.map(turned_triple),
    }
}

fn all_turned(places: [Place; CASES]) -> [Place; CASES]
    ensures { result ≡ map turned_place places }
{
    places.map(turned_place)
}

// The sheet with the sign of every effect turned: all places, stations and components.
#[tactic(auto, unfolding(crate::specs::Turned::turned))]
pub fn turned(w: &WorkingSheet) -> WorkingSheet
    ensures { result ≡ turned w.now }
{
    WorkingSheet {
        places: all_turned(w.places),
        ..*w
    }
}

// Whether the field asks for the extremes and the answer has them.
pub fn has_extremes(field: &[u8], answer: &[u8]) -> bool
    ensures { result ≡ has_extremes field.now answer.now }
{
    Tag::try_from(byte_at(field, 0)) == Ok(Tag::Extremes) && byte_at(answer, 0) == EXTREMES
}

fn maximum(answer: &[u8]) -> u64
    ensures { result ≡ number_at answer.now 3 8 }
{
    number_at(answer, 3)
}

fn minimum(answer: &[u8]) -> u64
    ensures { result ≡ number_at answer.now 20 8 }
{
    number_at(answer, 20)
}

// Whether the numbers, in two's complement, add up to 0.
fn opposite(x: u64, y: u64) -> bool
    ensures { result ≡ opposite x y }
{
    x.wrapping_add(y) == 0
}

// Whether each extreme of the answer after the signs are turned is minus the other one of the answer before.
pub fn pair_agrees(before: &[u8], after: &[u8]) -> bool
    ensures { result ≡ pair_agrees before.now after.now }
{
    opposite(maximum(after), minimum(before)) && opposite(minimum(after), maximum(before))
}
