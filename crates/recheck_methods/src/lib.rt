#![tactic(auto)]

// The library's calls on a sheet by value: each field's method and saving, compared with what the reader answered and with the
// second program's saved form and sums.

ghost use Rattle.std.specs.Prelude.{◌≡◌, ◌<◌, ◌&&◌, length};
ghost use Rattle.recheck_bytes.specs.Bytes.{filled_up_to, same_up_to};
ghost use Rattle.sheet.specs.Range.{InRange};
ghost use Rattle.recheck_methods.specs.Held.{held_at, held_sums};

mod answer;

use answer::answer_is;
use recheck_bytes::{UNWRITTEN, byte_at, filled_from, pair_at, same_front};
use recheck_saving::SavedForm;
use recheck_sheet::{Tag, WorkingSheet, whole_tag};
use recheck_sums::{SUMS, sums_are, sums_of};
use refusals::{EffectWords, Refusal};
use sheet::{Answered, Sheet};
use standard::Capacities;
use std::array::from_fn;

// More bytes than any saved form has.
const ROOM: usize = 5969;

// Whether the output has these bytes, and no more are written.
pub fn holds(out: &[u8], bytes: &[u8]) -> bool
    ensures { result ≡ same_up_to bytes.now out.now 0 (length bytes.now) && filled_up_to 238 out.now (length bytes.now) (length out.now) }
{
    same_front(out, bytes) && filled_from(out, bytes.len(), UNWRITTEN)
}

// What the library's sheet must have, by the working sheet: the saved form and the sums.
#[derive(Drop)]
pub struct Due {
    pub form: SavedForm,
    pub sums: [i64; SUMS],
}

// The sum that the library's sheet holds at an index of recheck_sums.
// Stays: by index, since the list is compared with that of recheck_sums, which goes by it.
fn held_at(sheet: &Sheet, i: usize) -> i64
    requires { i < 96 }
    ensures { result ≡ held_at sheet.now i }
{
    let station = sheet.sums[i / 6];
    if i % 6 < 3 {
        station.dead[i % 3]
    } else {
        station.fluid[i % 3]
    }
}

// All of them.
pub fn held_sums(sheet: &Sheet) -> [i64; SUMS]
    ensures { result ≡ held_sums sheet.now }
{
    from_fn(|i| held_at(sheet, i))
}

impl Due {
    pub fn of(w: &WorkingSheet) -> Self {
        Due {
            form: SavedForm::of(w),
            sums: sums_of(w),
        }
    }

    // Whether the sheet is saved in this form and holds these sums.
    pub fn is_met(&self, sheet: Sheet) -> bool {
        saved_agrees(sheet, self.form.bytes()) && sums_are(&self.sums, &held_sums(&sheet))
    }
}

// Whether an output that is too short is refused and left as it was.
fn refused_short(sheet: Sheet, out: &mut [u8]) -> bool {
    let refused = matches!(saving::save(sheet, out), Err(Refusal::ShortOutput));
    refused && filled_from(out, 0, UNWRITTEN)
}

// Whether the sheet is saved as these bytes, and an output of a byte less is refused.
fn saved_agrees(sheet: Sheet, own: &[u8]) -> bool
    requires { length own.now < 5968 }
{
    let Some(less) = own.len().checked_sub(1) else {
        return false;
    };
    let mut short = [UNWRITTEN; ROOM];
    let refused = refused_short(sheet, &mut short[..less]);
    let mut out = [UNWRITTEN; ROOM];
    let Ok(count) = saving::save(sheet, &mut out) else {
        return false;
    };
    refused && count == own.len() && holds(&out, own)
}

// The field's method.
fn by_method(tag: Tag, sheet: Sheet, field: &[u8]) -> Answered
    requires { InRange sheet }
{
    let first = byte_at(field, 3);
    let second = byte_at(field, 4);
    match tag {
        Tag::Restart => sheet.restart(first, second, byte_at(field, 5)),
        Tag::Fill => sheet.fill(first, second),
        Tag::Effects => sheet.replace_effects(
            first,
            second,
            EffectWords {
                n: pair_at(field, 5),
                y: pair_at(field, 7),
                z: pair_at(field, 9),
            },
        ),
        Tag::Empty => sheet.empty(first),
        Tag::Capacities => sheet.replace_capacities(
            first,
            Capacities {
                n: pair_at(field, 4),
                y: pair_at(field, 6),
                z: pair_at(field, 8),
            },
        ),
        Tag::Extremes => sheet.look_extremes(first, second),
        Tag::Utilisation => sheet.look_utilisation(first),
        Tag::Ice => sheet.switch_ice(first),
        Tag::Straining => sheet.set_straining(pair_at(field, 3)),
        Tag::Name => sheet.name_case(first),
    }
}

// Whether the field's method answers as the reader did and leaves the sheet that is due.
pub fn method_agrees(sheet: Sheet, field: &[u8], answer: &[u8], due: &Due) -> bool
    requires { InRange sheet }
{
    // no other field has a method
    let Some(tag) = whole_tag(field) else {
        return true;
    };
    let r = by_method(tag, sheet, field);
    answer_is(r.answer, answer) && due.is_met(r.sheet)
}
