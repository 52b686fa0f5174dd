// A second checker, made apart from the library, by docs/SCOPE.md: it keeps a working sheet itself,
// works out what each answer must be, and tries every admissible combination of a small sheet.

#![tactic(auto)]

ghost use Rattle.std.specs.Prelude.{◌≤◌, length};

use recheck_bytes::{byte_at, index_at, number_at, word_at};
use recheck_combinations::{Capacities, Case, Component, Effects, Figure, times};
use recheck_enumeration::{Look, Named, all_between, is_large, reaches};
use recheck_refusals::accepted_tag;
use recheck_sheet::{
    ACCEPTED, CASES, EXTREMES, REFUSED, STATIONS, Tag, Triple, UTILISATION, WorkingSheet,
};
use recheck_tally::Outcome;

// What was seen of a reading: whether the answer is right, and what the reading was.
// Stays: a bool beside the outcome, since a wrong answer is counted by what the reading was, as a right one is.
#[derive(Clone, Copy)]
pub struct Seen {
    pub ok: bool,
    pub outcome: Outcome,
}

// Stays: a function, since both types are of other crates.
fn signed(t: Triple) -> Effects {
    Effects {
        n: t.n.cast_signed(),
        my: t.my.cast_signed(),
        mz: t.mz.cast_signed(),
    }
}

// The cases as a station sees them.
// Stays: remainders of stations here and below, which change none that an accepted look has, and need no clause.
fn cases_at(w: &WorkingSheet, station: usize) -> [Case; CASES] {
    let place = station % STATIONS;
    w.places.map(|p| Case {
        kind: p.kind,
        effects: signed(p.effects[place]),
    })
}

// Row, acting cases and low cases as an answer names them, in nine bytes, and the figure beside them.
fn named(part: &[u8], figure: i64) -> Named {
    Named {
        row: byte_at(part, 0),
        acting: u64::from(word_at(part, 1)),
        low: u64::from(word_at(part, 5)),
        figure,
    }
}

// An extreme: the figure, in eight bytes, and the combination named.
fn extreme(part: &[u8]) -> Named
    requires { 8 ≤ length part.now }
{
    let (figure, combination) = part.split_at(8);
    named(combination, number_at(figure, 0).cast_signed())
}

// Whether every admissible combination is between the ends; of a sheet too large for that, that the ends are in order.
fn is_bounded(look: Look, w: &WorkingSheet, cases: &[Case; CASES]) -> bool {
    if is_large(cases) {
        look.least <= look.greatest
    } else {
        all_between(look, w.options, cases)
    }
}

// The combinations named give the greatest and the least figure, and every other is between them.
fn is_extremes(w: &WorkingSheet, field: &[u8], answer: &[u8]) -> bool {
    let Ok(component) = Component::try_from(byte_at(field, 4)) else {
        return false;
    };
    if answer.len() != 37 || !answer.starts_with(&[EXTREMES, 0, 34]) {
        return false;
    }
    let maximum = extreme(&answer[3..20]);
    let minimum = extreme(&answer[20..]);
    let cases = cases_at(w, index_at(field, 3));
    let look = Look {
        figure: Figure::Effect(component),
        least: minimum.figure,
        greatest: maximum.figure,
    };
    reaches(look, w.options, &cases, maximum)
        && reaches(look, w.options, &cases, minimum)
        && is_bounded(look, w, &cases)
}

// The denominator is the formula's, and the verdict is pass exactly where the numerator is not above it.
fn is_share(capacities: Capacities, numerator: u64, denominator: u64, verdict: u8) -> bool {
    let bending = times(capacities.bending_y, capacities.bending_z);
    let formula = times(times(1000, capacities.axial), bending);
    formula == denominator && verdict == u8::from(numerator <= denominator)
}

// The combination named gives the numerator, and no other is above it.
fn is_utilisation(w: &WorkingSheet, field: &[u8], answer: &[u8]) -> bool {
    let station = index_at(field, 3);
    let Some(triple) = w.capacities[station % STATIONS] else {
        return false;
    };
    let capacities = Capacities {
        axial: u64::from(triple.n),
        bending_y: u64::from(triple.my),
        bending_z: u64::from(triple.mz),
    };
    if answer.len() != 29 || !answer.starts_with(&[UTILISATION, 0, 26]) {
        return false;
    }
    let numerator = number_at(answer, 3);
    let denominator = number_at(answer, 11);
    let cases = cases_at(w, station);
    let look = Look {
        figure: Figure::Numerator(capacities),
        least: 0,
        greatest: numerator.cast_signed(),
    };
    let combination = named(&answer[20..], look.greatest);
    is_share(capacities, numerator, denominator, byte_at(answer, 19))
        && reaches(look, w.options, &cases, combination)
        && is_bounded(look, w, &cases)
}

fn look_outcome(w: &WorkingSheet) -> Outcome {
    if is_large(&cases_at(w, 0)) {
        Outcome::LargeLook
    } else {
        Outcome::Look
    }
}

// Checks the answer to one reading: a whole field, or one cut short.
// Stays: field and answer apart, here and in the calls compared: of a struct of both slices a clause must say at which moment it is meant, which
// is no plainer.
pub fn check_answer(w: &WorkingSheet, field: &[u8], answer: &[u8]) -> Seen {
    match accepted_tag(w, field) {
        Err(refusal) => Seen {
            ok: answer == [REFUSED, 0, 1, u8::from(refusal)].as_slice(),
            outcome: Outcome::Refusal,
        },
        Ok(Tag::Extremes) => Seen {
            ok: is_extremes(w, field, answer),
            outcome: look_outcome(w),
        },
        Ok(Tag::Utilisation) => Seen {
            ok: is_utilisation(w, field, answer),
            outcome: look_outcome(w),
        },
        Ok(_) => Seen {
            ok: answer == [ACCEPTED, 0, 0].as_slice(),
            outcome: Outcome::Edit,
        },
    }
}

// The sheet after a reading: the same where a refusal is due.
pub fn sheet_after(w: &WorkingSheet, field: &[u8]) -> WorkingSheet {
    let mut after = *w;
    if accepted_tag(w, field).is_ok() {
        after.change(field);
    }
    after
}
