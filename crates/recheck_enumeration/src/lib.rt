// Every admissible combination of a small sheet, one after the other: row by row, every set of acting cases among the
// filled places, every set of cases at the low factor.

#![tactic(auto)]

ghost use Rattle.std.specs.Prelude.{◌<◌, ◌≤◌};

use recheck_combinations::{CASES, Case, Figure, Row, has};
use recheck_rows::Options;
use std::array::from_fn;

// A sheet is small with this many filled places.
const SMALL: u32 = 7;

// How many subsets their set has.
const SUBSETS: usize = 1 << SMALL;

// The rows have numbers below this one.
const ROWS: u8 = 44;

// What a look asks for, and the ends between which every admissible combination must give its figure.
#[derive(Clone, Copy)]
pub struct Look {
    pub figure: Figure,
    pub least: i64,
    pub greatest: i64,
}

// A combination named in an answer, and the figure that stands beside it.
#[derive(Clone, Copy)]
pub struct Named {
    pub row: u8,
    pub acting: u64,
    pub low: u64,
    pub figure: i64,
}

// The set of filled places.
// Stays: beside `having` of recheck_combinations, as that asks for the kinds and the factor of a place in a row.
fn filled(cases: &[Case; CASES]) -> u64 {
    let mut set = 0;
    for (place, case) in cases.iter().enumerate() {
        if case.kind.is_some() {
            set |= 1 << place;
        }
    }
    set
}

// Whether the sheet has too many filled places for the enumeration.
pub fn is_large(cases: &[Case; CASES]) -> bool {
    filled(cases).count_ones() > SMALL
}

// The subset of `all` that takes its lowest member where bit 0 of `number` is set, the next where bit 1 is, and so on.
fn subset(all: u64, number: usize) -> u64 {
    let mut set = 0;
    let mut picks = number;
    for place in 0..CASES {
        if has(all, place) {
            if picks % 2 == 1 {
                set |= 1 << place;
            }
            picks /= 2;
        }
    }
    set
}

// Whether the look's ends hold the figure of each admissible combination of the row that is of these sets of cases.
fn row_between(look: Look, row: &Row, sets: &[u64]) -> bool {
    let between = look.least..=look.greatest;
    sets.iter()
        .filter(|acting| row.rules.may_act(**acting))
        .all(|acting| {
            sets.iter()
                .filter(|low| row.rules.may_be_low(*acting, **low))
                .all(|low| between.contains(&row.figure(look.figure, *acting, *low)))
        })
}

// Over every open row, whether each admissible combination gives a figure between the look's ends: for a sheet with
// at most 7 filled places.
pub fn all_between(look: Look, options: Options, cases: &[Case; CASES]) -> bool {
    let all = filled(cases);
    let sets: [u64; SUBSETS] = from_fn(|number| subset(all, number));
    let sets = &sets[..1 << all.count_ones().min(SMALL)];
    (0..ROWS)
        .filter(|row| options.opens(*row))
        .map(|row| Row::new(options, row, cases))
        .all(|row| row_between(look, &row, sets))
}

// Whether the combination named is admissible and gives exactly the figure beside it.
pub fn reaches(look: Look, options: Options, cases: &[Case; CASES], named: Named) -> bool {
    let row = Row::new(options, named.row, cases);
    options.opens(named.row)
        && row.rules.may_act(named.acting)
        && row.rules.may_be_low(named.acting, named.low)
        && row.figure(look.figure, named.acting, named.low) == named.figure
}
