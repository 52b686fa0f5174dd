use crate::{Counts, compare};
use recheck_offices::Stations;

// A worked list: D, L and W at stations 0 and 1, looks at both, refused fields, other settings, a case dropped, and a field that is cut.
const WORKED: [u8; 171] = *b"\
    \x01\x00\x03\x01\x00\x00\
    \x02\x00\x02\x00\x01\
    \x02\x00\x02\x01\x05\
    \x02\x00\x02\x02\x09\
    \x03\x00\x08\x00\x00\x00\x64\x00\x05\xFF\xFD\
    \x03\x00\x08\x01\x00\x00\x32\x00\x02\x00\x04\
    \x03\x00\x08\x02\x00\xFF\x38\x00\x01\x00\x06\
    \x05\x00\x07\x00\x01\x2C\x00\xC8\x00\x64\
    \x03\x00\x08\x00\x01\x00\x0A\x00\x00\x00\x00\
    \x03\x00\x08\x02\x01\x00\x14\x00\x1E\x00\x00\
    \x05\x00\x07\x01\x00\x64\x00\x64\x00\x64\
    \x06\x00\x02\x00\x00\
    \x06\x00\x02\x00\x01\
    \x06\x00\x02\x00\x02\
    \x07\x00\x01\x00\
    \x06\x00\x02\x01\x00\
    \x07\x00\x01\x01\
    \x03\x00\x08\x01\x01\x27\x11\x00\x00\x00\x00\
    \x04\x00\x01\x05\
    \x7F\x00\x00\
    \x06\x00\x01\x00\
    \x09\x00\x02\x05\xDC\
    \x08\x00\x01\x01\
    \x04\x00\x01\x01\
    \x06\x00\x02\x00\x00\
    \x07\x00\x01\x00\
    \x03\x00\x08";

// The effects and capacities of station 1 in the second worked list.
const AT_STATION_1: [u8; 32] = *b"\
    \x03\x00\x08\x00\x01\xFF\xB0\x00\x07\x00\x03\
    \x03\x00\x08\x02\x01\xFF\xEC\x03\xE8\xD8\xF0\
    \x05\x00\x07\x01\x00\x01\x00\x02\x00\x03";

// The worked list with these at station 1.
fn second_list() -> [u8; 171] {
    let mut list = WORKED;
    list[64..96].copy_from_slice(&AT_STATION_1);
    list
}

// The worked list with N of D 101 at station 0, in the place of 100.
fn third_list() -> [u8; 171] {
    let mut list = WORKED;
    list[27] = 101;
    list
}

// Counts with no failure.
fn counts(same: u64, different: u64) -> Counts {
    Counts {
        same,
        different,
        failed: 0,
    }
}

// With other values at station 1 the six looks at station 0 have the same answers and the two at station 1 do not. With another N of D at
// station 0 the two looks at station 1 have the same answers; those at station 0 that go by N, twice the extremes of N and the
// utilisation, do not.
pub fn worked_lists_agree() -> bool {
    let others = compare(&WORKED, &second_list(), Stations::AllBut(0));
    let own = compare(&WORKED, &third_list(), Stations::Only(0));
    others == counts(6, 2) && own == counts(2, 4)
}
