#![tactic(auto)]

// The library's reader of case names (SCOPE 9.6) against the second program's, on the stored input taken as a file and on many parts of it.

ghost use Rattle.std.specs.Prelude.{◌≡◌, ◌<◌, ◌≤◌, length};

use recheck_bytes::{byte_at, zeros};
use recheck_names::{Name, name_of, split_field};
use recheck_tally::counted;
use std::iter::once;

// Counts for the summary: how often the name of a case in a file was compared, how often there was one, and how often the readers differ.
#[derive(Clone, Copy, Default)]
pub struct Compared {
    pub cases: u64,
    pub names: u64,
    pub failed: u64,
}

// Whether the library finds the case's name at this place.
// Stays: compared number by number, since the library's place and the second program's name are types of their own.
fn is_at(file: &[u8], case: u8, own: Name) -> bool {
    let place = drawing::name_place(file, case);
    place.from == own.from && place.len == own.len
}

// Whether the library gives the place, the length and the bytes of the case's name as the second program does.
fn agrees(file: &[u8], case: u8, own: Option<Name>) -> bool {
    let own = own.unwrap_or_default();
    let name = drawing::case_name(file, case);
    is_at(file, case, own)
        && name.len() == own.len
        && file
            .get(own.from..)
            .is_some_and(|rest| rest.starts_with(name))
}

impl Compared {
    fn add_case(&mut self, file: &[u8], case: u8) {
        let own = name_of(file, case);
        self.cases = counted(self.cases, true);
        self.names = counted(self.names, own.is_some());
        self.failed = counted(self.failed, !agrees(file, case, own));
    }

    // Every case that there is, and some above.
    fn add_cases(&mut self, file: &[u8]) {
        for case in (0..34).chain(once(255)) {
            self.add_case(file, case);
        }
    }

    // The fronts of 0 to 40 bytes: the first field cut at each place, and what follows a short one.
    fn add_fronts(&mut self, file: &[u8]) {
        for n in 0..=file.len().min(40) {
            self.add_cases(&file[..n]);
        }
    }

    // A field of the stored input, from which on the input has `here`, and `rest` after it: cut and as the first of a file, and as the end
    // of one, whole and without its last byte. In the long files the case is the byte that stands where a name has it.
    fn add_field(&mut self, stored: &[u8], here: &[u8], rest: &[u8])
        requires { length rest.now ≤ length stored.now }
    {
        let case = byte_at(here, 3);
        let end = stored.len() - rest.len();
        self.add_fronts(here);
        self.add_case(here, case);
        self.add_case(&stored[..end], case);
        self.add_case(&stored[..end.saturating_sub(1)], case);
    }
}

// The stored input, and files made of it at each of its fields and where no whole field follows.
// Stays: while let, since what is left after the last whole field is compared too.
pub fn compare_names(stored: &[u8]) -> Compared {
    let mut compared = Compared::default();
    compared.add_cases(stored);
    let mut here = stored;
    while let Some((_, rest)) = split_field(here) {
        compared.add_field(stored, here, rest);
        here = rest;
    }
    if !stored.is_empty() {
        compared.add_field(stored, here, here);
    }
    compared
}

// SCOPE 11.7: names for cases 0 and 1, and fields of tag 60 that name none. The last field is cut where its last byte is left out.
const WORKED: [u8; 81] = *b"\
    \x01\x00\x03\x01\x00\x00\
    \x60\x00\x05\x00DEAD\
    \x02\x00\x02\x00\x01\
    \x60\x00\x02\x01L\
    \x7F\x00\x02\x60\x00\
    \x60\x00\x01\x01\
    \x60\x00\x02\x20A\
    \x60\x00\x06\x00ROOF1\
    \x60\x00\x1A\x01AAAAAAAAAAAAAAAAAAAAAAAAA\
    \x60\x00\x02\x01X";

// Whether cases 0 and 1 have their names there, and no other case has one.
fn has_two(file: &[u8], first: Name, second: Name) -> bool {
    let mut all = Compared::default();
    all.add_cases(file);
    is_at(file, 0, first) && is_at(file, 1, second) && all.names == 2 && all.failed == 0
}

// The front of a file, and the name `B` from a place on.
fn put_names(file: &mut [u8], front: &[u8], end: usize)
    requires file_len { length file.old ≡ 60014 }
    requires front_len_bound { length front.now < 10 }
    requires end_bound { end < 60010 }
{
    file[..front.len()].copy_from_slice(front);
    file[end..end + 5].copy_from_slice(b"\x60\x00\x02\x00B");
}

// Whether the library finds the name at this place in a file with such a front, a field that ends where the name `B` begins.
fn finds_past(front: &[u8], end: usize, from: usize) -> bool
    requires front_len_bound { length front.now < 10 }
    requires end_bound { end < 60010 }
{
    let mut file = zeros::<60014>();
    put_names(&mut file, front, end);
    is_at(&file, 0, Name { from, len: 1 })
}

// Whether the name `B` is found after a field of length 60,000, and the name `A` before one of 60,001.
fn long_fields_agree() -> bool {
    finds_past(b"\x60\x00\x02\x00A\x7F\xEA\x60", 60008, 60012)
        && finds_past(b"\x60\x00\x02\x00A\x7F\xEA\x61", 60009, 4)
}

// The worked file cut and whole, and the files with a long field.
pub fn worked_files_agree() -> bool {
    let file = WORKED;
    let roof = Name { from: 42, len: 5 };
    let live = Name { from: 23, len: 1 };
    let last = Name { from: 80, len: 1 };
    has_two(&file[..80], roof, live) && has_two(&file, roof, last) && long_fields_agree()
}
