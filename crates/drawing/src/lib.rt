// The drawing office's reader: the name of a load case in the bytes of a file.

#![tactic(auto)]

ghost use Rattle.std.specs.Prelude.{◌≡◌};
ghost use Rattle.drawing.specs.Names.{name_place, case_name, whole_end};

mod fields;

use fields::Fields;
use refusals::LAST_CASE;

// Where a name stands in a file: its first byte, and how many it has. No name has none.
// Stays: two numbers, since a call from C hands them back.
#[repr(C)]
#[derive(Clone, Copy, Default)]
pub struct NamePlace {
    pub from: usize,
    pub len: usize,
}

// Where the name of a case stands in a file.
#[tactic(auto, unfolding(crate::specs::Names::name_place))]
pub fn name_place(file: &[u8], case: u8) -> NamePlace
    ensures { result ≡ name_place file.now case }
{
    let mut found = NamePlace::default();
    if LAST_CASE < case {
        return found;
    }
    for field in Fields::of(file) {
        found = field.name_of(case).unwrap_or(found);
    }
    found
}

// The name of a case, as that part of the file itself; no bytes where it has none.
pub fn case_name(file: &[u8], case: u8) -> &[u8]
    ensures { result.now ≡ case_name file.now case }
{
    let p = name_place(file, case);
    let from = p.from;
    let end = from + p.len;
    &file[from..end]
}

// As far as the whole fields of a file reach.
// Stays: a loop, since `last` gives the fields as a list, over which the walk would be proved a second time.
pub fn whole_end(file: &[u8]) -> usize
    ensures { result ≡ whole_end file.now }
{
    let mut end = 0;
    for field in Fields::of(file) {
        end = field.end;
    }
    end
}
