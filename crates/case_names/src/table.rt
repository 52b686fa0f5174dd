// The names kept of the cases.
ghost use Rattle.std.specs.Prelude.{[]};
ghost use Rattle.case_names.specs.Table.{Fits, AllKept, NamesOf};

use crate::text::Text;
use standard::CASES;
use std::array;

pub const LONGEST_NAME: usize = 24;

pub type Name = Text<LONGEST_NAME>;

pub type Names = [Name; CASES];

pub fn no_names() -> Names
    ensures { NamesOf [] result }
{
    array::from_fn(|_| Name::new())
}

// Keeps the names in a part of the file.
// Stays: `Fits` as a clause, here and in `turn`, since contracts see of a `Text` its bytes and not the bound on them; a cast, since a case
// fits, and nothing is known of what is written through `(0..32).zip(names.iter_mut())`.
pub fn keep_names(part: &[u8], names: &mut Names)
    requires { Fits names.old }
    ensures { AllKept part.now names.old names.new }
{
    for (case, name) in names.iter_mut().enumerate() {
        let found = drawing::case_name(part, case as u8);
        if !found.is_empty() {
            name.clear();
            name.push(found);
        }
    }
}
