// The whole fields of a file, one after the other.

ghost use Rattle.std.specs.Prelude.{◌≡◌, ◌+◌, ◌≤◌, length};

use crate::NamePlace;
use headers::NAME_TAG;

// A whole field of a file: where it begins, its tag and body, and where it ends.
// Stays: places, since a name is answered by its place in the file.
#[derive(Clone, Copy)]
pub struct Field<'a> {
    pub at: usize,
    pub whole: headers::Field<'a>,
    pub end: usize,
    ghost ends: { end ≡ at + (3 + length whole.body.now) },
}

impl Field<'_> {
    ghost use Rattle.std.specs.Prelude.{cond, Some, None};
    ghost use Rattle.drawing.specs.Fields.{is_name_of, name_in};

    // The name in the field, where it is one of the case.
    pub fn name_of(&self, case: u8) -> Option<NamePlace>
        ensures { result ≡ cond (is_name_of case self.now) (Some (name_in self.now)) None }
    {
        let headers::Field { tag, body } = self.whole;
        if tag != NAME_TAG || !headers::is_name_length(body.len()) || wire::byte(body, 0) != case {
            return None;
        }
        Some(NamePlace {
            from: self.at + 4,
            len: body.len() - 1,
        })
    }
}

// The whole fields of a file from a place on.
#[derive(Clone, Copy)]
pub struct Fields<'a> {
    file: &'a [u8],
    at: usize,
    ghost within: { at ≤ length file.now },
}

impl<'a> Fields<'a> {
    // All of them.
    pub fn of(file: &'a [u8]) -> Fields<'a>
        ensures { (result.file.now ≡ file.now) × (result.at ≡ 0) }
    {
        Fields { file, at: 0 }
    }
}

impl<'a> Iterator for Fields<'a> {
    ghost use Rattle.std.specs.Prelude.{◌-◌};
    ghost use Rattle.std.specs.Iterator.{at_most};
    ghost use Rattle.drawing.specs.Fields.{TakesField};

    type Item = Field<'a>;

    ghost next_gives = { λ old field new. TakesField old field new };

    ghost remaining = { λ s. at_most (length s.file.now - s.at) };

    fn next(&mut self) -> Option<Field<'a>> {
        let at = self.at;
        let whole = headers::field_of(&self.file[at..])?;
        self.at += 3 + whole.body.len();
        Some(Field {
            at,
            whole,
            end: self.at,
        })
    }
}
