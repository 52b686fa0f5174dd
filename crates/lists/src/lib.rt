#![tactic(auto)]

// Lists of fields in given bytes: the fields one after the other, and whether an output has room for the answers to them.
ghost use Rattle.std.specs.Prelude.{◌≡◌, length};
ghost use Rattle.lists.specs.Lists.{fields_of, short};

use answers::ANSWER_ROOM;

// The fields of the bytes, each as the bytes from its tag on. One that is cut is the last.
// Stays: beside `drawing::fields::Fields`, which ends at a field that is cut, where this one yields it.
#[derive(Clone, Copy)]
pub struct Fields<'a>(pub &'a [u8]);

impl<'a> Iterator for Fields<'a> {
    ghost use Rattle.std.specs.Iterator.{YieldsFirstRef, item_count};

    type Item = &'a [u8];

    ghost next_gives = { YieldsFirstRef (λ s. fields_of s.0.now) };

    ghost remaining = { item_count (λ s. fields_of s.0.now) };

    fn next(&mut self) -> Option<&'a [u8]> {
        let field = self.0;
        if field.is_empty() {
            return None;
        }
        self.0 = &field[headers::consumed_by(field)..];
        Some(field)
    }
}

// How many fields the bytes hold.
pub fn count(input: &[u8]) -> usize
    ensures { result ≡ length (fields_of input.now) }
{
    Fields(input).count()
}

// Whether the output has under 37 bytes for each field.
pub fn is_short(input: &[u8], room: usize) -> bool
    ensures { result ≡ short input.now room }
{
    room / ANSWER_ROOM < count(input)
}
