ghost use Rattle.std.specs.Prelude.{length};

use crate::field_size;

// What is left of a list at each of its readings.
// Stays: beside recheck_names::Fields, since that ends at a field that is cut and this one yields it.
#[derive(Clone, Copy)]
pub struct Rests<'a>(pub &'a [u8]);

impl<'a> Iterator for Rests<'a> {
    ghost use Rattle.std.specs.Iterator.{at_most};

    type Item = &'a [u8];

    ghost remaining = { λ s. at_most (length s.0.now) };

    fn next(&mut self) -> Option<&'a [u8]> {
        if self.0.is_empty() {
            return None;
        }
        let rest = self.0;
        self.0 = &rest[field_size(rest)..];
        Some(rest)
    }
}
