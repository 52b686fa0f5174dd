ghost use Rattle.std.specs.Prelude.{length, MatchOption};

use crate::split_field;

// The whole fields of a file, one after the other: at each, what the file has from it on.
#[derive(Clone, Copy)]
pub struct Fields<'a>(pub &'a [u8]);

impl<'a> Iterator for Fields<'a> {
    ghost use Rattle.std.specs.Iterator.{at_most};
    ghost use Rattle.recheck_names.specs.Results.{Gives, Ends};

    type Item = &'a [u8];

    ghost next_gives = { λ old here new. MatchOption here (Ends old.0.now new.0.now) (λ here. Gives old.0.now here.now new.0.now) };

    ghost remaining = { λ s. at_most (length s.0.now) };

    fn next(&mut self) -> Option<&'a [u8]> {
        let here = self.0;
        let (_, rest) = split_field(here)?;
        self.0 = rest;
        Some(here)
    }
}
