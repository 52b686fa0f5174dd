#![tactic(auto)]

ghost use Rattle.integers.specs.Sets.{TakesLowest};

// The members of a set, lowest first.
#[derive(Clone, Copy)]
pub struct Members(pub u64);

impl Iterator for Members {
    ghost use Rattle.std.specs.Iterator.{at_most};

    type Item = usize;

    ghost next_gives = { λ old r new. TakesLowest old.0 r new.0 };

    ghost remaining = { λ s. at_most s.0 };

    // Stays: `as`, since `usize` has no `From<u32>` and `try_from` would give a Result that is never an `Err`.
    fn next(&mut self) -> Option<usize> {
        if self.0 == 0 {
            return None;
        }
        let k = self.0.trailing_zeros() as usize;
        self.0 &= self.0 - 1;
        Some(k)
    }
}
