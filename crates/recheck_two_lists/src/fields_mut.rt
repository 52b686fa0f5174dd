ghost use Rattle.std.specs.Prelude.{length};

use recheck_readings::field_size;

// The fields of a list, one after the other, to be changed where they stand.
#[derive(Drop)]
pub struct FieldsMut<'a>(pub &'a mut [u8]);

impl<'a> Iterator for FieldsMut<'a> {
    ghost use Rattle.std.specs.Iterator.{at_most};

    type Item = &'a mut [u8];

    ghost remaining = { λ s. at_most (length s.0.now) };

    fn next(&mut self) -> Option<&'a mut [u8]> {
        if self.0.is_empty() {
            return None;
        }
        let size = field_size(self.0);
        self.0.split_off_mut(..size)
    }
}
