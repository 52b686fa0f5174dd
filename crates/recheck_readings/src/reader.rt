ghost use Rattle.std.specs.Prelude.{◌≤◌, length};
ghost use Rattle.sheet.specs.Range.{InRange};

use crate::{field_size, front};
use recheck_bytes::{UNWRITTEN, filled_from};
use sheet::{Answer, Sheet};

// A sheet that is in range, as a fresh one is and every reading leaves it.
#[derive(Clone, Copy)]
pub struct Reader {
    pub sheet: Sheet,
    pub ghost in_range: { ∥ InRange sheet ∥₁ },
}

// What a reading that is refused for its output is answered (SCOPE 7.1).
// Stays: a number of its own, since the second program takes none from the library that it checks.
const SHORT_OUTPUT: u8 = 14;

// How many bytes a reading wrote, and whether it took and wrote what it must.
// Stays: a bool beside the length, since a reading that is not clean has an answer too, which is checked and counted as any other.
#[derive(Clone, Copy)]
pub struct Reading {
    pub written: usize,
    pub clean: bool,
}

impl Reader {
    #[tactic(auto, using(crate::proofs::InRange::fresh_held))]
    pub fn fresh() -> Self {
        Reader {
            sheet: Sheet::fresh(standard::fresh_settings()),
        }
    }

    // An output of 36 bytes is one too short for every answer: refusal 14, nothing consumed and nothing written. Whether it was so.
    // The sheet that comes back is used from here on, so that a change to it is seen.
    #[tactic(auto, using(crate::proofs::InRange::held))]
    pub fn read_short(&mut self, input: &[u8]) -> bool {
        let mut out = [UNWRITTEN; 36];
        let r = fields::read_field(self.sheet, input, &mut out);
        self.sheet = r.sheet;
        let refused = matches!(r.answer, Answer::Refused(SHORT_OUTPUT));
        refused && r.consumed == 0 && r.written == 0 && filled_from(&out, 0, UNWRITTEN)
    }

    // A reading of what the input begins with, with room for every answer.
    #[tactic(auto, using(crate::proofs::InRange::held))]
    pub fn read(&mut self, input: &[u8], out: &mut [u8]) -> Reading
        ensures { result.written ≤ length out.new }
    {
        let r = fields::read_field(self.sheet, front(input), out);
        self.sheet = r.sheet;
        let sized = r.consumed == field_size(input);
        Reading {
            written: r.written,
            clean: sized && filled_from(out, r.written, UNWRITTEN),
        }
    }
}
