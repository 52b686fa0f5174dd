ghost use Rattle.std.specs.Prelude.{◌≤◌, length};

use recheck_bytes::{LIST_ROOM, SAVED_ROOM, UNWRITTEN, zeros};

// A list run from a fresh sheet: the bytes of its answers, so many of them, and what is saved.
// Stays: arrays with a length beside each, since the call fills arrays, and what it leaves unwritten of the saved form is compared too.
#[derive(Drop)]
pub struct Ran {
    answers: [u8; LIST_ROOM],
    written: usize,
    saved: [u8; SAVED_ROOM],
    count: usize,
    ghost in_room: { written ≤ 262144 },
}

impl Ran {
    // Nothing where the run is refused.
    pub fn of(list: &[u8]) -> Option<Self> {
        let mut answers = zeros::<LIST_ROOM>();
        let mut saved = [UNWRITTEN; SAVED_ROOM];
        let r = frames_c::frames_run(b"", list, &mut answers, &mut saved);
        if r.refusal != 0 || r.written > LIST_ROOM {
            return None;
        }
        Some(Ran {
            answers,
            written: r.written,
            saved,
            count: r.saved,
        })
    }

    pub fn answers(&self) -> &[u8]
        ensures { length result.now ≤ 262144 }
    {
        &self.answers[..self.written]
    }

    // Whether the same is saved as by the other run, and no more is written.
    pub fn saves_as(&self, other: &Ran) -> bool {
        self.count == other.count && self.saved == other.saved
    }
}
