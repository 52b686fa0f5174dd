#![tactic(auto)]

// An input that comes in pieces: the fields at hand are answered.
ghost use Rattle.std.specs.Prelude.{◌≡◌, [], ◌∷◌, false, not, ◌&&◌, ◌+◌, ◌-◌, ◌≤◌, length, drop};
ghost use Rattle.sheet.specs.Range.{InRange};
ghost use Rattle.answers.specs.Answers.{answer_room};
ghost use Rattle.lists.specs.Lists.{fields_of};
ghost use Rattle.stream.specs.Answering.{is_next, answered_of, begun, Progressed, Within};

use answers::ANSWER_ROOM;
use sheet::Sheet;

// How far the fields at hand are answered, and whether one of the answers stops the service.
// Stays: a bool, since the counts hold whether or not the service stops.
#[derive(Clone, Copy, Default)]
pub struct Progress {
    pub consumed: usize,
    pub written: usize,
    pub stop: bool,
}

// Answers one field, after the answers that wait in the output.
fn answer(p: Progress, sheet: &mut Sheet, input: &[u8], output: &mut [u8]) -> Progress
    requires { Within sheet.old p.consumed p.written input.now output.old output.old × (p.written + answer_room ≤ length output.old) × (p.stop ≡ false) }
    ensures { Progressed (drop p.consumed input.now ∷ []) p sheet.old output.old result sheet.new output.new }
{
    let r = fields::read_in(sheet, &input[p.consumed..], &mut output[p.written..]);
    Progress {
        consumed: p.consumed + r.consumed,
        written: p.written + r.written,
        stop: answers::is_last(r.answer),
    }
}

// Whether a field at the front of the bytes is answered now. One that the end of input cuts is.
// Stays: `ended` as a bool, since it is a fact of the input and selects no step.
#[tactic(auto, unfolding(crate::specs::Answering::is_next))]
fn is_next(ended: bool, room: usize, bytes: &[u8]) -> bool
    ensures { result ≡ is_next ended room bytes.now }
{
    !bytes.is_empty() && (ended || headers::is_ready(bytes)) && ANSWER_ROOM <= room
}

// Whether the next field is answered now: none is after a 3.
// Stays: `ended` as a bool, as in `is_next`.
fn goes_on(p: Progress, ended: bool, input: &[u8], output: &[u8]) -> bool
    requires { (p.consumed ≤ length input.now) × (p.written ≤ length output.now) }
    ensures { result ≡ (not p.stop && is_next ended (length output.now - p.written) (drop p.consumed input.now)) }
{
    !p.stop && is_next(ended, output.len() - p.written, &input[p.consumed..])
}

// Answers the fields at hand.
// Stays: `while`, since a 3 and the room for answers end it before the bytes do, and an iterator would hold the sheet and both buffers.
pub fn answer_all(sheet: &mut Sheet, ended: bool, input: &[u8], output: &mut [u8]) -> Progress
    requires { InRange sheet.old × (answer_room ≤ length output.old) }
    ensures progressed { Progressed (answered_of ended (length output.old) (fields_of input.now) sheet.old) begun sheet.old output.old result sheet.new output.new }
    ensures within { Within sheet.new result.consumed result.written input.now output.old output.new }
{
    let mut p = Progress::default();
    while goes_on(p, ended, input, output) {
        p = answer(p, sheet, input, output);
    }
    p
}
