#![tactic(auto)]

// Reads lists of fields one after the other, and a sheet from its saved bytes.
ghost use Rattle.std.specs.Prelude.{◌≡◌, ◌*◌, ◌≤◌, length};
ghost use Rattle.wire.specs.Bytes.{over};
ghost use Rattle.answers.specs.Answers.{answer_room};
ghost use Rattle.sheet.specs.Range.{InRange};
ghost use Rattle.lists.specs.Lists.{fields_of, sheet_after, answers_to, bytes_of};
ghost use Rattle.loading.specs.Loaded.{refusal_of, first_refusal, overlaid};

use answers::ANSWER_ROOM;
use lists::Fields;
use refusals::Refusal;
use sheet::{Answer, Sheet};

// What the fields of a list came to: how many bytes their answers are, and the first refusal, if there is one.
#[derive(Clone, Copy)]
pub struct AllRead {
    pub written: usize,
    pub refusal: Option<u8>,
}

// The refusal of a field that was to be accepted.
// Stays: a refusal by its number, here and in what is read below, as the answer of a field has it.
fn refusal_of(answer: Answer) -> Option<u8>
    ensures { result ≡ refusal_of answer }
{
    match answer {
        Answer::Accepted => None,
        Answer::Refused(n) => Some(n),
        Answer::Extremes(_) | Answer::Utilisation(_) => Some(u8::from(Refusal::UnknownTag)),
    }
}

// Reads the fields of the input, one after the other, and writes their answers over the front of the output, one after the other.
// Stays: `while`, since `Fields` reads each header a second time: 215 instructions for a 03 and 286 for a 02 or 04, where the bounds are 211
// and 278 and this takes 203 and 274.
pub fn read_all(sheet: &mut Sheet, input: &[u8], output: &mut [u8]) -> AllRead
    requires in_range { InRange sheet.old }
    requires room { answer_room * length (fields_of input.now) ≤ length output.old }
    ensures sheet { sheet.new ≡ sheet_after (fields_of input.now) sheet.old }
    ensures written { result.written ≡ length (bytes_of (answers_to (fields_of input.now) sheet.old)) }
    ensures refusal { result.refusal ≡ first_refusal (answers_to (fields_of input.now) sheet.old) }
    ensures output { output.new ≡ over (bytes_of (answers_to (fields_of input.now) sheet.old)) output.old }
{
    let mut left = input;
    let mut written = 0;
    let mut first = None;
    while !left.is_empty() {
        let r = fields::read_in(sheet, left, &mut output[written..]);
        left = &left[r.consumed..];
        written += r.written;
        first = first.or(refusal_of(r.answer));
    }
    AllRead {
        written,
        refusal: first,
    }
}

// The same with room for one answer alone: each is written over the front of the output, and so over the answer before it. The first
// refusal, if there is one.
pub fn read_over(sheet: &mut Sheet, input: &[u8], output: &mut [u8]) -> Option<u8>
    requires in_range { InRange sheet.old }
    requires room { answer_room ≤ length output.old }
    ensures sheet { sheet.new ≡ sheet_after (fields_of input.now) sheet.old }
    ensures refusal { result ≡ first_refusal (answers_to (fields_of input.now) sheet.old) }
    ensures in_range { InRange sheet.new }
    ensures output { output.new ≡ overlaid (answers_to (fields_of input.now) sheet.old) output.old }
{
    let mut refusal = None;
    for field in Fields(input) {
        let r = fields::read_in(sheet, field, output);
        refusal = refusal.or(refusal_of(r.answer));
    }
    refusal
}

// Reads the fields of a state, one after the other: the first refusal, if there is one. The answers are not kept.
pub fn load(sheet: &mut Sheet, state: &[u8]) -> Option<u8>
    requires { InRange sheet.old }
    ensures sheet { sheet.new ≡ sheet_after (fields_of state.now) sheet.old }
    ensures refusal { result ≡ first_refusal (answers_to (fields_of state.now) sheet.old) }
    ensures in_range { InRange sheet.new }
{
    let mut answer = [0; ANSWER_ROOM];
    read_over(sheet, state, &mut answer)
}
