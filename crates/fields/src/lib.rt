#![tactic(auto)]

// Reads one tagged field, edits the sheet and answers.
ghost use Rattle.std.specs.Prelude.{◌≡◌};
ghost use Rattle.fields.specs.Readings.{FieldRead, ReadWithin, with_sheet};
ghost use Rattle.fields.specs.Order.{field_of};
ghost use Rattle.sheet.specs.Looks.{answered};
ghost use Rattle.sheet.specs.Range.{InRange};

use answers::ANSWER_ROOM;
use headers::Field;
use refusals::Refusal;
use sheet::{Answer, Sheet};

// A reading: its answer, the sheet after it, and how many bytes it consumes and writes.
// Stays: the fields of `Outcome` again, since with an `Outcome` in it each reader and each statement would write r.outcome.answer for r.answer.
#[derive(Clone, Copy)]
pub struct Reading {
    pub answer: Answer,
    pub sheet: Sheet,
    pub consumed: usize,
    pub written: usize,
}

// A reading without the sheet after it.
// Stays: two counts beside the answer, since callers go on in their bytes by them.
#[derive(Clone, Copy)]
pub struct Outcome {
    pub answer: Answer,
    pub consumed: usize,
    pub written: usize,
}

pub fn read_field(mut sheet: Sheet, input: &[u8], out: &mut [u8]) -> Reading
    requires { InRange sheet }
    ensures { FieldRead input.now out.old sheet result out.new × ReadWithin input.now out.old result out.new }
{
    let Outcome {
        answer,
        consumed,
        written,
    } = read_in(&mut sheet, input, out);
    Reading {
        answer,
        sheet,
        consumed,
        written,
    }
}

// Refusals 1 and 2, and then the field's own.
fn field_in(sheet: &mut Sheet, tag: u8, body: &[u8]) -> Result<Answer, Refusal>
    requires { InRange sheet.old }
    ensures { answered result sheet.new ≡ field_of sheet.old tag body.now }
{
    let tag = headers::check_header(tag, body.len())?;
    tags::run(sheet, tag, body)
}

// The same reading as `read_field`, on a sheet that is lent.
pub fn read_in(sheet: &mut Sheet, input: &[u8], out: &mut [u8]) -> Outcome
    requires { InRange sheet.old }
    ensures { FieldRead input.now out.old sheet.old (with_sheet result sheet.new) out.new × ReadWithin input.now out.old (with_sheet result sheet.new) out.new }
{
    if out.len() < ANSWER_ROOM {
        return Outcome {
            answer: Answer::from(Err(Refusal::ShortOutput)),
            consumed: 0,
            written: 0,
        };
    }
    let Some(Field { tag, body }) = headers::field_of(input) else {
        let answer = Answer::from(Err(Refusal::Cut));
        let written = answers::put_answer(out, answer);
        return Outcome {
            answer,
            consumed: input.len(),
            written,
        };
    };
    let answer = Answer::from(field_in(sheet, tag, body));
    let written = answers::put_answer(out, answer);
    Outcome {
        answer,
        consumed: 3 + body.len(),
        written,
    }
}
