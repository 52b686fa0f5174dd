#![tactic(auto)]

// Answers as bytes.
ghost use Rattle.std.specs.Prelude.{◌≡◌, ◌<◌, ◌≤◌, length};
ghost use Rattle.wire.specs.Bytes.{over};
ghost use Rattle.answers.specs.Answers.{answer_room, last_of, named_bytes, extreme_bytes, utilised_bytes, answer_bytes};
ghost use Rattle.answers.specs.Rows.{RowsFit};

use envelope::{Extreme, Extremes, Utilised};
use refusals::Refusal;
use sheet::Answer;

// The room that a field asks for: the longest answer has 37 bytes.
pub const ANSWER_ROOM: usize = 37;

// The refusal of an output that is too short: it writes nothing.
const SHORT_OUTPUT: u8 = Refusal::ShortOutput as u8;

// The refusal of a field that is cut: the last answer.
const CUT: u8 = Refusal::Cut as u8;

// The row, the acting and the low set of a combination.
// Stays: arrays filled by ranges, here and below, since each part of an answer has its place and length in docs/FIELDS.md.
#[tactic(auto, using(wire::proofs::Numbers::bytes4_of))]
fn named_bytes(row: usize, acting: u32, low: u32) -> [u8; 9]
    requires { row < 256 }
    ensures { result ≡ named_bytes row acting low }
{
    let mut bytes = [row as u8; 9];
    bytes[1..5].copy_from_slice(&acting.to_be_bytes());
    bytes[5..].copy_from_slice(&low.to_be_bytes());
    bytes
}

fn extreme_bytes(x: Extreme) -> [u8; 17]
    requires { x.row < 256 }
    ensures { result ≡ extreme_bytes x }
{
    let mut bytes = [0; 17];
    bytes[..8].copy_from_slice(&x.value.to_be_bytes());
    bytes[8..].copy_from_slice(&named_bytes(x.row, x.acting, x.low));
    bytes
}

fn utilised_bytes(x: Utilised) -> [u8; 26]
    requires { x.row < 256 }
    ensures { result ≡ utilised_bytes x }
{
    let mut bytes = [u8::from(x.pass); 26];
    bytes[..8].copy_from_slice(&x.numerator.to_be_bytes());
    bytes[8..16].copy_from_slice(&x.denominator.to_be_bytes());
    bytes[17..].copy_from_slice(&named_bytes(x.row, x.acting, x.low));
    bytes
}

// The two extremes, with the tag and the length of their answer.
#[tactic(auto, unfolding(crate::specs::Rows::RowsFit))]
fn extremes_answer(x: Extremes) -> [u8; 37]
    requires { RowsFit (Answer.Extremes x) }
    ensures { result ≡ answer_bytes (Answer.Extremes x) }
{
    let mut bytes = [0; 37];
    bytes[..3].copy_from_slice(b"\x86\x00\x22");
    bytes[3..20].copy_from_slice(&extreme_bytes(x.maximum));
    bytes[20..].copy_from_slice(&extreme_bytes(x.minimum));
    bytes
}

#[tactic(auto, unfolding(crate::specs::Rows::RowsFit))]
fn utilisation_answer(x: Utilised) -> [u8; 29]
    requires { RowsFit (Answer.Utilisation x) }
    ensures { result ≡ answer_bytes (Answer.Utilisation x) }
{
    let mut bytes = [0; 29];
    bytes[..3].copy_from_slice(b"\x87\x00\x1a");
    bytes[3..].copy_from_slice(&utilised_bytes(x));
    bytes
}

// Writes bytes over the front of the output, and says how many.
#[tactic(auto, unfolding(wire::specs::Bytes::over))]
fn put_front(out: &mut [u8], bytes: &[u8]) -> usize
    requires { length bytes.now ≤ length out.old }
    ensures { (result ≡ length bytes.now) × (out.new ≡ over bytes.now out.old) }
{
    let n = bytes.len();
    out[..n].copy_from_slice(bytes);
    n
}

// Writes an answer over the front of the output.
// Stays: a clause on the rows: with the row of an answer as a `u8` each field of a list takes 52 to 57 instructions more.
pub fn put_answer(out: &mut [u8], answer: Answer) -> usize
    requires { (answer_room ≤ length out.old) × RowsFit answer }
    ensures { (result ≡ length (answer_bytes answer)) × (out.new ≡ over (answer_bytes answer) out.old) }
{
    match answer {
        Answer::Accepted => put_front(out, b"\x80\x00\x00"),
        Answer::Extremes(x) => put_front(out, &extremes_answer(x)),
        Answer::Utilisation(x) => put_front(out, &utilisation_answer(x)),
        Answer::Refused(SHORT_OUTPUT) => 0,
        Answer::Refused(n) => put_front(out, &[0x81, 0, 1, n]),
    }
}

// Whether the service stops after this answer.
pub fn is_last(answer: Answer) -> bool
    ensures { result ≡ last_of answer }
{
    matches!(answer, Answer::Refused(CUT))
}
