// One turn of the service: it reads, answers the fields at hand, and writes.

#![tactic(auto)]

ghost use Rattle.std.specs.Prelude.{◌≡◌, ◌≤◌, ◌&&◌, not, eqb, length, take};
ghost use Rattle.sheet.specs.Range.{InRange};
ghost use Rattle.pieces.specs.Turns.{Turned};
ghost use Rattle.transfers.specs.Filled.{is_ended, is_failed};
ghost use Rattle.answers.specs.Answers.{answer_room};

use pauses::Pause;
use sheet::Sheet;
use std::io::{Read, Write};
use std::time::Clock;
use transfers::Source;

// What the service keeps from turn to turn beside the sheet: how many bytes of input it holds, the pause where a read cannot go on, how many
// bytes of output it handed on and how many of them were written, and whether it goes on.
// Stays: a bool, since the counts hold whether or not a turn follows.
#[derive(Drop)]
pub struct Service {
    pub held: usize,
    pub pause: Pause,
    pub given: usize,
    pub taken: usize,
    pub more: bool,
}

// Whether a turn follows: more input may come, all answers are written, and none was the last.
// Stays: `stop` as a bool, since it is a fact of the answers and selects no step.
fn goes_on(source: Source, given: usize, taken: usize, stop: bool) -> bool
    ensures { result ≡ (((not (is_ended source) && not (is_failed source)) && eqb taken given) && not stop) }
{
    source == Source::Open && taken == given && !stop
}

// One read at most, the answers to the fields that are then at hand, and one write of them.
// Stays: clauses on the lengths, here, in `serve` and in `answer_all`, since buffers are lent as slices, whose type has none.
pub fn turn(
    rt: &(impl Eprint + Clock),
    stdin: &mut impl Read,
    stdout: &mut impl Write,
    s: Service,
    sheet: &mut Sheet,
    input: &mut [u8],
    output: &mut [u8],
) -> Service
    requires { InRange sheet.old × (s.held ≤ length input.old) × (answer_room ≤ length output.old) }
    ensures turned { Turned (length output.old) sheet.old (take s.held input.old) (take result.given output.new) result.taken sheet.new (take result.held input.new) result.more }
    ensures in_range { InRange sheet.new × (result.held ≤ length input.old) × (length input.new ≡ length input.old) × (length output.new ≡ length output.old) }
{
    let m = transfers::read_some(rt, stdin, input, s.held, s.pause);
    let p = stream::answer_all(sheet, m.source.is_ended(), &input[..m.count], output);
    let sent = transfers::write_all(rt, stdout, &output[..p.written]);
    transfers::shift(input, p.consumed, m.count);
    Service {
        held: m.count - p.consumed,
        pause: m.pause,
        given: sent.given,
        taken: sent.taken,
        more: goes_on(m.source, sent.given, sent.taken, p.stop),
    }
}
