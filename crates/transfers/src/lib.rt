// Reads bytes of input, writes bytes of output, and moves bytes within the input.

#![tactic(auto)]

ghost use Rattle.std.specs.Prelude.{◌≡◌, ◌≤◌, length};
ghost use Rattle.std.proofs.Math.Seq.{slice};
ghost use Rattle.wire.specs.Bytes.{over};
ghost use Rattle.transfers.specs.Filled.{ReadAfter, Filled, is_ended, is_failed};

use pauses::Pause;
use std::fmt::InlineText;
use std::io;
use std::io::ErrorKind;
use std::time::Clock;

// The line on standard error for a call that failed: what failed, and the system's text. Where the line cannot be written, nobody can be told.
pub fn tell(rt: &impl Eprint, call: &str, error: io::Error) {
    let said = InlineText::<300>::of(error);
    let text = said.as_str();
    // std writes the error's number after the text
    let _ = match text.split_once(" (os error ") {
        Some((words, _)) => rt.eprintln(format_args!("{call}: {words}")),
        None => rt.eprintln(format_args!("{call}: {text}")),
    };
}

// After a call that moved nothing: the pause where the next one cannot go on either, none where the call has failed, which standard error is
// told. A call that cannot go on for now is made again after a pause, an interrupted one at once.
fn retried(
    rt: &(impl Eprint + Clock),
    call: &str,
    moved: io::Result<usize>,
    pause: Pause,
) -> Option<Pause> {
    if let Err(error) = moved {
        match error.kind() {
            ErrorKind::WouldBlock => {}
            ErrorKind::Interrupted => return Some(pause),
            _ => {
                tell(rt, call, error);
                return None;
            }
        }
    }
    pause.wait(rt);
    Some(pause.longer())
}

// How many bytes were handed on, and how many of them are written: fewer where a write failed.
// Stays: the count handed on beside the one written, since a turn promises of its output what this call was given.
#[derive(Clone, Copy, PartialEq, Eq, Debug)]
pub struct Sent {
    pub given: usize,
    pub taken: usize,
}

// Writes the bytes.
// Stays: writes counted to a number that no run reaches, since no fact says that they end and `forever` needs the word Wait, which HANDLES
// does not give.
pub fn write_all(rt: &(impl Eprint + Clock), stdout: &mut impl io::Write, bytes: &[u8]) -> Sent
    ensures { (result.given ≡ length bytes.now) × (result.taken ≤ length bytes.now) }
{
    let mut taken = 0;
    let mut pause = Pause::first();
    for _ in 0..u64::MAX {
        if taken == bytes.len() {
            break;
        }
        match stdout.write(&bytes[taken..]) {
            Ok(n) if n != 0 => {
                taken += n;
                pause = Pause::first();
            }
            moved => {
                let Some(next) = retried(rt, "frames: write", moved, pause) else {
                    break;
                };
                pause = next;
            }
        }
    }
    Sent {
        given: bytes.len(),
        taken,
    }
}

/// What may follow the bytes that are at hand.
#[derive(Clone, Copy, PartialEq, Eq, Debug)]
pub enum Source {
    Open,
    Ended,
    Failed,
}

impl Source {
    pub fn is_ended(self) -> bool
        ensures { result ≡ is_ended self }
    {
        matches!(self, Source::Ended)
    }

    pub fn is_failed(self) -> bool
        ensures { result ≡ is_failed self }
    {
        matches!(self, Source::Failed)
    }
}

// How many bytes of input are at hand, what may follow them, and the pause where the next read cannot go on.
// Stays: the pause beside the source, since a turn hands it on whatever follows.
#[derive(Clone, Copy, PartialEq, Eq, Debug)]
pub struct Read {
    pub count: usize,
    pub source: Source,
    pub pause: Pause,
}

// Reads more bytes after those held. `call` names the read on standard error, where it fails.
// Stays: positions beside the buffer, here and below, since each turn is lent the buffer and promises what it holds afterwards.
pub fn read_more(
    rt: &(impl Eprint + Clock),
    call: &str,
    stdin: &mut impl io::Read,
    input: &mut [u8],
    held: usize,
    pause: Pause,
) -> Read
    requires { held ≤ length input.old }
    ensures after { ReadAfter held result.count input.old input.new }
    ensures ended { result.source ≡ Source.Ended → result.count ≡ held }
{
    let got = stdin.read(&mut input[held..]);
    let Ok(n) = got else {
        let (source, pause) = match retried(rt, call, got, pause) {
            Some(next) => (Source::Open, next),
            None => (Source::Failed, pause),
        };
        return Read {
            count: held,
            source,
            pause,
        };
    };
    Read {
        count: held + n,
        source: if n == 0 { Source::Ended } else { Source::Open },
        pause: Pause::first(),
    }
}

// Reads more bytes after those held, unless a field can be read already.
pub fn read_some(
    rt: &(impl Eprint + Clock),
    stdin: &mut impl io::Read,
    input: &mut [u8],
    held: usize,
    pause: Pause,
) -> Read
    requires { held ≤ length input.old }
    ensures { Filled held result.count (is_ended result.source) (is_failed result.source) input.old input.new }
{
    if headers::is_ready(&input[..held]) {
        return Read {
            count: held,
            source: Source::Open,
            pause,
        };
    }
    read_more(rt, "frames: read", stdin, input, held, pause)
}

// Moves the bytes between two places down to the start.
pub fn shift(buffer: &mut [u8], from: usize, to: usize)
    requires { (from ≤ to) × (to ≤ length buffer.old) }
    ensures { buffer.new ≡ over (slice from to buffer.old) buffer.old }
{
    if from == 0 {
        return;
    }
    buffer.copy_within(from..to, 0);
}
