// Reads the file, and keeps the names in the whole fields of what was read.
ghost use Rattle.std.specs.Prelude.{◌≤◌, length, IfSome};
ghost use Rattle.case_names.specs.Table.{Fits};
ghost use Rattle.case_names.specs.Reading.{Turned, Collected};

use crate::table;
use crate::table::Names;
use pauses::Pause;
use std::io;
use std::time::Clock;
use transfers::{Read, Source};

// One read after the bytes held, `last.count` of them. The names in the whole fields at hand are kept, and the bytes after those are moved
// to the front. Where there is no room for more bytes, as after a length above 60,000, it is as at the end of the file.
fn turn(
    rt: &(impl Eprint + Clock),
    file: &mut impl io::Read,
    last: Read,
    input: &mut [u8],
    names: &mut Names,
) -> Read
    requires held { last.count ≤ length input.old }
    requires names { Fits names.old }
    ensures { Turned last.count input.old names.old result.count input.new names.new }
{
    let read = transfers::read_more(rt, "case_names: read", file, input, last.count, last.pause);
    let end = drawing::whole_end(&input[..read.count]);
    table::keep_names(&input[..end], names);
    transfers::shift(input, end, read.count);
    Read {
        count: read.count - end,
        source: read.source,
        pause: read.pause,
    }
}

// The names in the file, read to its end, and none where a read failed.
// Stays: turns counted to a number that no run reaches, since no fact says that the file ends and `forever` needs the word Wait, which
// HANDLES does not give.
pub fn collect(
    rt: &(impl Eprint + Clock),
    file: &mut impl io::Read,
    input: &mut [u8],
) -> Option<Names>
    ensures { IfSome result Collected }
{
    let mut names = table::no_names();
    let mut read = Read {
        count: 0,
        source: Source::Open,
        pause: Pause::first(),
    };
    for _ in 0..u64::MAX {
        read = turn(rt, file, read, input, &mut names);
        match read.source {
            Source::Open => {}
            Source::Ended => break,
            Source::Failed => return None,
        }
    }
    Some(names)
}
