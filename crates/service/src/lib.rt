// The service: turns, for as long as they go on.

#![tactic(auto)]

ghost use Rattle.std.specs.Prelude.{◌≡◌, ◌≤◌, length, take};
ghost use Rattle.sheet.specs.Sheet.{fresh_sheet};
ghost use Rattle.pieces.specs.Turns.{Served};
ghost use Rattle.answers.specs.Answers.{answer_room};

use pauses::Pause;
use sheet::Sheet;
use std::io::{Read, Write};
use std::time::Clock;
use turns::Service;

// Serves from a fresh sheet on.
// Stays: turns counted to a number that no run reaches, since no fact says that the input ends and `forever` needs the word Wait, which
// HANDLES does not give.
pub fn serve(
    rt: &(impl Eprint + Clock),
    stdin: &mut impl Read,
    stdout: &mut impl Write,
    sheet: &mut Sheet,
    input: &mut [u8],
    output: &mut [u8],
) -> Service
    requires { answer_room ≤ length output.old }
    ensures { Served (length output.old) fresh_sheet sheet.new (take result.held input.new) result.more }
{
    *sheet = Sheet::fresh(standard::fresh_settings());
    let mut s = Service {
        held: 0,
        pause: Pause::first(),
        given: 0,
        taken: 0,
        more: true,
    };
    for _ in 0..u64::MAX {
        s = turns::turn(rt, stdin, stdout, s, sheet, input, output);
        if !s.more {
            return s;
        }
    }
    s
}
