// What programs in C and Rust link: the calls of `frames_c`, each exported under its name.
#![tactic(auto)]

ghost use Rattle.std.specs.Prelude.{◌≡◌, length};
ghost use Rattle.lists.specs.Lists.{fields_of};
ghost use Rattle.drawing.specs.Names.{name_place};
ghost use Rattle.frames_c.specs.Calls.{AnswerDone, RunDone};

use drawing::NamePlace;
use frames_c::Ran;

#[unsafe(no_mangle)]
pub extern "C" fn frames_count(input: &[u8]) -> usize
    ensures { result ≡ length (fields_of input.now) }
{
    frames_c::frames_count(input)
}

#[unsafe(no_mangle)]
pub extern "C" fn frames_answer(state: &[u8], input: &[u8], output: &mut [u8]) -> Ran
    ensures { AnswerDone state.now input.now output.old result output.new }
{
    frames_c::frames_answer(state, input, output)
}

#[unsafe(no_mangle)]
pub extern "C" fn frames_run(state: &[u8], input: &[u8], output: &mut [u8], saved: &mut [u8]) -> Ran
    ensures { RunDone state.now input.now output.old saved.old result output.new saved.new }
{
    frames_c::frames_run(state, input, output, saved)
}

#[unsafe(no_mangle)]
pub extern "C" fn frames_name(file: &[u8], case: u8) -> NamePlace
    ensures { result ≡ name_place file.now case }
{
    frames_c::frames_name(file, case)
}
