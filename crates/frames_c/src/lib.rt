#![tactic(auto)]

// Lists of fields, answered on a sheet that is given as its saved bytes, and case names in a file. No call keeps a state. `frames_c_c`
// exports the calls to programs in C and Rust.
ghost use Rattle.std.specs.Prelude.{◌≡◌, length};
ghost use Rattle.sheet.specs.Sheet.{fresh_sheet};
ghost use Rattle.lists.specs.Lists.{fields_of};
ghost use Rattle.drawing.specs.Names.{name_place};
ghost use Rattle.frames_c.specs.Calls.{ran_of, Answered, AnswerDone, RunDone};

use drawing::NamePlace;
use refusals::Refusal;
use sheet::Sheet;

// The bytes to save into that a run asks for, more than a saved sheet has.
pub const PLACE_ROOM: usize = 8192;

// The refusal's number, or 0, and how many bytes were written and saved.
// Stays: numbers, 0 for none, as C reads them.
#[repr(C)]
#[derive(Clone, Copy)]
pub struct Ran {
    pub refusal: u8,
    pub written: usize,
    pub saved: usize,
}

// Nothing is saved, and a refused call writes nothing either.
impl From<Result<usize, u8>> for Ran {
    ghost from_gives = { λ answers ran. ran ≡ ran_of answers };

    fn from(answers: Result<usize, u8>) -> Ran {
        match answers {
            Ok(written) => Ran {
                refusal: 0,
                written,
                saved: 0,
            },
            Err(refusal) => Ran {
                refusal,
                written: 0,
                saved: 0,
            },
        }
    }
}

// How many fields the bytes hold. One that is cut is the last.
pub fn frames_count(input: &[u8]) -> usize
    ensures { result ≡ length (fields_of input.now) }
{
    lists::count(input)
}

// The sheet that the state gives, after the fields of the input: how many bytes their answers have, or the refusal that is due.
// Stays: a refusal by its number, as the answer of a field has it, and the arguments of the calls from C.
fn answered(sheet: &mut Sheet, state: &[u8], input: &[u8], output: &mut [u8]) -> Result<usize, u8>
    requires { sheet.old ≡ fresh_sheet }
    ensures { Answered state.now input.now output.old result sheet.new output.new }
{
    let refusal = loading::load(sheet, state);
    if lists::is_short(input, output.len()) {
        return Err(u8::from(Refusal::ShortOutput));
    }
    if let Some(number) = refusal {
        return Err(number);
    }
    Ok(loading::read_all(sheet, input, output).written)
}

// Answers the fields of the input, one after the other, on the sheet that the state gives. Nothing is saved.
pub fn frames_answer(state: &[u8], input: &[u8], output: &mut [u8]) -> Ran
    ensures { AnswerDone state.now input.now output.old result output.new }
{
    let mut sheet = Sheet::fresh(standard::fresh_settings());
    Ran::from(answered(&mut sheet, state, input, output))
}

// The same, and the sheet after them is saved.
pub fn frames_run(state: &[u8], input: &[u8], output: &mut [u8], saved: &mut [u8]) -> Ran
    ensures { RunDone state.now input.now output.old saved.old result output.new saved.new }
{
    if saved.len() < PLACE_ROOM {
        return Ran::from(Err(u8::from(Refusal::ShortOutput)));
    }
    let mut sheet = Sheet::fresh(standard::fresh_settings());
    match answered(&mut sheet, state, input, output) {
        Ok(written) => Ran {
            refusal: 0,
            written,
            saved: saving::save_in(&sheet, saved).unwrap_or(0),
        },
        Err(number) => Ran::from(Err(number)),
    }
}

// Where the name of a load case stands in a file: no bytes where it has none.
pub fn frames_name(file: &[u8], case: u8) -> NamePlace
    ensures { result ≡ name_place file.now case }
{
    drawing::name_place(file, case)
}
