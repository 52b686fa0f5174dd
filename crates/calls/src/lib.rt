#![tactic(auto)]

// The calls that a program makes, each with the contract that the demands speak of: a weaker contract of what it calls is refused here.
ghost use Rattle.fields.specs.Readings.{with_sheet};
ghost use Rattle.sheet.specs.Range.{InRange};
ghost use Rattle.demands.specs.Readings.{made, ReadOn, SaveOn};

use fields::{Outcome, Reading};
use refusals::Refusal;
use sheet::Sheet;

pub fn read_field(sheet: Sheet, input: &[u8], out: &mut [u8]) -> Reading
    requires { InRange sheet }
    ensures { ReadOn sheet (made input.now out.old result out.new) }
{
    fields::read_field(sheet, input, out)
}

pub fn read_in(sheet: &mut Sheet, input: &[u8], out: &mut [u8]) -> Outcome
    requires { InRange sheet.old }
    ensures { ReadOn sheet.old (made input.now out.old (with_sheet result sheet.new) out.new) }
{
    fields::read_in(sheet, input, out)
}

pub fn save(sheet: Sheet, out: &mut [u8]) -> Result<usize, Refusal>
    ensures { SaveOn sheet out.old result out.new }
{
    saving::save(sheet, out)
}

pub fn save_in(sheet: &Sheet, out: &mut [u8]) -> Result<usize, Refusal>
    ensures { SaveOn sheet.now out.old result out.new }
{
    saving::save_in(sheet, out)
}
