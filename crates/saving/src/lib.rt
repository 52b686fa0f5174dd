#![tactic(auto)]

// Writes a sheet as the fields that make it.
ghost use Rattle.std.specs.Prelude.{◌≡◌, [], length};
ghost use Rattle.saved_fields.specs.Saved.{saved_bytes};
ghost use Rattle.saving.specs.Saving.{saved_over, saved_answer};

use refusals::Refusal;
use saved_fields::SavedFields;
use sheet::Sheet;

// The fields that make the sheet. Their buffer is lent, since one that is handed back is copied.
fn push_fields(sheet: &Sheet, fields: &mut SavedFields)
    requires { fields.old ≡ [] }
    ensures { fields.new ≡ saved_bytes sheet.now }
{
    fields.push_settings(sheet.settings);
    fields.push_cases(&sheet.kinds, &sheet.effects);
    fields.push_capacities(&sheet.capacities);
}

// Saves a sheet over the front of the output: how many bytes were written. Too short an output is refused, and nothing is written.
pub fn save_in(sheet: &Sheet, out: &mut [u8]) -> Result<usize, Refusal>
    ensures { (result ≡ saved_answer sheet.now (length out.old)) × (out.new ≡ saved_over sheet.now out.old) }
{
    let mut fields = SavedFields::new();
    push_fields(sheet, &mut fields);
    let bytes = fields.as_slice();
    let n = bytes.len();
    if out.len() < n {
        return Err(Refusal::ShortOutput);
    }
    out[..n].copy_from_slice(bytes);
    Ok(n)
}

// The same for a sheet that is passed by value.
pub fn save(sheet: Sheet, out: &mut [u8]) -> Result<usize, Refusal>
    ensures { (result ≡ saved_answer sheet (length out.old)) × (out.new ≡ saved_over sheet out.old) }
{
    save_in(&sheet, out)
}
