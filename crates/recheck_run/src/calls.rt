use recheck_bytes::{SAVED_ROOM, UNWRITTEN};
use recheck_methods::holds;
use recheck_pairs::{has_extremes, pair_agrees, turned};
use recheck_saving::SavedForm;
use recheck_sheet::WorkingSheet;

// A list of one field on a saved sheet: the answer is the reader's.
fn answer_agrees(state: &[u8], field: &[u8], answer: &[u8]) -> bool {
    let mut out = [UNWRITTEN; 64];
    let r = frames_c::frames_answer(state, field, &mut out);
    r.refusal == 0 && r.written == answer.len() && r.saved == 0 && holds(&out, answer)
}

// The same, and what is saved is the sheet after the field.
fn run_agrees(state: &[u8], field: &[u8], answer: &[u8], after: &[u8]) -> bool {
    let mut out = [UNWRITTEN; 64];
    let mut saved = [UNWRITTEN; SAVED_ROOM];
    let r = frames_c::frames_run(state, field, &mut out, &mut saved);
    let ran = r.refusal == 0 && r.written == answer.len() && r.saved == after.len();
    ran && holds(&out, answer) && holds(&saved, after)
}

// Both lists of one field on the sheet saved before it.
pub fn lists_agree(before: &SavedForm, after: &SavedForm, field: &[u8], answer: &[u8]) -> bool {
    let state = before.bytes();
    answer_agrees(state, field, answer) && run_agrees(state, field, answer, after.bytes())
}

// The law of the pair: asked of the sheet with the sign of every effect turned, the library gives each extreme as minus the other
// one of this answer. An answer without extremes has no pair.
pub fn pair_holds(w: &WorkingSheet, field: &[u8], answer: &[u8]) -> bool {
    if !has_extremes(field, answer) {
        return true;
    }
    let opposite = SavedForm::of(&turned(w));
    let mut out = [UNWRITTEN; 64];
    let r = frames_c::frames_answer(opposite.bytes(), field, &mut out);
    let answered = r.refusal == 0 && r.written == 37 && has_extremes(field, &out);
    answered && pair_agrees(answer, &out)
}
