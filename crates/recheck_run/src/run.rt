use crate::calls::{lists_agree, pair_holds};
use recheck_answers::{check_answer, sheet_after};
use recheck_bytes::{UNWRITTEN, same_front};
use recheck_methods::{Due, held_sums, method_agrees};
use recheck_pairs::has_extremes;
use recheck_readings::{Reader, field_size};
use recheck_saving::SavedForm;
use recheck_sheet::WorkingSheet;
use recheck_sums::{has_sums, sums_agree};
use recheck_tally::{Reading, Tally};

// The reader's sheet, the second checker's working sheet, what is left of the answers in one list, and the counts.
#[derive(Clone, Copy)]
pub struct Run<'a> {
    reader: Reader,
    working: WorkingSheet,
    left: &'a [u8],
    tally: Tally,
}

impl<'a> Run<'a> {
    // The list has the answers to the fields.
    pub fn fresh(list: &'a [u8]) -> Self {
        Run {
            reader: Reader::fresh(),
            working: WorkingSheet::fresh(),
            left: list,
            tally: Tally::default(),
        }
    }

    // The field that begins here. Every fifth is first read with the short output.
    pub fn step(&mut self, rest: &[u8]) {
        if self.tally.readings % 5 == 0 {
            self.read_short(rest);
        }
        self.read(rest);
    }

    // The counts with what was met of a list of so many bytes.
    pub fn tally_with_list(mut self, len: usize) -> Tally {
        let met = len.saturating_sub(self.left.len());
        self.tally.compare_list(met, len);
        self.tally
    }

    // The reading with the short output. The sums of the sheet that comes back are those of the sheet as it was.
    fn read_short(&mut self, rest: &[u8]) {
        let clean = self.reader.read_short(rest);
        let held = sums_agree(&self.working, &held_sums(&self.reader.sheet));
        self.tally.count_short(clean && held);
    }

    // One reading with room for every answer, checked by the second checker and the other calls.
    fn read(&mut self, rest: &[u8]) {
        let mut out = [UNWRITTEN; 64];
        let before = self.reader;
        let r = self.reader.read(rest, &mut out);
        let field = &rest[..field_size(rest)];
        let answer = &out[..r.written];
        let after = sheet_after(&self.working, field);
        let due = Due::of(&after);
        let seen = check_answer(&self.working, field, answer);
        let ok = r.clean
            && seen.ok
            && self.calls_agree(before, field, answer, &due)
            && self.list_agrees(answer);
        self.tally.count_reading(Reading {
            ok,
            outcome: seen.outcome,
            paired: has_extremes(field, answer),
            summed: has_sums(&due.sums),
        });
        self.working = after;
        self.left = self.left.get(answer.len()..).unwrap_or(b"");
    }

    // What the other calls say of the answer to a field, which was read on the sheet before.
    #[tactic(auto, using(recheck_readings::proofs::InRange::held))]
    fn calls_agree(&self, before: Reader, field: &[u8], answer: &[u8], due: &Due) -> bool {
        due.is_met(self.reader.sheet)
            && method_agrees(before.sheet, field, answer, due)
            && lists_agree(&SavedForm::of(&self.working), &due.form, field, answer)
            && pair_holds(&self.working, field, answer)
    }

    // Whether what is left of the list begins with the answer. The list ends with its first refusal 3.
    fn list_agrees(&self, answer: &[u8]) -> bool {
        self.left.is_empty() || same_front(self.left, answer)
    }
}
