use crate::Counts;
use recheck_bytes::{UNWRITTEN, byte_at};
use recheck_offices::{Stations, answers_agree, looks_at, same_bytes};
use recheck_readings::{Reader, field_size};
use recheck_sheet::{ACCEPTED, EXTREMES, Tag, UTILISATION, whole_tag};

// The answers to a field and to the field at its place in the other list, and whether both readings took and wrote what they must.
// Stays: a bool beside the answers, since those of a reading that is not clean are compared and counted as any other.
#[derive(Clone, Copy)]
struct Answers<'a> {
    first: &'a [u8],
    second: &'a [u8],
    clean: bool,
}

// The readers of the two lists, how many fields they have read, whether an accepted field differed since the last tag 01, and the
// counts.
// Stays: a bool, since it holds from an accepted field that differs to the next accepted tag 01, and looks are counted by it.
#[derive(Clone, Copy)]
pub struct Lists {
    first: Reader,
    second: Reader,
    readings: u64,
    differ: bool,
    pub counts: Counts,
}

impl Lists {
    pub fn fresh() -> Self {
        Lists {
            first: Reader::fresh(),
            second: Reader::fresh(),
            readings: 0,
            differ: false,
            counts: Counts::default(),
        }
    }

    // The field that both lists begin with. Every fifth is first read with the short output.
    pub fn step(&mut self, rest: &[u8], others: &[u8], chosen: Stations) {
        if self.readings % 5 == 0 {
            self.read_short(rest, others);
        }
        let field = &rest[..field_size(rest)];
        let counterpart = &others[..field_size(others)];
        self.read(field, counterpart, chosen);
    }

    // With an output that is too short for every answer: both are refused with 14.
    fn read_short(&mut self, rest: &[u8], others: &[u8]) {
        let first = self.first.read_short(rest);
        let second = self.second.read_short(others);
        self.counts += Counts {
            failed: u64::from(!(first && second)),
            ..Counts::default()
        };
    }

    // With room for every answer.
    fn read(&mut self, field: &[u8], counterpart: &[u8], chosen: Stations) {
        let mut out = [UNWRITTEN; 64];
        let mut others = [UNWRITTEN; 64];
        let r = self.first.read(field, &mut out);
        let s = self.second.read(counterpart, &mut others);
        let answers = Answers {
            first: &out[..r.written],
            second: &others[..s.written],
            clean: r.clean && s.clean,
        };
        self.count(field, answers, chosen);
        self.note_difference(field, counterpart, answers);
        self.readings = self.readings.wrapping_add(1);
    }

    // A reading that is not clean is not as it must be.
    fn count(&mut self, field: &[u8], answers: Answers, chosen: Stations) {
        let Answers {
            first,
            second,
            clean,
        } = answers;
        let same = same_bytes(first, second);
        let agree = answers_agree(field, chosen, first, second);
        let unaffected = self.differ && same && is_looked(field, first, chosen);
        let different = !same && looks_at(field, chosen);
        self.counts += Counts {
            same: u64::from(unaffected),
            different: u64::from(different),
            failed: u64::from(!(clean && agree)),
        };
    }

    // Whether the lists differ after a field and the one at its place in the other list.
    fn note_difference(&mut self, field: &[u8], counterpart: &[u8], answers: Answers) {
        let accepted = byte_at(answers.first, 0) == ACCEPTED;
        if accepted && whole_tag(field) == Some(Tag::Restart) {
            self.differ = false;
        } else if accepted && !same_bytes(field, counterpart) {
            self.differ = true;
        }
    }
}

// Whether the field is a look at a station that is not chosen, and the answer has its numbers.
fn is_looked(field: &[u8], answer: &[u8], chosen: Stations) -> bool {
    let tag = byte_at(answer, 0);
    looks_at(field, chosen.others()) && (tag == EXTREMES || tag == UTILISATION)
}
