#![tactic(auto)]

// One file for both readers (SCOPE 9.7), by the calls of `frames_c`: the file without its names makes the same sheet, the fields that remain
// have the same answers, and no name is left. The places that `frames_name` gives are the second program's.

ghost use Rattle.std.specs.Prelude.{◌≤◌, length};

mod ran;

use ran::Ran;
use recheck_bytes::LIST_ROOM;
use recheck_names::{Fields, LeftOut, is_left_out, name_of, split_field, without_names};
use recheck_tally::counted;

// Counts for the summary: files with a name to leave out in which all is as it must be, and files in which something is not.
#[derive(Clone, Copy, Default)]
pub struct Files {
    pub files: u64,
    pub failed: u64,
}

// Whether the answers to a file, without those to the fields left out, are the others. A field that is cut is answered too.
// Stays: while let, since what is left of the answers is asked for at the end.
fn answers_agree(file: &[u8], left_out: LeftOut, answers: &[u8], others: &[u8]) -> bool {
    let mut fields = Fields(file);
    let mut rest = answers;
    let mut due = others;
    while let Some((answer, more)) = split_field(rest) {
        if !fields
            .next()
            .is_some_and(|field| is_left_out(field, left_out))
        {
            let Some(left) = due.strip_prefix(answer) else {
                return false;
            };
            due = left;
        }
        rest = more;
    }
    rest.is_empty() && due.is_empty()
}

// Whether what remains of the file has the same answers to what remains and saves the same bytes, each run from a fresh sheet.
fn runs_agree(file: &[u8], left_out: LeftOut, rest: &[u8]) -> bool {
    let (Some(whole), Some(left)) = (Ran::of(file), Ran::of(rest)) else {
        return false;
    };
    answers_agree(file, left_out, whole.answers(), left.answers()) && whole.saves_as(&left)
}

// The cases of which names are asked: every case that there is, and some above.
const ASKED: u8 = 35;

// Whether `frames_c` gives each case's name.
// Stays: compared number by number, since the library's place and the second program's name are types of their own.
fn names_agree(file: &[u8]) -> bool {
    (0..ASKED).all(|case| {
        let own = name_of(file, case).unwrap_or_default();
        let place = frames_c::frames_name(file, case);
        place.from == own.from && place.len == own.len
    })
}

// Whether `frames_c` gives no case a name.
fn has_no_names(file: &[u8]) -> bool {
    (0..ASKED).all(|case| frames_c::frames_name(file, case).len == 0)
}

impl Files {
    // A file with its names and without.
    fn count(&mut self, file: &[u8], left_out: LeftOut)
        requires { length file.now ≤ 262144 }
    {
        let without = without_names::<LIST_ROOM>(file, left_out);
        let rest = without.as_slice();
        let named = names_agree(file) && names_agree(rest) && has_no_names(rest);
        let agree = named && runs_agree(file, left_out, rest);
        self.files = counted(self.files, agree && rest.len() < file.len());
        self.failed = counted(self.failed, !agree);
    }
}

// The stored input, and the files that begin at each of its fields whose number is a multiple of 256. The refused fields of tag 60 stay,
// and then they go too.
// Stays: by number, since what follows the last whole field is compared too, which `Fields` does not yield, and `Rests` goes on past a field
// that is too long.
pub fn compare_files(stored: &[u8]) -> Files
    requires { length stored.now ≤ 262144 }
{
    let mut files = Files::default();
    let mut rest = stored;
    for number in 0..stored.len() {
        if number % 256 == 0 {
            files.count(rest, LeftOut::Names);
            files.count(rest, LeftOut::All);
        }
        let Some((_, more)) = split_field(rest) else {
            return files;
        };
        rest = more;
    }
    files
}
