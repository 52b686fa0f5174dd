// Writes the names of the load cases in a file: for each case that has one, rising, a line with the case, a space and the name. Bytes of
// a name that are control characters, and the backslash, are written as a backslash, x and two hexadecimal digits. The file is the one
// that the first argument names, or standard input.

#![tactic(auto)]

mod lines;
mod reading;
mod table;
mod text;

ghost use Rattle.case_names.specs.Report.{Reported};

use lines::Lines;
use std::env::FillError;
use std::fs;
use std::io::{Error, Read};
use std::rt::{Env, Files};
use std::time::Clock;
use transfers::tell;

// The system's errors for an argument that is too long, and for one that is no text.
const ENAMETOOLONG: i32 = 36;

const EILSEQ: i32 = 84;

// A file that could not be opened, of which standard error is told.
#[derive(Clone, Copy, PartialEq, Eq, Debug)]
struct NotOpened;

// The file of this name.
fn opened_at<R: Files + Eprint>(rt: &R, path: &[u8]) -> Result<R::File, NotOpened> {
    let Ok(name) = str::from_utf8(path) else {
        tell(rt, "case_names: argument", Error::from_raw_os_error(EILSEQ));
        return Err(NotOpened);
    };
    fs::open(rt, name).map_err(|error| {
        tell(rt, name, error);
        NotOpened
    })
}

// The file that the first argument names, None where there is no argument.
fn opened<R: Env + Files + Eprint>(rt: &R) -> Result<Option<R::File>, NotOpened> {
    let mut path = io::buffer();
    match rt.arg(1, &mut path) {
        Ok(n) => Ok(Some(opened_at(rt, &path[..n])?)),
        Err(FillError::NotPresent) => Ok(None),
        Err(FillError::TooLong) => {
            tell(
                rt,
                "case_names: argument",
                Error::from_raw_os_error(ENAMETOOLONG),
            );
            Err(NotOpened)
        }
    }
}

// The lines for the names in the file, none where a read failed. The input buffer holds the largest field, 60,003 bytes.
fn report(rt: &(impl Eprint + Clock), file: &mut impl Read) -> Lines
    ensures { Reported result }
{
    let mut input = io::large_buffer();
    match reading::collect(rt, file, &mut input) {
        Some(names) => lines::lines_for(&names),
        None => Lines::new(),
    }
}

fn write_names(rt: &(impl Print + Eprint + Clock), file: &mut impl Read) {
    let lines = report(rt, file);
    if let Err(error) = rt.write_all(lines.as_bytes()) {
        tell(rt, "case_names: write", error);
    }
}

fn main(rt: HostRuntime) {
    match opened(&rt) {
        Ok(Some(mut file)) => write_names(&rt, &mut file),
        Ok(None) => write_names(&rt, &mut rt.stdin()),
        Err(NotOpened) => {}
    }
}
