#![tactic(auto)]

// Runs the library's reader over the stored fields on standard input, has each answer checked by the second checker (crate
// recheck_answers), the library's other calls compared with it, its extremes with those of the sheet with signs turned, the sums
// that its sheet holds with those of the working sheet, its answers with those to fields with other values at other stations and its
// reader of case names with the second program's, and writes a summary.
ghost use Rattle.std.specs.Prelude.{◌≤◌, length};

mod calls;
mod run;

use recheck_bytes::{LIST_ROOM, SAVED_ROOM, zeros};
use recheck_drawing::{compare_names, worked_files_agree};
use recheck_files::compare_files;
use recheck_offices::Stations;
use recheck_readings::Rests;
use recheck_tally::{Files, Lists, Tally};
use recheck_two_lists::{at_stations, worked_lists_agree};
use run::Run;

// Reads the fields one after the other. The list has the answers to them in one list.
fn run_all(input: &[u8], list: &[u8]) -> Tally {
    let mut run = Run::fresh(list);
    for rest in Rests(input) {
        run.step(rest);
    }
    run.tally_with_list(list.len())
}

// The fields in one list, before they are read one after the other.
fn run_both(input: &[u8]) -> Tally {
    let mut answers = zeros::<LIST_ROOM>();
    let mut saved = [0; SAVED_ROOM];
    let r = frames_c::frames_run(b"", input, &mut answers, &mut saved);
    let list = answers.get(..r.written).unwrap_or(b"");
    run_all(input, list)
}

// The stored fields with other values at all stations but one, for each, and at one station alone, for each; and the worked lists.
// Stays: a clause on the length, here, in recheck_two_lists and in recheck_files, since the type of a slice has none.
fn compare_lists(tally: &mut Tally, stored: &[u8])
    requires { length stored.now ≤ 262144 }
{
    let others = at_stations(stored, Stations::AllBut);
    let own = at_stations(stored, Stations::Only);
    let lists = Lists {
        unaffected: others.same,
        elsewhere: others.different,
        affected: own.different,
    };
    let worked = u64::from(!worked_lists_agree());
    tally.add_lists(
        lists,
        others.failed.wrapping_add(own.failed).wrapping_add(worked),
    );
}

// The stored input as a file: its names, and the sheets and answers without them; and the worked files.
// Stays: beside `compare_lists`, as each adds up counts of its own crates.
fn read_as_file(tally: &mut Tally, stored: &[u8])
    requires { length stored.now ≤ 262144 }
{
    let compared = compare_names(stored);
    let without = compare_files(stored);
    let files = Files {
        cases: compared.cases,
        names: compared.names,
        files: without.files,
    };
    let worked = u64::from(!worked_files_agree());
    tally.add_files(
        files,
        compared
            .failed
            .wrapping_add(without.failed)
            .wrapping_add(worked),
    );
}

fn main(rt: HostRuntime) {
    let mut room = zeros::<LIST_ROOM>();
    let n = io::read_full(0, &mut room);
    let stored = &room[..n];
    let mut tally = run_both(stored);
    compare_lists(&mut tally, stored);
    read_as_file(&mut tally, stored);
    // where the summary cannot be written, nobody can be told
    let _ = print!(rt; "{tally}");
}
