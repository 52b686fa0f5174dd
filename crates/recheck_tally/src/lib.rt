#![tactic(auto)]

// The counts of a run of readings, and their summary.
ghost use Rattle.std.specs.Prelude.{◌≡◌, true, not, nat_lt, ◌==◌};
ghost use Rattle.recheck_tally.specs.Counts.{counted, with_failures};

use std::fmt;
use std::num::NonZeroU64;

// What a reading was, by the second program's own account.
#[derive(Clone, Copy, Debug, PartialEq, Eq)]
pub enum Outcome {
    Refusal,
    Edit,
    // a look (tags 06 and 07) whose combinations were enumerated
    Look,
    // a look at a sheet with too many load cases for that
    LargeLook,
}

// A reading: whether all was right, what it was, whether a pair of extremes was compared with those of the sheet with signs turned, and
// whether it left a sheet with a sum other than 0.
// Stays: the three tests hold or fail whatever the others and the outcome are, and each is only counted: an enum would have 32 variants.
#[derive(Clone, Copy)]
pub struct Reading {
    pub ok: bool,
    pub outcome: Outcome,
    pub paired: bool,
    pub summed: bool,
}

// Looks with other values at some stations (SCOPE 9.5): the same where those stations are the others, different at those others, and
// different where it is their own.
#[derive(Clone, Copy, Default)]
pub struct Lists {
    pub unaffected: u64,
    pub elsewhere: u64,
    pub affected: u64,
}

// How often the name of a case in a file was compared, how often there was one, and files compared with themselves without their names
// (SCOPE 9.6 and 9.7).
#[derive(Clone, Copy, Default)]
pub struct Files {
    pub cases: u64,
    pub names: u64,
    pub files: u64,
}

// Counts for the summary. The first difference is a reading by its number. The counts wrap: no run comes near 2^64 readings, and the
// proof needs no bound.
#[derive(Clone, Copy, Default)]
pub struct Tally {
    pub readings: u64,
    pub looks: u64,
    pub large: u64,
    pub pairs: u64,
    pub sums: u64,
    pub refused: u64,
    pub short: u64,
    pub lists: Lists,
    pub files: Files,
    pub differences: u64,
    pub first: Option<NonZeroU64>,
}

// One more where there is one.
// Stays: the test is what is counted, and chooses no step.
pub fn counted(n: u64, more: bool) -> u64
    ensures { result ≡ counted n more }
{
    n.wrapping_add(u64::from(more))
}

impl Tally {
    // A difference at the reading of this number, unless all is right.
    // Stays: the test is what is counted; a Result would carry nothing.
    fn compare(&mut self, ok: bool, number: u64)
        ensures differences { self.new.differences ≡ counted self.old.differences (not ok) }
        ensures readings { self.new.readings ≡ self.old.readings }
    {
        self.differences = counted(self.differences, !ok);
        if !ok {
            self.first = self.first.or(NonZeroU64::new(number));
        }
    }

    // A reading with the short output, made before the reading that is counted next.
    // Stays: as `compare`.
    pub fn count_short(&mut self, ok: bool)
        ensures { self.new.differences ≡ counted self.old.differences (not ok) }
    {
        self.short = counted(self.short, ok);
        self.compare(ok, self.readings.wrapping_add(1));
    }

    pub fn count_reading(&mut self, reading: Reading)
        ensures differences { self.new.differences ≡ counted self.old.differences (not reading.ok) }
        ensures readings { self.new.readings ≡ counted self.old.readings true }
    {
        self.readings = counted(self.readings, true);
        match reading.outcome {
            Outcome::Refusal => self.refused = counted(self.refused, true),
            Outcome::Edit => (),
            Outcome::Look => self.looks = counted(self.looks, true),
            Outcome::LargeLook => self.large = counted(self.large, true),
        }
        self.pairs = counted(self.pairs, reading.paired);
        self.sums = counted(self.sums, reading.summed);
        self.compare(reading.ok, self.readings);
    }

    // Whether every answer of the list was met, of which there are so many bytes; a list that is refused has none.
    pub fn compare_list(&mut self, met: usize, len: usize)
        ensures { self.new.differences ≡ counted (counted self.old.differences (len == 0)) (nat_lt met len) }
    {
        self.compare(len != 0, 1);
        self.compare(len <= met, self.readings);
    }

    // So many failures of a comparison of the whole input, told of at the last reading.
    fn add_failures(&mut self, failed: u64)
        ensures { self.new.differences ≡ with_failures self.old.differences failed }
    {
        let before = self.differences;
        self.compare(failed == 0, self.readings);
        self.differences = before.wrapping_add(failed);
    }

    pub fn add_lists(&mut self, lists: Lists, failed: u64)
        ensures counts { self.new.lists ≡ lists }
        ensures differences { self.new.differences ≡ with_failures self.old.differences failed }
    {
        self.add_failures(failed);
        self.lists = lists;
    }

    pub fn add_files(&mut self, files: Files, failed: u64)
        ensures counts { self.new.files ≡ files }
        ensures differences { self.new.differences ≡ with_failures self.old.differences failed }
    {
        self.add_failures(failed);
        self.files = files;
    }
}

// Three counts, each with what it is of.
fn write_counts<W: fmt::Write>(f: &mut fmt::Formatter<W>, counts: [(u64, &str); 3]) -> fmt::Result {
    let [(a, first), (b, second), (c, third)] = counts;
    write!(f, "{a} {first}, {b} {second}, {c} {third}")
}

impl fmt::Display for Lists {
    fn fmt<W: fmt::Write>(&self, f: &mut fmt::Formatter<W>) -> fmt::Result {
        let same = "looks the same with other values at the other stations";
        let elsewhere = "looks there different";
        let own = "looks different with other values at their own station";
        write_counts(
            f,
            [
                (self.unaffected, same),
                (self.elsewhere, elsewhere),
                (self.affected, own),
            ],
        )
    }
}

impl fmt::Display for Files {
    fn fmt<W: fmt::Write>(&self, f: &mut fmt::Formatter<W>) -> fmt::Result {
        let cases = "cases looked up in files";
        let names = "names found";
        let files = "files the same without their names";
        write_counts(
            f,
            [
                (self.cases, cases),
                (self.names, names),
                (self.files, files),
            ],
        )
    }
}

impl fmt::Display for Tally {
    fn fmt<W: fmt::Write>(&self, f: &mut fmt::Formatter<W>) -> fmt::Result {
        if let Some(first) = self.first {
            writeln!(f, "first difference at reading {first}")?;
        }
        write!(f, "{} readings, ", self.readings)?;
        write!(f, "{} looks enumerated, ", self.looks)?;
        write!(f, "{} looks too large, ", self.large)?;
        write!(f, "{} pairs of extremes with signs turned, ", self.pairs)?;
        write!(f, "{} sheets with a sum other than 0, ", self.sums)?;
        write!(f, "{} refusals, ", self.refused)?;
        write!(f, "{} short outputs refused, ", self.short)?;
        write!(f, "{}, {}, ", self.lists, self.files)?;
        writeln!(f, "{} differences", self.differences)
    }
}
