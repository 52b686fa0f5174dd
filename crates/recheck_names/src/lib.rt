// Case names in the bytes of a file: the drawing office's reader (SCOPE 9.6) and the file without its names (SCOPE 9.7). No sheet is
// looked at. `here` is what a file has from a field on.

#![tactic(auto)]

ghost use Rattle.std.specs.Prelude.{◌≡◌, ◌-◌, ◌≤◌, false, length, drop, MatchOption};
ghost use Rattle.recheck_bytes.specs.Bytes.{pair_at};
ghost use Rattle.recheck_names.specs.Names.{is_whole, is_name_length, is_tag60, names_case, name_here, last_name, name_of};
ghost use Rattle.recheck_names.specs.Names.{is_left_out, without_names};
ghost use Rattle.recheck_names.specs.Results.{Split};

use recheck_bytes::{BODY_MOST, Buffer, byte_at, pair_at};

mod fields;

pub use fields::Fields;

pub const NAME_TAG: u8 = 0x60;

// A name as a part of a file: its place and its length.
// Stays: a place and a length, since they are compared with those that the calls of the library give.
#[derive(Clone, Copy, Debug, Default, PartialEq, Eq)]
pub struct Name {
    pub from: usize,
    pub len: usize,
}

// Which whole fields of tag 60 are left out of a file: those that a reading accepts, or those too that it refuses with 2 or 5.
#[derive(Clone, Copy, Debug, PartialEq, Eq)]
pub enum LeftOut {
    Names,
    All,
}

// Whether so many bytes are a case and a name of 1 to 24 bytes.
pub fn is_name_length(body: u16) -> bool
    ensures { result ≡ is_name_length body }
{
    (2..=25).contains(&body)
}

// The length of the body, as the field here gives it.
fn body(here: &[u8]) -> u16
    ensures { result ≡ pair_at here.now 1 }
{
    pair_at(here, 1)
}

// Whether a whole field begins here. Header and body are there where the last byte is.
#[tactic(auto, unfolding(crate::specs::Names::is_whole))]
fn is_whole(here: &[u8]) -> bool
    ensures { result ≡ is_whole here.now 0 }
{
    let body = body(here);
    body <= BODY_MOST && 2 + usize::from(body) < here.len()
}

// The whole field that begins here and what follows it; none where no whole field begins.
pub fn split_field(here: &[u8]) -> Option<(&[u8], &[u8])>
    ensures { MatchOption result (is_whole here.now 0 ≡ false) (λ parts. Split here.now parts.0.now parts.1.now) }
{
    if is_whole(here) {
        Some(here.split_at(3 + usize::from(body(here))))
    } else {
        None
    }
}

// Whether a whole tag 60 begins here.
#[tactic(auto, unfolding(crate::specs::Names::is_tag60))]
fn is_tag_60(here: &[u8]) -> bool
    ensures { result ≡ is_tag60 here.now 0 }
{
    is_whole(here) && byte_at(here, 0) == NAME_TAG
}

// Whether the field here names the case.
#[tactic(auto, unfolding(crate::specs::Names::names_case))]
fn names_case(here: &[u8], case: u8) -> bool
    ensures { result ≡ names_case here.now 0 case }
{
    is_tag_60(here) && is_name_length(body(here)) && byte_at(here, 3) == case
}

// The name in the field here, where it names the case.
// Stays: the file beside what it has from the field on, since a name is given by its place in the file.
fn name_here(file: &[u8], here: &[u8], case: u8) -> Option<Name>
    requires place { here.now ≡ drop (length file.now - length here.now) file.now }
    requires in_file { length here.now ≤ length file.now }
    ensures { result ≡ name_here file.now (length file.now - length here.now) case }
{
    if names_case(here, case) {
        Some(Name {
            from: file.len() - here.len() + 4,
            len: usize::from(body(here)) - 1,
        })
    } else {
        None
    }
}

// The name in the last field that has one for the case. No field is whole after one that is not.
fn last_name(file: &[u8], case: u8) -> Option<Name>
    ensures { result ≡ last_name file.now case (length file.now) }
{
    let mut found = None;
    for here in Fields(file) {
        found = name_here(file, here, case).or(found);
    }
    found
}

// The name that the file has for the case.
pub fn name_of(file: &[u8], case: u8) -> Option<Name>
    ensures { result ≡ name_of file.now case }
{
    if case < 32 {
        last_name(file, case)
    } else {
        None
    }
}

// Whether the field here is left out.
#[tactic(auto, unfolding(crate::specs::Names::is_left_out))]
pub fn is_left_out(here: &[u8], left_out: LeftOut) -> bool
    ensures { result ≡ is_left_out here.now left_out 0 }
{
    let right = is_name_length(body(here)) && byte_at(here, 3) < 32;
    is_tag_60(here) && (left_out == LeftOut::All || right)
}

// The file without its names.
// Stays: while let, since what follows the last whole field is put too.
pub fn without_names<const N: usize>(file: &[u8], left_out: LeftOut) -> Buffer<N>
    requires { length file.now ≤ N }
    ensures bytes { result ≡ without_names file.now left_out }
    ensures most { length result ≤ length file.now }
{
    let mut out = Buffer::empty();
    let mut here = file;
    while let Some((field, rest)) = split_field(here) {
        if !is_left_out(here, left_out) {
            out.push(field);
        }
        here = rest;
    }
    out.push(here);
    out
}
