#![tactic(auto)]

// The library's reader on a sheet by value, with what each reading takes and writes compared with what the header says.
ghost use Rattle.std.specs.Prelude.{◌≡◌, ◌<◌, ◌≤◌, length, take, min};

mod reader;
mod rests;

pub use reader::{Reader, Reading};
use recheck_bytes::{BODY_MOST, pair_at};
pub use rests::Rests;

// A field of length 60,001 that is wholly there has so many bytes, and no reading is given more.
const LONGEST: usize = 60004;

// The bytes that a reading is given.
pub fn front(input: &[u8]) -> &[u8]
    ensures { result.now ≡ take (min (length input.now) 60004) input.now }
{
    &input[..input.len().min(LONGEST)]
}

// The bytes that a reading of this front must consume, by the header alone: all of them where the field is cut short. A field has at
// least one.
pub fn field_size(input: &[u8]) -> usize
    ensures in_bounds { result ≤ length input.now }
    ensures upper_bound { result ≤ 60004 }
    ensures progress { 0 < length input.now → 0 < result }
{
    let n = input.len().min(LONGEST);
    let body = usize::from(pair_at(input, 1));
    let most = usize::from(BODY_MOST);
    if body <= most { n.min(3 + body) } else { n }
}
