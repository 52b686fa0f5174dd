// Bytes of fields and answers, read with no error: past the end stands 0, and the callers look at lengths first.
// Stays: a position beside the slice, since a slice cannot begin past the end, where 0 is read too.

#![tactic(auto)]

mod buffer;

ghost use Rattle.std.specs.Prelude.{◌≡◌, ℕ, ◌<◌, ◌≤◌, length, slice_index};
ghost use Rattle.recheck_bytes.specs.Bytes.{byte_at, pair_at, number_at, same_up_to, filled_up_to};

pub use buffer::Buffer;
use std::array::from_fn;

// Outputs hold this byte before each call, so that a byte written past the end is seen.
pub const UNWRITTEN: u8 = 0xEE;

// The stored input, each list and file made of it and the answers to one have no more bytes.
pub const LIST_ROOM: usize = 262144;

// The calls of `frames_c` are given more bytes to save into than any sheet has.
pub const SAVED_ROOM: usize = 8192;

// The body of a field has no more bytes (SCOPE 7.1).
pub const BODY_MOST: u16 = 60000;

// So many zeros. A caller knows their number from the contract, so that no proof counts them.
pub fn zeros<const N: usize>() -> [u8; N]
    ensures len { N ≡ length result }
    ensures zero { (k : ℕ) → slice_index result k ≡ 0 }
{
    [0; N]
}

pub fn byte_at(s: &[u8], at: usize) -> u8
    ensures { result ≡ byte_at s.now at }
{
    s.get(at).copied().unwrap_or(0)
}

// The byte as an index.
pub fn index_at(s: &[u8], at: usize) -> usize
    ensures { result ≡ byte_at s.now at }
{
    usize::from(byte_at(s, at))
}

// Two bytes, the high one first.
// Stays: a bound on the position, here and below, since the positions after it must be numbers of their type.
pub fn pair_at(s: &[u8], at: usize) -> u16
    requires { at ≤ 1000000 }
    ensures { result ≡ pair_at s.now at }
{
    u16::from_be_bytes([byte_at(s, at), byte_at(s, at + 1)])
}

// A number of four bytes, the high one first.
#[tactic(auto, unfolding(crate::specs::Bytes::number_at))]
pub fn word_at(s: &[u8], at: usize) -> u32
    requires { at < 60000 }
    ensures { result ≡ number_at s.now at 4 }
{
    u32::from_be_bytes(from_fn(|i| byte_at(s, at + i)))
}

// A number of eight bytes.
// Stays: beside `word_at`, as `from_be_bytes` has a type for each width.
#[tactic(auto, unfolding(crate::specs::Bytes::number_at))]
pub fn number_at(s: &[u8], at: usize) -> u64
    requires { at < 60000 }
    ensures { result ≡ number_at s.now at 8 }
{
    u64::from_be_bytes(from_fn(|i| byte_at(s, at + i)))
}

// Whether the bytes begin with these.
// Stays: byte by byte, as zeros past the end count as bytes, and not so in `starts_with`.
pub fn same_front(s: &[u8], front: &[u8]) -> bool
    ensures { result ≡ same_up_to front.now s.now 0 (length front.now) }
{
    front
        .iter()
        .enumerate()
        .all(|(i, byte)| *byte == byte_at(s, i))
}

// Whether the bytes from a position to the end are all `byte`, which an output holds before a call.
pub fn filled_from(s: &[u8], from: usize, byte: u8) -> bool
    ensures { result ≡ filled_up_to byte s.now from (length s.now) }
{
    s.iter().skip(from).all(|b| *b == byte)
}
