// Bytes and two-byte numbers in a slice, and a buffer for bytes.

#![tactic(auto)]

ghost use Rattle.std.specs.Prelude.{◌≡◌, ◌<◌};
ghost use Rattle.wire.specs.Bytes.{byte_at, word_at};

mod buffer;

pub use buffer::Buffer;

// The byte at a position, 0 past the end.
// Stays: a position beside the slice, here and in `word`, since past the end 0 is read, and a bound on it for the sum `at + 1`.
pub fn byte(s: &[u8], at: usize) -> u8
    ensures { result ≡ byte_at s.now at }
{
    s.get(at).copied().unwrap_or(0)
}

// The two-byte number at a position, high byte first.
pub fn word(s: &[u8], at: usize) -> u16
    requires { at < 60000 }
    ensures { result ≡ word_at s.now at }
{
    u16::from_be_bytes([byte(s, at), byte(s, at + 1)])
}
