// Bytes that are written part by part, in a fixed room.
ghost use Rattle.std.specs.Prelude.{◌≡◌, ◌+◌, ◌≤◌, List, [], ◌++◌, ℕ, length, take};

use std::marker::Model;

/// At most N bytes.
// Stays: an array with a length, since the kit's `arrayvec` would be trusted, and the engine stands on std alone (docs/DECISIONS.md).
#[derive(Drop)]
pub struct Buffer<const N: usize> {
    bytes: [u8; N],
    len: usize,
}

// Clauses see the bytes written.
impl<const N: usize> Model for Buffer<N> {
    ghost Value = { List ℕ };

    ghost view = { λ b. take b.len b.bytes };

    ghost invariant = { λ b. b.len ≤ N };
}

impl<const N: usize> Buffer<N> {
    pub fn new() -> Self
        ensures { result ≡ [] }
    {
        Buffer {
            bytes: [0; N],
            len: 0,
        }
    }

    pub fn as_slice(&self) -> &[u8]
        ensures bytes { result.now ≡ self.now }
        ensures most { length result.now ≤ N }
    {
        &self.bytes[..self.len]
    }

    pub fn clear(&mut self)
        ensures { self.new ≡ [] }
    {
        self.len = 0;
    }

    pub fn push(&mut self, more: &[u8])
        requires { length self.old + length more.now ≤ N }
        ensures { self.new ≡ self.old ++ more.now }
    {
        let at = self.len;
        let end = at + more.len();
        let bytes = &mut self.bytes[..];
        bytes[at..end].copy_from_slice(more);
        self.len = end;
    }
}
