// Bytes put one part after the other, in fixed room.
ghost use Rattle.std.specs.Prelude.{◌≡◌, ◌+◌, ◌≤◌, List, [], ◌++◌, ℕ, length, take};

use std::marker::Model;

// At most N bytes.
// Stays: an array with a length, and none of the library's buffers, since the second program shares nothing with it.
#[derive(Drop)]
pub struct Buffer<const N: usize> {
    room: [u8; N],
    count: usize,
}

// Clauses see the bytes put.
impl<const N: usize> Model for Buffer<N> {
    ghost Value = { List ℕ };

    ghost view = { λ b. take b.count b.room };

    ghost invariant = { λ b. b.count ≤ N };
}

impl<const N: usize> Buffer<N> {
    pub fn empty() -> Self
        ensures { result ≡ [] }
    {
        Buffer {
            room: [0; N],
            count: 0,
        }
    }

    pub fn as_slice(&self) -> &[u8]
        ensures bytes { result.now ≡ self.now }
        ensures most { length result.now ≤ N }
    {
        &self.room[..self.count]
    }

    // A part, after what stands there.
    pub fn push(&mut self, part: &[u8])
        requires { length self.old + length part.now ≤ N }
        ensures { self.new ≡ self.old ++ part.now }
    {
        let start = self.count;
        let end = start + part.len();
        let room = &mut self.room[..];
        room[start..end].copy_from_slice(part);
        self.count = end;
    }
}
