// A text of bounded length, and the text of a name and of a line.
ghost use Rattle.std.specs.Prelude.{◌≡◌, ◌+◌, ◌*◌, ◌<◌, ◌≤◌, List, [], ◌++◌, ℕ, length};
ghost use Rattle.case_names.specs.Text.{hex_digit, escaped, byte_text, name_text, case_text, line_text};

use std::marker::Model;
use wire::Buffer;

// Stays: by hand, since `char::from_digit` gives an Option of a char, with letters in lower case.
fn hex_digit(d: u8) -> u8
    requires { d < 16 }
    ensures { result ≡ hex_digit d }
{
    if d < 10 { b'0' + d } else { b'A' + (d - 10) }
}

fn is_escaped(b: u8) -> bool
    ensures { result ≡ escaped b }
{
    b.is_ascii_control() || b == b'\\'
}

/// At most N bytes.
// Stays: a struct over `Buffer` beside `SavedFields`, since the methods that write texts are its own.
#[derive(Drop)]
pub struct Text<const N: usize> {
    bytes: Buffer<N>,
}

// Clauses see the bytes.
impl<const N: usize> Model for Text<N> {
    ghost Value = { List ℕ };

    ghost view = { λ t. t.bytes };
}

impl<const N: usize> Text<N> {
    pub fn new() -> Text<N>
        ensures { result ≡ [] }
    {
        Text {
            bytes: Buffer::new(),
        }
    }

    pub fn as_bytes(&self) -> &[u8]
        ensures bytes { result.now ≡ self.now }
        ensures most { length result.now ≤ N }
    {
        self.bytes.as_slice()
    }

    pub fn clear(&mut self)
        ensures { self.new ≡ [] }
    {
        self.bytes.clear();
    }

    // Stays: a clause on the room, here and below, since each part has a bound of its own.
    pub fn push(&mut self, more: &[u8])
        requires { length self.old + length more.now ≤ N }
        ensures { self.new ≡ self.old ++ more.now }
    {
        self.bytes.push(more);
    }

    #[tactic(auto, unfolding(crate::specs::Text::byte_text))]
    fn push_byte(&mut self, b: u8)
        requires { length self.old + 4 ≤ N }
        ensures { self.new ≡ self.old ++ byte_text b }
    {
        if is_escaped(b) {
            self.push(&[b'\\', b'x', hex_digit(b / 16), hex_digit(b % 16)]);
        } else {
            self.push(&[b]);
        }
    }

    fn push_name(&mut self, name: &[u8])
        requires { length self.old + 4 * length name.now ≤ N }
        ensures bytes { self.new ≡ self.old ++ name_text name.now }
        ensures most { length self.new ≤ length self.old + 4 * length name.now }
    {
        for b in name {
            self.push_byte(*b);
        }
    }

    // Stays: digits by hand, since the kit's `itoa` would be trusted, and the engine stands on std alone (docs/DECISIONS.md).
    #[tactic(auto, unfolding(crate::specs::Text::case_text))]
    fn push_case(&mut self, case: u8)
        requires case { case < 100 }
        requires room { length self.old + 2 ≤ N }
        ensures bytes { self.new ≡ self.old ++ case_text case }
        ensures most { length self.new ≤ length self.old + 2 }
    {
        if case < 10 {
            self.push(&[hex_digit(case)]);
        } else {
            self.push(&[hex_digit(case / 10), hex_digit(case % 10)]);
        }
    }

    // The case, a space, its name and a newline.
    #[tactic(auto, unfolding(crate::specs::Text::line_text))]
    pub fn push_line(&mut self, case: u8, name: &[u8])
        requires case { case < 100 }
        requires room { length self.old + (4 + 4 * length name.now) ≤ N }
        ensures { self.new ≡ self.old ++ line_text case name.now }
    {
        self.push_case(case);
        self.push(b" ");
        self.push_name(name);
        self.push(b"\n");
    }
}
