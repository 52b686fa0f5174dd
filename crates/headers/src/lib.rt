// The header of a field: what it says of tag and length, and how much a reading consumes.

#![tactic(auto)]

ghost use Rattle.std.specs.Prelude.{◌≡◌, ◌+◌, ◌≤◌, cond, length, drop, true, ltb, IfOk, IfSome, MatchOption};
ghost use Rattle.wire.specs.Bytes.{byte_at, word_at};
ghost use Rattle.refusals.specs.Numbers.{number_of};
ghost use Rattle.headers.specs.Headers.{name_length, due_header, consumed_by, ready_of};
ghost use Rattle.headers.specs.Fields.{FrontOf};
ghost use Rattle.headers.specs.Tags.{number_of_tag, TagOf};

use refusals::{Refusal, refuse_where};

const LONGEST_BODY: usize = 60000;

// The tag of a case name.
pub const NAME_TAG: u8 = 0x60;

// A whole field.
#[derive(Clone, Copy, PartialEq, Eq, Debug)]
pub struct Field<'a> {
    pub tag: u8,
    pub body: &'a [u8],
}

// The tag and the length that a field begins with, and the bytes after them.
// Stays: the length beside the bytes after the header, which may be fewer, and let-else, a rule of the project.
fn split(input: &[u8]) -> Option<(u8, usize, &[u8])>
    ensures { MatchOption result (ltb (length input.now) 3 ≡ true) (λ h. (h.0 ≡ byte_at input.now 0) × (h.1 ≡ word_at input.now 1) × (h.2.now ≡ drop 3 input.now) × (3 ≤ length input.now)) }
{
    let [tag, high, low, rest @ ..] = input else {
        return None;
    };
    Some((*tag, usize::from(u16::from_be_bytes([*high, *low])), rest))
}

// The field at the front of the input, none where it goes past the end.
#[tactic(auto, unfolding(crate::specs::Headers::header_of))]
pub fn field_of(input: &[u8]) -> Option<Field<'_>>
    ensures field { FrontOf input.now result }
    ensures fits { IfSome result (λ f. 3 + length f.body.now ≤ length input.now) }
{
    let (tag, len, rest) = split(input)?;
    if LONGEST_BODY < len || rest.len() < len {
        return None;
    }
    Some(Field {
        tag,
        body: &rest[..len],
    })
}

// Whether a case byte and a name may have this length together.
pub fn is_name_length(len: usize) -> bool
    ensures { result ≡ name_length len }
{
    (2..=25).contains(&len)
}

// What a field asks for.
#[derive(Clone, Copy, PartialEq, Eq, Debug)]
pub enum Tag {
    Restart,
    Fill,
    Effects,
    Empty,
    Capacities,
    Extremes,
    Utilisation,
    Ice,
    Straining,
    Name,
}

// The tag of a field's first byte.
impl TryFrom<u8> for Tag {
    type Error = Refusal;

    ghost try_from_gives = { λ byte tag. TagOf byte tag };

    #[tactic(auto, unfolding(crate::specs::Headers::due_header))]
    fn try_from(byte: u8) -> Result<Tag, Refusal> {
        match byte {
            1 => Ok(Tag::Restart),
            2 => Ok(Tag::Fill),
            3 => Ok(Tag::Effects),
            4 => Ok(Tag::Empty),
            5 => Ok(Tag::Capacities),
            6 => Ok(Tag::Extremes),
            7 => Ok(Tag::Utilisation),
            8 => Ok(Tag::Ice),
            9 => Ok(Tag::Straining),
            NAME_TAG => Ok(Tag::Name),
            _ => Err(Refusal::UnknownTag),
        }
    }
}

impl Tag {
    // Whether the body may have this length.
    #[tactic(auto, unfolding(crate::specs::Headers::due_header, crate::specs::Headers::length_of))]
    fn takes(self, len: usize) -> bool
        ensures { due_header (number_of_tag self) len ≡ cond result 0 2 }
    {
        match self {
            Tag::Restart => len == 3,
            Tag::Fill | Tag::Extremes | Tag::Straining => len == 2,
            Tag::Effects => len == 8,
            Tag::Empty | Tag::Utilisation | Tag::Ice => len == 1,
            Tag::Capacities => len == 7,
            Tag::Name => is_name_length(len),
        }
    }
}

// Refuses a tag that there is not, and then a length that is not the tag's.
pub fn check_header(tag: u8, len: usize) -> Result<Tag, Refusal>
    ensures refusal { number_of result ≡ due_header tag len }
    ensures tag { IfOk result (λ known. number_of_tag known ≡ tag) }
{
    let known = Tag::try_from(tag)?;
    refuse_where(!known.takes(len), Refusal::WrongLength)?;
    Ok(known)
}

// How many bytes a reading consumes: the field, or all that is left where it is cut.
pub fn consumed_by(input: &[u8]) -> usize
    ensures { result ≡ consumed_by input.now }
{
    field_of(input).map_or(input.len(), |field| 3 + field.body.len())
}

// Whether what is at hand can be read now: a whole field, or a header that calls for 3 whatever follows.
#[tactic(auto, unfolding(crate::specs::Headers::ready_of))]
pub fn is_ready(input: &[u8]) -> bool
    ensures { result ≡ ready_of input.now }
{
    let Some((_, len, rest)) = split(input) else {
        return false;
    };
    LONGEST_BODY < len || len <= rest.len()
}
