ghost use Rattle.std.specs.Prelude.{◌≡◌};
ghost use Rattle.recheck_sheet.specs.Tags.{tag_of, takes, whole_tag};

use recheck_bytes::{byte_at, pair_at};
use recheck_names::{NAME_TAG, is_name_length};

// The first bytes of answers (SCOPE 6.1).
pub const ACCEPTED: u8 = 0x80;

pub const REFUSED: u8 = 0x81;

pub const EXTREMES: u8 = 0x86;

pub const UTILISATION: u8 = 0x87;

// What a field asks for, by its first byte (SCOPE 5.2).
#[derive(Clone, Copy, Debug, PartialEq, Eq)]
pub enum Tag {
    Restart,
    Fill,
    Effects,
    Empty,
    Capacities,
    Extremes,
    Utilisation,
    Ice,
    Straining,
    Name,
}

// A byte that is no tag.
#[derive(Clone, Copy, Debug, PartialEq, Eq)]
pub struct UnknownTag(pub u8);

impl TryFrom<u8> for Tag {
    type Error = UnknownTag;

    ghost try_from_gives = { λ code tag. tag ≡ tag_of code };

    fn try_from(code: u8) -> Result<Self, UnknownTag> {
        match code {
            1 => Ok(Tag::Restart),
            2 => Ok(Tag::Fill),
            3 => Ok(Tag::Effects),
            4 => Ok(Tag::Empty),
            5 => Ok(Tag::Capacities),
            6 => Ok(Tag::Extremes),
            7 => Ok(Tag::Utilisation),
            8 => Ok(Tag::Ice),
            9 => Ok(Tag::Straining),
            NAME_TAG => Ok(Tag::Name),
            _ => Err(UnknownTag(code)),
        }
    }
}

impl Tag {
    // Whether the body of such a field may have so many bytes.
    pub fn takes(self, length: u16) -> bool
        ensures { result ≡ takes self length }
    {
        match self {
            Tag::Restart => length == 3,
            Tag::Fill | Tag::Extremes | Tag::Straining => length == 2,
            Tag::Effects => length == 8,
            Tag::Empty | Tag::Utilisation | Tag::Ice => length == 1,
            Tag::Capacities => length == 7,
            Tag::Name => is_name_length(length),
        }
    }
}

// The tag of a field that ends where its header says, with a body that the tag takes.
pub fn whole_tag(field: &[u8]) -> Option<Tag>
    ensures { result ≡ whole_tag field.now }
{
    let tag = Tag::try_from(byte_at(field, 0)).ok()?;
    let length = pair_at(field, 1);
    let whole = tag.takes(length) && field.len() == 3 + usize::from(length);
    whole.then_some(tag)
}
