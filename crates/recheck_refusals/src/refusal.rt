ghost use Rattle.std.specs.Prelude.{◌≡◌};
ghost use Rattle.recheck_refusals.specs.Refusals.{number_of};
ghost use Rattle.recheck_refusals.specs.declared.refusal.Refusal.TheVariants.{UnknownTag};

use recheck_sheet::UnknownTag;

// The refusals of a field on a sheet, by SCOPE 7.1. An output that is too short (14) has nothing to do with the field.
#[derive(Clone, Copy, Debug, PartialEq, Eq)]
pub enum Refusal {
    UnknownTag = 1,
    Length = 2,
    Cut = 3,
    Setting = 4,
    Case = 5,
    Station = 6,
    Kind = 7,
    Component = 8,
    Effect = 9,
    Capacity = 10,
    PlaceTaken = 11,
    PlaceEmpty = 12,
    NoCapacities = 13,
    Straining = 15,
}

impl From<UnknownTag> for Refusal {
    ghost from_gives = { λ _ refusal. refusal ≡ UnknownTag };

    fn from(_tag: UnknownTag) -> Self {
        Refusal::UnknownTag
    }
}

impl From<Refusal> for u8 {
    ghost from_gives = { λ refusal number. number ≡ number_of refusal };

    fn from(refusal: Refusal) -> Self {
        refusal as u8
    }
}
