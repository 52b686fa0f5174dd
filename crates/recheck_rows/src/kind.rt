// The kinds of load case (SCOPE 2.3).
#[derive(Clone, Copy, Debug, PartialEq, Eq)]
pub enum Kind {
    Dead,
    Fluid,
    PermanentEarth,
    OtherEarth,
    Live,
    RoofLive,
    Snow,
    Rain,
    Wind,
    Earthquake,
    Flood,
    IceWeight,
    IceWind,
    SelfStraining,
}

// A byte that stands for no kind.
#[derive(Clone, Copy, Debug, PartialEq, Eq)]
pub struct NoKind;

impl TryFrom<u8> for Kind {
    type Error = NoKind;

    fn try_from(byte: u8) -> Result<Kind, NoKind> {
        Ok(match byte {
            1 => Kind::Dead,
            2 => Kind::Fluid,
            3 => Kind::PermanentEarth,
            4 => Kind::OtherEarth,
            5 => Kind::Live,
            6 => Kind::RoofLive,
            7 => Kind::Snow,
            8 => Kind::Rain,
            9 => Kind::Wind,
            10 => Kind::Earthquake,
            11 => Kind::Flood,
            12 => Kind::IceWeight,
            13 => Kind::IceWind,
            14 => Kind::SelfStraining,
            _ => return Err(NoKind),
        })
    }
}
