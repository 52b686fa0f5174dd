// What is asked of a combination: the figure that it gives.

ghost use Rattle.std.specs.Prelude.{◌≡◌, ◌*◌, ◌%◌};
ghost use Rattle.recheck_combinations.specs.Components.{component_of, Decodes};

#[derive(Clone, Copy, Debug, PartialEq, Eq)]
pub enum Component {
    N,
    My,
    Mz,
}

// A byte that stands for no component.
#[derive(Clone, Copy, Debug, PartialEq, Eq)]
pub struct NoComponent;

// An effect for each component.
// Stays: beside `Capacities` and `Triple` of recheck_sheet, since effects have a sign and capacities are multiplied in 64 bits.
#[derive(Clone, Copy, Debug, Default, PartialEq, Eq)]
pub struct Effects {
    pub n: i16,
    pub my: i16,
    pub mz: i16,
}

#[derive(Clone, Copy, Debug, PartialEq, Eq)]
pub struct Capacities {
    pub axial: u64,
    pub bending_y: u64,
    pub bending_z: u64,
}

// A component's factored effect, or the numerator of the utilisation.
#[derive(Clone, Copy, Debug, PartialEq, Eq)]
pub enum Figure {
    Effect(Component),
    Numerator(Capacities),
}

impl TryFrom<u8> for Component {
    type Error = NoComponent;

    ghost try_from_gives = { Decodes };

    fn try_from(byte: u8) -> Result<Component, NoComponent> {
        match byte {
            0 => Ok(Component::N),
            1 => Ok(Component::My),
            2 => Ok(Component::Mz),
            _ => Err(NoComponent),
        }
    }
}

impl Effects {
    pub fn component(self, component: Component) -> i16
        ensures { result ≡ component_of self component }
    {
        match component {
            Component::N => self.n,
            Component::My => self.my,
            Component::Mz => self.mz,
        }
    }
}

// The product of two numbers below 2^32, as all here are.
// Stays: remainders, by which it is stated as a product that fits; `wrapping_mul` would state it modulo 2^64.
pub fn times(a: u64, b: u64) -> u64
    ensures { result ≡ a % 4294967296 * (b % 4294967296) }
{
    (a % (1 << 32)) * (b % (1 << 32))
}
