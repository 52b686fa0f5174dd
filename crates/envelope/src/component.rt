ghost use Rattle.std.specs.Prelude.{◌≡◌};
ghost use Rattle.envelope.specs.Components.{ComponentOf, number_of_component};

// An effect's components, in the order of docs/FIELDS.md.
#[derive(Clone, Copy, PartialEq, Eq, Debug)]
pub enum Component {
    N = 0,
    Y = 1,
    Z = 2,
}

// A byte that stands for no component.
#[derive(Clone, Copy, PartialEq, Eq, Debug)]
pub struct NoComponent;

/// The component of a byte.
impl TryFrom<u8> for Component {
    type Error = NoComponent;

    ghost try_from_gives = { λ byte component. ComponentOf byte component };

    fn try_from(byte: u8) -> Result<Component, NoComponent> {
        match byte {
            0 => Ok(Component::N),
            1 => Ok(Component::Y),
            2 => Ok(Component::Z),
            _ => Err(NoComponent),
        }
    }
}

/// The number of a component.
impl From<Component> for usize {
    ghost from_gives = { λ component n. n ≡ number_of_component component };

    fn from(component: Component) -> usize {
        component as usize
    }
}
