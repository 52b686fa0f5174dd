ghost use Rattle.envelope.specs.Components.{number_of_component};

use envelope::{Component, StationEffects};
use sums::Reading;

// The effects on one component, read as they are.
#[derive(Clone, Copy)]
pub struct OneComponent {
    pub component: Component,
}

impl Reading<1> for OneComponent {
    ghost along = { λ x effect d k. effect k (number_of_component x.component) };

    fn of_case(self, effects: StationEffects<'_>, case: usize) -> [i64; 1] {
        [effects.on(case, self.component)]
    }
}
