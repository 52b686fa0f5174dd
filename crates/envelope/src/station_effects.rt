ghost use Rattle.std.specs.Prelude.{◌≡◌, ◌<◌};
ghost use Rattle.standard.specs.Combination.{case_count};
ghost use Rattle.envelope.specs.Range.{EffectsInRange, effect_of};
ghost use Rattle.envelope.specs.Components.{number_of_component};

use crate::{COMPONENTS, Component};

// The effects of a station's load cases, three of each.
// Stays: a flat slice, since it is the station's part of the sheet's flat effects.
#[derive(Clone, Copy)]
pub struct StationEffects<'a> {
    pub all: &'a [i16],
    pub ghost in_range: { EffectsInRange all.now },
}

impl<'a> StationEffects<'a> {
    // The effect of a case on a component.
    // Stays: a clause on the case, here, in `CaseEffects` and in `Reading`, since `Members` yields the cases of a set as numbers.
    #[tactic(auto, using(crate::proofs::Components::component_below))]
    pub fn on(self, case: usize, component: Component) -> i64
        requires { case < case_count }
        ensures { result ≡ effect_of self.entry.all.now case (number_of_component component) }
    {
        i64::from(self.all[case * COMPONENTS + usize::from(component)])
    }
}
