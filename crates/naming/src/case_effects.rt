ghost use Rattle.std.specs.Prelude.{◌≡◌, ℕ, ◌<◌, ◌≤◌, ℤ, nat_abs};
ghost use Rattle.standard.specs.Combination.{case_count};
ghost use Rattle.envelope.specs.Range.{effect_of, effect_most, WeightsInRange};
ghost use Rattle.envelope.specs.Components.{number_of_component};
ghost use Rattle.envelope.specs.Signs.{signed};
ghost use Rattle.envelope.specs.Envelope.{weighed};

use envelope::{Component, Sign, StationEffects, Weights};

// The effects of the load cases on what is maximised.
pub trait CaseEffects: Copy {
    ghost effect: { Self → ℕ → ℤ };

    fn effect_of(self, case: usize) -> i64
        requires { case < case_count }
        ensures value { result ≡ effect self case }
        ensures small { nat_abs result ≤ effect_most };
}

// A station's effects on a component, with a sign.
#[derive(Clone, Copy)]
pub struct OnComponent<'a> {
    pub effects: StationEffects<'a>,
    pub component: Component,
    pub sign: Sign,
}

impl<'a> CaseEffects for OnComponent<'a> {
    ghost effect = { λ s k. signed s.sign (effect_of s.effects.all.now k (number_of_component s.component)) };

    fn effect_of(self, case: usize) -> i64 {
        self.sign.of(self.effects.on(case, self.component))
    }
}

// A station's effects on the three components, weighed.
#[derive(Clone, Copy)]
pub struct Weighed<'a> {
    pub effects: StationEffects<'a>,
    pub weights: Weights,
    pub ghost in_range: { WeightsInRange weights },
}

impl<'a> CaseEffects for Weighed<'a> {
    ghost effect = { λ s. weighed s.weights (effect_of s.effects.all.now) };

    fn effect_of(self, case: usize) -> i64 {
        let n = self.effects.on(case, Component::N);
        let y = self.effects.on(case, Component::Y);
        let z = self.effects.on(case, Component::Z);
        self.weights.n * n + self.weights.y * y + self.weights.z * z
    }
}
