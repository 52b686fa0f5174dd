ghost use Rattle.std.specs.Prelude.{◌≡◌, ◌+◌, ◌<◌, ◌≤◌, ◌^◌, ◌*ℤ◌, nat_abs};
ghost use Rattle.envelope.specs.Range.{total_most, WeightsInRange};
ghost use Rattle.directions.specs.Four.{directions_of, directed};

use envelope::{Component, StationEffects, Weights};
use sums::Reading;

// How three numbers are read in four directions: each is weighed, and they are added up with the signs + + +, - + +, + - + and - - +.
#[derive(Clone, Copy)]
pub struct FourDirections {
    pub weights: Weights,
    pub ghost in_range: { WeightsInRange weights },
}

// The four sums of three numbers.
fn four_signs(a: i64, b: i64, c: i64) -> [i64; 4]
    requires { nat_abs a + nat_abs b + nat_abs c < 2 ^ 63 }
    ensures { result ≡ directions_of a b c }
{
    let over = b + c;
    let under = -b + c;
    [a + over, -a + over, a + under, -a + under]
}

impl FourDirections {
    // Of three numbers before they are weighed.
    pub fn of(self, n: i64, y: i64, z: i64) -> [i64; 4]
        requires { (nat_abs n ≤ total_most) × (nat_abs y ≤ total_most) × (nat_abs z ≤ total_most) }
        ensures { result ≡ directions_of (self.weights.n *ℤ n) (self.weights.y *ℤ y) (self.weights.z *ℤ z) }
    {
        let w = self.weights;
        let a = w.n * n;
        let b = w.y * y;
        let c = w.z * z;
        four_signs(a, b, c)
    }
}

impl Reading<4> for FourDirections {
    ghost along = { λ x effect d k. directed x.weights effect d k };

    fn of_case(self, effects: StationEffects<'_>, case: usize) -> [i64; 4] {
        let n = effects.on(case, Component::N);
        let y = effects.on(case, Component::Y);
        let z = effects.on(case, Component::Z);
        self.of(n, y, z)
    }
}
