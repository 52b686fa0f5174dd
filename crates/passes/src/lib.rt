#![tactic(auto)]

ghost use Rattle.std.specs.Prelude.{◌≡◌, ℕ, ◌*◌, ◌%◌, eqb, pos};
ghost use Rattle.envelope.specs.Range.{effect_of, total_at, CapacitiesInRange};
ghost use Rattle.envelope.specs.Components.{number_of_component};
ghost use Rattle.envelope.specs.Envelope.{signed_by, pattern_of};
ghost use Rattle.envelope.specs.Signs.{signed};
ghost use Rattle.envelope.specs.Places.{Placed};
ghost use Rattle.sums.specs.Sums.{held_at};
ghost use Rattle.sums.specs.Directions.{held_in};
ghost use Rattle.passes.specs.Passes.{ComponentPass, PatternPass, ComponentReady, PatternsReady};

use envelope::{Component, Sign, Station, Weights};
use standard::Capacities;
use sums::Sums;

mod one_component;

pub use one_component::OneComponent;

// The totals of D and F, and one pass over the other cases of a station: the sums serve the maximum and the minimum of a component, and are
// in range on any two sides.
pub fn component_pass(station: Station<'_, '_>, component: Component) -> Sums
    requires { Placed station.places.now.sets }
    ensures serves { ComponentPass (held_at result.by_kind) (λ j. total_at station.entry.totals.now j (number_of_component component)) station.entry.places.now.sets (λ k. effect_of station.entry.effects.all.now k (number_of_component component)) }
    ensures ready { ComponentReady (held_at result.by_kind) (λ j. total_at station.entry.totals.now j (number_of_component component)) station.entry.places.now.sets (λ k. effect_of station.entry.effects.all.now k (number_of_component component)) }
{
    let mut sums = [Sums::new()];
    let at = usize::from(component);
    let dead = station.totals.dead[at];
    let fluid = station.totals.fluid[at];
    sums::sum_up(
        &mut sums,
        [[dead], [fluid]],
        station.places,
        station.effects,
        OneComponent { component },
    );
    sums[0]
}

// The sign of the lowest bit of a pattern: 1 is minus.
fn sign_of(pattern: usize) -> Sign
    ensures { (x : ℕ) → signed result (pos x) ≡ signed_by (eqb (pattern % 2) 1) x }
{
    if pattern % 2 == 1 {
        Sign::Minus
    } else {
        Sign::Plus
    }
}

// The product of two capacities, with a sign.
fn signed_product(sign: Sign, a: u16, b: u16) -> i64
    ensures { result ≡ signed sign (pos (a * b)) }
{
    sign.of(i64::from(a) * i64::from(b))
}

// The weights of the numerator for a pattern of signs.
// Stays: a pattern by its number, here and in `sign_of`, as `Peak` has it.
pub fn pattern_weights(p: Capacities, pattern: usize) -> Weights
    ensures { result ≡ pattern_of p pattern }
{
    Weights {
        n: signed_product(sign_of(pattern), p.y, p.z),
        y: signed_product(sign_of(pattern / 2), p.n, p.z),
        z: signed_product(sign_of(pattern / 4), p.n, p.y),
    }
}

// The totals, and one pass over the other cases, in four directions: the sums serve a pattern of signs and the opposite one each, so all eight,
// and are in range on any two sides.
pub fn pattern_pass(sums: &mut [Sums; 4], station: Station<'_, '_>, p: Capacities)
    requires { Placed station.places.now.sets × CapacitiesInRange p }
    ensures serves { PatternPass (held_in sums.new) (total_at station.entry.totals.now) station.entry.places.now.sets (effect_of station.entry.effects.all.now) p }
    ensures ready { PatternsReady (held_in sums.new) (total_at station.entry.totals.now) station.entry.places.now.sets (effect_of station.entry.effects.all.now) }
{
    directions::four_sums_of(sums, station, pattern_weights(p, 0));
}
