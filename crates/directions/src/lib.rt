#![tactic(auto)]

ghost use Rattle.std.specs.Prelude.{◌≡◌, ◌+◌, ◌<◌, ◌≤◌, ◌^◌, ◌*ℤ◌, nat_abs};
ghost use Rattle.standard.specs.Kinds.{kind_count};
ghost use Rattle.envelope.specs.Range.{effect_of, total_at, total_most, WeightsInRange};
ghost use Rattle.sums.specs.Directions.{held_in};
ghost use Rattle.directions.specs.Four.{directions_of, directed, direction_of, sign_of, FourOf, held_along, fluid_in};

mod reading;

use envelope::{Sign, Station, Weights};
pub use reading::FourDirections;
use standard::KINDS;
use sums::Sums;

// The sums of each kind in the four directions, for both signs of each: from the totals of D and F, and from one pass over the cases
// of the others.
pub fn four_sums_of(sums: &mut [Sums; 4], station: Station<'_, '_>, weights: Weights)
    requires { WeightsInRange weights }
    ensures { FourOf (held_in sums.new) (directed weights (total_at station.entry.totals.now)) station.entry.places.now.sets (directed weights (effect_of station.entry.effects.all.now)) kind_count }
{
    let four = FourDirections { weights };
    let totals = station.totals;
    let dead = four.of(totals.dead[0], totals.dead[1], totals.dead[2]);
    let fluid = four.of(totals.fluid[0], totals.fluid[1], totals.fluid[2]);
    sums::sum_up(sums, [dead, fluid], station.places, station.effects, four);
}

// The direction of a pattern of signs, and the sign that it has there: pattern 7 - i is the opposite of pattern i.
// Stays: a pattern by its number, as `Peak` has it, with a clause here and in `fluid_in`, since definitions make a `Peak` of any number.
pub fn way_of(pattern: usize) -> (usize, Sign)
    requires { pattern < 8 }
    ensures direction { result.0 ≡ direction_of pattern }
    ensures sign { result.1 ≡ sign_of pattern }
{
    if pattern < 4 {
        (pattern, Sign::Plus)
    } else {
        (7 - pattern, Sign::Minus)
    }
}

// Whether the F cases act for a pattern of signs.
pub fn fluid_in(sums: &[Sums; 4], pattern: usize) -> bool
    requires { pattern < 8 }
    ensures { result ≡ fluid_in (held_in sums.now) pattern }
{
    let (direction, sign) = way_of(pattern);
    sums[direction].fluid_acts(sign)
}

// The same of any numbers by direction and kind, in range or not.
pub fn fluid_in_numbers(numbers: &[[[u64; 2]; KINDS]; 4], pattern: usize) -> bool
    requires { pattern < 8 }
    ensures { result ≡ fluid_in (held_along numbers.now) pattern }
{
    let (direction, sign) = way_of(pattern);
    match sign {
        Sign::Plus => sums::fluid_acts(&numbers[direction], 0, 1),
        Sign::Minus => sums::fluid_acts(&numbers[direction], 1, 0),
    }
}
