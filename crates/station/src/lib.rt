#![tactic(auto)]

ghost use Rattle.std.specs.Prelude.{◌≡◌, ◌<◌, ◌^◌, nat_abs};
ghost use Rattle.standard.specs.Range.{SettingsInRange};
ghost use Rattle.standard.specs.Combination.{case_count, denominator_of};
ghost use Rattle.envelope.specs.Range.{kind_of, effect_of, StationInRange, CapacitiesInRange};
ghost use Rattle.envelope.specs.Components.{number_of_component};
ghost use Rattle.envelope.specs.Envelope.{extremes_of, utilised_of};
ghost use Rattle.sums.specs.Sums.{held_at, TotalsHeld};
ghost use Rattle.station.specs.Promises.{ExtremesGovern, ExtremesFromPass, UtilisationGoverns, UtilisationFromPass};
ghost use Rattle.station.specs.Passed.{Passed, Greatest};

use envelope::{
    Best, CasesByKind, Component, Extreme, Extremes, Sign, Station, StationEffects, StationSums,
    Utilised,
};
use governing::OpenRows;
use naming::{OnComponent, Sets, Weighed};
use standard::{Capacities, Settings};
use sums::Sums;

// A governing number with its combination, whose sets are of the cases.
fn extreme(best: Best, sets: Sets) -> Extreme
    requires { (sets.acting < 2 ^ case_count) × (sets.low < 2 ^ case_count) }
    ensures { (result.value ≡ best.value) × (result.row ≡ best.row) × (result.acting ≡ sets.acting) × (result.low ≡ sets.low) }
{
    Extreme {
        value: best.value,
        row: usize::from(best.row),
        // Stays: `as`, proved to fit, since `try_from` gives a Result that is never an Err.
        acting: sets.acting as u32,
        low: sets.low as u32,
    }
}

// The greatest number of the effects with a sign, and its combination, from the sums of one pass.
#[inline(always)]
fn greatest(rows: OpenRows, places: &CasesByKind, sums: &Sums, cases: OnComponent<'_>) -> Extreme
    requires { Passed places.now.sets (held_at sums.now.by_kind) (λ k. effect_of cases.effects.all.now k (number_of_component cases.component)) }
    ensures is { Greatest result rows.settings places.now.sets (held_at sums.now.by_kind) (λ k. effect_of cases.entry.effects.all.now k (number_of_component cases.entry.component)) cases.entry.sign }
    ensures small { nat_abs result.value < 2 ^ 63 }
{
    let best = rows.toward(sums, cases.sign);
    let fluid = sums.fluid_acts(cases.sign);
    extreme(best, naming::sets_of(best.row, places, cases, fluid))
}

// The maximum and the minimum of a component, from the totals of D and F and one pass over the other cases.
// Stays: the parts of a sheet as arguments, here and in `utilisation_of`: a struct of them would be made of the same four parts in both
// callers, with the three facts owed in each, and taken apart here.
pub fn extremes_of<'a>(
    s: Settings,
    kinds: &[u8],
    effects: &'a [i16],
    totals: &'a StationSums,
    component: Component,
) -> Extremes
    requires { StationInRange kinds.now effects.now × TotalsHeld totals.now kinds.now effects.now × SettingsInRange s }
    ensures { (result ≡ extremes_of s (kind_of kinds.now) (λ k. effect_of effects.now k (number_of_component component))) × ExtremesGovern s (kind_of kinds.now) (λ k. effect_of effects.now k (number_of_component component)) result × ExtremesFromPass s (kind_of kinds.now) (λ k. effect_of effects.now k (number_of_component component)) result }
{
    let places = sums::places_of(kinds);
    let effects = StationEffects { all: effects };
    let station = Station {
        totals,
        places: &places,
        effects,
    };
    let sums = passes::component_pass(station, component);
    let rows = OpenRows { settings: s };
    let as_is = OnComponent {
        effects,
        component,
        sign: Sign::Plus,
    };
    let turned = OnComponent {
        effects,
        component,
        sign: Sign::Minus,
    };
    let most = greatest(rows, &places, &sums, as_is);
    let least = greatest(rows, &places, &sums, turned);
    Extremes {
        maximum: most,
        minimum: Extreme {
            value: -least.value,
            ..least
        },
    }
}

fn denominator_of(p: Capacities) -> u64
    ensures { result ≡ denominator_of p }
{
    let n = u64::from(p.n);
    let y = u64::from(p.y);
    let z = u64::from(p.z);
    1000 * (n * y * z)
}

// The utilisation of a station, from the totals of D and F and one pass over the other cases: the pattern of signs with the greatest
// numerator, and the sets of its row.
pub fn utilisation_of<'a>(
    s: Settings,
    kinds: &[u8],
    effects: &'a [i16],
    totals: &'a StationSums,
    p: Capacities,
) -> Utilised
    requires { StationInRange kinds.now effects.now × TotalsHeld totals.now kinds.now effects.now × CapacitiesInRange p × SettingsInRange s }
    ensures { (result ≡ utilised_of s (kind_of kinds.now) (effect_of effects.now) p) × UtilisationGoverns s (kind_of kinds.now) (effect_of effects.now) p result × UtilisationFromPass s (kind_of kinds.now) (effect_of effects.now) p result }
{
    let places = sums::places_of(kinds);
    let effects = StationEffects { all: effects };
    let station = Station {
        totals,
        places: &places,
        effects,
    };
    let mut sums = [Sums::new(); 4];
    passes::pattern_pass(&mut sums, station, p);
    let rows = OpenRows { settings: s };
    let peak = rows.highest(&sums);
    let fluid = directions::fluid_in(&sums, peak.pattern);
    let weights = passes::pattern_weights(p, peak.pattern);
    let weighed = Weighed { effects, weights };
    let sets = naming::sets_of(peak.best.row, &places, weighed, fluid);
    let x = extreme(peak.best, sets);
    let numerator = x.value.unsigned_abs();
    let denominator = denominator_of(p);
    Utilised {
        numerator,
        denominator,
        pass: numerator <= denominator,
        row: x.row,
        acting: x.acting,
        low: x.low,
    }
}
