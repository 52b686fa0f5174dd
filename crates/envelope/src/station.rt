ghost use Rattle.std.specs.Prelude.{◌≡◌};
ghost use Rattle.envelope.specs.Range.{TotalsInRange};

use crate::{CasesByKind, StationEffects, StationSums};

// What a pass reads of a station: the totals of D and F, the load cases of each kind and their effects.
#[derive(Clone, Copy)]
pub struct Station<'a, 'p> {
    pub totals: &'a StationSums,
    pub places: &'p CasesByKind,
    pub effects: StationEffects<'a>,
    pub ghost in_range: { TotalsInRange totals.now },
}
