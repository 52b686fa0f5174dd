// One combination: whether it is admissible, and the figure that it gives. Sets of cases are numbers, case k being bit k.

#![tactic(auto)]

ghost use Rattle.std.specs.Prelude.{◌≡◌, ◌<◌, map};
ghost use Rattle.recheck_rows.specs.Rows.{low_factor_of};
ghost use Rattle.recheck_combinations.specs.Acting.{kinds_of, factors_of, is_of, having, rules_of, within, all_or_none, at_most_one, may_act, may_be_low, Factors};

pub use figure::{Capacities, Component, Effects, Figure, NoComponent, times};
pub use recheck_rows::CASES;
use recheck_rows::Options;

mod figure;

// A place as one station sees it: the kind of its load case, where there is one, and the case's effects.
#[derive(Clone, Copy, Default)]
pub struct Case {
    pub kind: Option<u8>,
    pub effects: Effects,
}

// A place in a row: beside the case its full factor, 0 where it may not act.
#[derive(Clone, Copy)]
pub struct Term {
    pub case: Case,
    pub factor: u64,
}

// The cases with a factor in one row, by the rule that they are under.
#[derive(Clone, Copy)]
pub struct Rules {
    pub always: u64,
    pub fluid: u64,
    pub may: u64,
    pub roof: u64,
    pub wind: u64,
    pub earthquake: u64,
    pub flood: u64,
    pub ice_weight: u64,
    pub ice_wind: u64,
    pub hp: u64,
}

// A row of the standard with a sheet's cases in it.
#[derive(Clone, Copy)]
pub struct Row {
    pub terms: [Term; CASES],
    pub low_factor: u64,
    pub rules: Rules,
}

// Whether the case is in the set.
pub fn has(set: u64, case: usize) -> bool
    requires { case < 64 }
{
    set >> case & 1 == 1
}

fn terms_in(cases: &[Case; CASES], options: Options, row: u8) -> [Term; CASES]
    ensures cases { map (λ t. t.case) result ≡ cases.now }
    ensures factors { Factors options.straining (factors_of result) }
{
    cases.map(|case| Term {
        case,
        factor: case.kind.map_or(0, |kind| options.factor(row, kind)),
    })
}

impl Term {
    // Whether the place has a factor and a case of kinds `first` to `last`.
    // Stays: 0 for an empty place, as in the statement; `is_some_and` would have to ask here and in `having` that `first` is not 0.
    fn is_of(self, first: u8, last: u8) -> bool
        ensures { result ≡ is_of self first last }
    {
        self.factor != 0 && (first..=last).contains(&self.case.kind.unwrap_or(0))
    }
}

// The set of cases of kinds `first` to `last` that have a factor.
// Stays: kinds by their numbers, since a place may hold a byte that stands for none, and the statement of the rules goes by runs of them.
fn having(terms: &[Term; CASES], first: u8, last: u8) -> u64
    ensures { result ≡ having (kinds_of terms.now) (factors_of terms.now) first last 32 }
{
    let mut set = 0;
    for (case, term) in terms.iter().enumerate() {
        if term.is_of(first, last) {
            set |= 1 << case;
        }
    }
    set
}

// At most one bit: taking 1 away from a single bit leaves only bits below it.
fn at_most_one(set: u64) -> bool
    ensures { result ≡ at_most_one set }
{
    set & set.saturating_sub(1) == 0
}

fn within(set: u64, all: u64) -> bool
    ensures { result ≡ within set all }
{
    set | all == all
}

// Whether all cases of `all` act or none does; `set` has those of them that act.
fn all_or_none(set: u64, all: u64) -> bool
    ensures { result ≡ all_or_none set all }
{
    set == 0 || set == all
}

impl Rules {
    #[tactic(auto, unfolding(crate::specs::Acting::rules_of))]
    pub fn of(terms: &[Term; CASES]) -> Rules
        ensures { result ≡ rules_of (kinds_of terms.now) (factors_of terms.now) }
    {
        let hp = having(terms, 3, 3);
        Rules {
            always: having(terms, 1, 1) | hp,
            fluid: having(terms, 2, 2),
            may: having(terms, 1, 14),
            roof: having(terms, 6, 8),
            wind: having(terms, 9, 9),
            earthquake: having(terms, 10, 10),
            flood: having(terms, 11, 11),
            ice_weight: having(terms, 12, 12),
            ice_wind: having(terms, 13, 13),
            hp,
        }
    }

    // Whether these cases may act together. The F cases act all or none: a tank may be empty.
    #[tactic(auto, unfolding(crate::specs::Acting::may_act))]
    pub fn may_act(self, acting: u64) -> bool
        ensures { result ≡ may_act self acting }
    {
        within(acting, self.may)
            && within(self.always, acting)
            && all_or_none(acting & self.fluid, self.fluid)
            && at_most_one(acting & self.roof)
            && at_most_one(acting & self.wind)
            && at_most_one(acting & self.earthquake)
            && at_most_one(acting & self.flood)
            && at_most_one(acting & self.ice_weight)
            && at_most_one(acting & self.ice_wind)
    }

    // Whether these of the acting cases may take the low factor.
    pub fn may_be_low(self, acting: u64, low: u64) -> bool
        ensures { result ≡ may_be_low self acting low }
    {
        within(low, acting & self.hp)
    }
}

impl Row {
    pub fn new(options: Options, row: u8, cases: &[Case; CASES]) -> Row
        ensures cases { map (λ t. t.case) result.terms ≡ cases.now }
        ensures factors { Factors options.straining (factors_of result.terms) }
        ensures low_factor { result.low_factor ≡ low_factor_of options.method }
        ensures rules { result.rules ≡ rules_of (kinds_of result.terms) (factors_of result.terms) }
    {
        let terms = terms_in(cases, options, row);
        Row {
            terms,
            low_factor: options.low_factor(),
            rules: Rules::of(&terms),
        }
    }

    // A component's factored effect. No figure comes near 2^63, and the proof needs no bound: the sum wraps.
    fn effect(&self, component: Component, acting: u64, low: u64) -> i64 {
        let mut sum: i64 = 0;
        for (case, term) in self.terms.iter().enumerate() {
            if has(acting, case) {
                let factor = if has(low, case) {
                    self.low_factor
                } else {
                    term.factor
                };
                let effect = i64::from(term.case.effects.component(component));
                sum = sum.wrapping_add(factor.cast_signed().wrapping_mul(effect));
            }
        }
        sum
    }

    // The numerator of the utilisation. Each factored effect is below 2^30 in size.
    fn numerator(&self, capacities: Capacities, acting: u64, low: u64) -> i64 {
        let size = |component| self.effect(component, acting, low).unsigned_abs();
        let n = times(
            size(Component::N),
            times(capacities.bending_y, capacities.bending_z),
        );
        let my = times(
            size(Component::My),
            times(capacities.axial, capacities.bending_z),
        );
        let mz = times(
            size(Component::Mz),
            times(capacities.axial, capacities.bending_y),
        );
        n.wrapping_add(my).wrapping_add(mz).cast_signed()
    }

    // The figure that the combination gives.
    pub fn figure(&self, figure: Figure, acting: u64, low: u64) -> i64 {
        match figure {
            Figure::Effect(component) => self.effect(component, acting, low),
            Figure::Numerator(capacities) => self.numerator(capacities, acting, low),
        }
    }
}
