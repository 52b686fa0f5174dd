#![tactic(auto)]

ghost use Rattle.std.specs.Prelude.{◌≡◌, ℕ, ◌+◌, ◌*◌, ◌<◌, ◌≤◌, ◌^◌, min, ℤ, pos, neg_ℤ, ◌+ℤ◌, ◌*ℤ◌, nat_abs};
ghost use Rattle.standard.specs.Kinds.{kind_count, number_of};
ghost use Rattle.standard.specs.Range.{SettingsInRange};
ghost use Rattle.standard.specs.Rows.{row_count, factor_of};
ghost use Rattle.optimum.specs.Row.{lower_of};
ghost use Rattle.envelope.specs.Signs.{over};
ghost use Rattle.sums.specs.Sums.{held_at};
ghost use Rattle.terms.specs.Value.{factor_most, Gained, terms_between, terms_of, TermsInRange, own_of, singles_size, singles_of, value_of};

use envelope::Sign;
use standard::{Kind, Settings};
use sums::Sums;

// What the factors of a row multiply: the cases of D, of F where their total is above zero, of Hp and Hv, of Hp at the low
// factor, of L, of T, then the greatest of Lr and R, of S, of W, of E, of Fa, of Di and of Wi.
#[derive(Clone, Copy, PartialEq, Eq, Debug)]
pub struct Terms {
    pub dead: i64,
    pub fluid: i64,
    pub earth: i64,
    pub lowered: i64,
    pub live: i64,
    pub straining: i64,
    pub roof: i64,
    pub snow: i64,
    pub wind: i64,
    pub quake: i64,
    pub flood: i64,
    pub ice: i64,
    pub icewind: i64,
}

// The terms from the sums, of the effects with a sign.
pub fn terms_of(sums: &Sums, sign: Sign) -> Terms
    ensures { result ≡ terms_of (held_at sums.now.by_kind) sign }
{
    Terms {
        dead: sums.excess(Kind::Dead, sign),
        fluid: sums.excess(Kind::Fluid, sign).max(0),
        earth: sums.held(Kind::EarthPermanent, sign) + sums.held(Kind::EarthOther, sign),
        lowered: -sums.held(Kind::EarthPermanent, sign.opposite()),
        live: sums.held(Kind::Live, sign),
        straining: sums.held(Kind::SelfStraining, sign),
        roof: sums
            .held(Kind::RoofLive, sign)
            .max(sums.held(Kind::Rain, sign)),
        snow: sums.held(Kind::Snow, sign),
        wind: sums.held(Kind::Wind, sign),
        quake: sums.held(Kind::Earthquake, sign),
        flood: sums.held(Kind::Flood, sign),
        ice: sums.held(Kind::Ice, sign),
        icewind: sums.held(Kind::WindOnIce, sign),
    }
}

// What is held of a kind on one side, less what is held on another.
fn excess(sums: &Sums, kind: Kind, above: Sign, below: Sign) -> i64
    ensures { let held = held_at sums.now.by_kind (number_of kind) in result ≡ pos (held (over above)) +ℤ neg_ℤ (pos (held (over below))) }
{
    sums.held(kind, above) - sums.held(kind, below)
}

// The terms from any two sides, each that of a sign: three terms have a part below zero.
pub fn terms_between(sums: &Sums, above: Sign, below: Sign) -> Terms
    ensures { result ≡ terms_between (held_at sums.now.by_kind) (over above) (over below) }
{
    Terms {
        dead: excess(sums, Kind::Dead, above, below),
        fluid: excess(sums, Kind::Fluid, above, below).max(0),
        lowered: -sums.held(Kind::EarthPermanent, below),
        ..terms_of(sums, above)
    }
}

// A term at a factor, added to what there is.
fn with_term(total: i64, factor: u16, x: i64) -> i64
    requires small { factor ≤ factor_most }
    requires room { nat_abs total + factor_most * nat_abs x < 2 ^ 63 }
    ensures { Gained result total factor x }
{
    total + i64::from(factor) * x
}

// A row of the table under settings in range.
#[derive(Clone, Copy)]
pub struct Row {
    pub settings: Settings,
    pub number: u8,
    pub ghost in_range: { SettingsInRange settings },
    pub ghost in_table: { number < row_count },
}

impl Row {
    #[tactic(auto, using(standard::proofs::Facts::factor_le))]
    fn factor(self, kind: Kind) -> u16
        ensures is { result ≡ factor_of self.settings self.number (number_of kind) }
        ensures small { result ≤ factor_most }
    {
        rows::factor(self.settings, self.number, kind)
    }

    // The lower of the two factors of Hp.
    #[tactic(auto, unfolding(optimum::specs::Row::lower_of))]
    fn lower_factor(self) -> u16
        ensures is { result ≡ lower_of self.settings self.number (number_of Kind.EarthPermanent) }
        ensures small { result ≤ factor_most }
    {
        self.settings
            .low_factor()
            .min(self.factor(Kind::EarthPermanent))
    }

    // What the cases that act together give.
    fn own_value(self, t: Terms) -> i64
        requires { TermsInRange t }
        ensures is { result ≡ own_of self.settings self.number t }
        ensures small { nat_abs result ≤ factor_most * (nat_abs t.dead + nat_abs t.fluid + nat_abs t.earth + nat_abs t.lowered + nat_abs t.live + nat_abs t.straining) }
    {
        let dead = with_term(0, self.factor(Kind::Dead), t.dead);
        let fluid = with_term(dead, self.factor(Kind::Fluid), t.fluid);
        let earth = with_term(fluid, self.factor(Kind::EarthPermanent), t.earth);
        let lowered = with_term(earth, self.lower_factor(), t.lowered);
        let live = with_term(lowered, self.factor(Kind::Live), t.live);
        with_term(live, self.factor(Kind::SelfStraining), t.straining)
    }

    // What the groups of one kind each add.
    fn with_singles(self, total: i64, t: Terms) -> i64
        requires { nat_abs total + factor_most * singles_size t < 2 ^ 63 }
        ensures { result ≡ singles_of self.settings self.number total t }
    {
        let wind = with_term(total, self.factor(Kind::Wind), t.wind);
        let quake = with_term(wind, self.factor(Kind::Earthquake), t.quake);
        let flood = with_term(quake, self.factor(Kind::Flood), t.flood);
        let ice = with_term(flood, self.factor(Kind::Ice), t.ice);
        with_term(ice, self.factor(Kind::WindOnIce), t.icewind)
    }

    // The value of the row: the line as the standard writes it.
    pub fn value_of(self, t: Terms) -> i64
        requires { TermsInRange t }
        ensures { result ≡ value_of self.settings self.number t }
    {
        let own = self.own_value(t);
        let roof = with_term(0, self.factor(Kind::RoofLive), t.roof);
        let snow = with_term(0, self.factor(Kind::Snow), t.snow);
        self.with_singles(own + roof.max(snow), t)
    }
}
