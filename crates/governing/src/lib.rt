#![tactic(auto)]

ghost use Rattle.std.specs.Prelude.{◌≡◌, ℕ, ◌<◌, ◌≤◌};
ghost use Rattle.standard.specs.Range.{SettingsInRange};
ghost use Rattle.standard.specs.Rows.{row_count, rows_to, by_zone, by_ice};
ghost use Rattle.envelope.specs.Envelope.{best_at, better_by, best_in, best_among, best_of, higher_by, peak_of};
ghost use Rattle.envelope.specs.Signs.{over};
ghost use Rattle.sums.specs.Sums.{held_at};
ghost use Rattle.sums.specs.Directions.{held_in};
ghost use Rattle.terms.specs.Value.{TermsInRange, value_of};
ghost use Rattle.governing.specs.Ways.{toward_between, toward_of, Ready, ReadyBetween, eight_of};

use envelope::{Best, Peak, Sign};
use standard::Settings;
use sums::Sums;
use terms::{Row, Terms};

// The better of the row held and another.
// Stays: an `if`, here and in `higher`, since of equals the one held is kept, which `max_by_key` says by the order of its arguments alone.
fn better(held: Best, other: Best) -> Best
    ensures { result ≡ better_by held other.row other.value }
{
    if held.value < other.value {
        other
    } else {
        held
    }
}

// The higher of the pattern held and another.
fn higher(held: Peak, pattern: usize, best: Best) -> Peak
    ensures { result ≡ higher_by held pattern best }
{
    if held.best.value < best.value {
        Peak { pattern, best }
    } else {
        held
    }
}

// The rows that are open under settings in range.
#[derive(Clone, Copy)]
pub struct OpenRows {
    pub settings: Settings,
    pub ghost in_range: { SettingsInRange settings },
}

// What the open rows are compared by: terms in range.
#[derive(Clone, Copy)]
struct Look {
    rows: OpenRows,
    terms: Terms,
    ghost terms_in_range: { TermsInRange terms },
}

impl Look {
    // A row with its value.
    fn at(self, number: u8) -> Best
        requires { number < row_count }
        ensures { result ≡ best_at number (value_of self.rows.settings number self.terms) }
    {
        let row = Row {
            settings: self.rows.settings,
            number,
        };
        Best {
            row: number,
            value: row.value_of(self.terms),
        }
    }

    // The best of the row held and those from one number to another. The numbers are const parameters, so that the compiler folds the
    // table into the code.
    fn best_in<const FIRST: u8, const LAST: u8>(self, held: Best) -> Best
        requires { (FIRST ≤ LAST) × (LAST < row_count) }
        ensures { result ≡ best_in (λ row. value_of self.rows.settings row self.terms) held (rows_to FIRST LAST) }
    {
        let mut best = held;
        for row in FIRST..=LAST {
            best = better(best, self.at(row));
        }
        best
    }

    // The same with some rows in zone 1, others in zone 2.
    fn with_flood<const ONE: u8, const ONE_LAST: u8, const TWO: u8, const TWO_LAST: u8>(
        self,
        held: Best,
    ) -> Best
        requires one { (ONE ≤ ONE_LAST) × (ONE_LAST < row_count) }
        requires two { (TWO ≤ TWO_LAST) × (TWO_LAST < row_count) }
        ensures { result ≡ best_among (λ row. value_of self.rows.settings row self.terms) held (by_zone self.rows.settings (rows_to ONE ONE_LAST) (rows_to TWO TWO_LAST)) }
    {
        match self.rows.settings.zone {
            1 => self.best_in::<ONE, ONE_LAST>(held),
            2 => self.best_in::<TWO, TWO_LAST>(held),
            _ => held,
        }
    }

    // The same with the ice rows, where they are switched on.
    fn with_ice<const FIRST: u8, const LAST: u8>(self, held: Best) -> Best
        requires { (FIRST ≤ LAST) × (LAST < row_count) }
        ensures { result ≡ best_among (λ row. value_of self.rows.settings row self.terms) held (by_ice self.rows.settings (rows_to FIRST LAST)) }
    {
        if self.rows.settings.ice == 1 {
            self.best_in::<FIRST, LAST>(held)
        } else {
            held
        }
    }

    // The best row of method 1.
    // Stays: a function for each method, since in one a utilisation takes 10 to 30 instructions more.
    fn strength(self) -> Best
        requires { self.rows.settings.method ≡ 1 }
        ensures { result ≡ best_of self.rows.settings (λ row. value_of self.rows.settings row self.terms) }
    {
        let plain = self.best_in::<2, 8>(self.at(1));
        let flooded = self.with_flood::<9, 10, 11, 12>(plain);
        self.with_ice::<13, 15>(flooded)
    }

    // The best row of method 2.
    fn allowable(self) -> Best
        requires { self.rows.settings.method ≡ 2 }
        ensures { result ≡ best_of self.rows.settings (λ row. value_of self.rows.settings row self.terms) }
    {
        let plain = self.best_in::<22, 30>(self.at(21));
        let flooded = self.with_flood::<31, 35, 36, 40>(plain);
        self.with_ice::<41, 43>(flooded)
    }

    // The row that governs.
    fn governing(self) -> Best
        ensures { result ≡ best_of self.rows.settings (λ row. value_of self.rows.settings row self.terms) }
    {
        if self.rows.settings.method == 1 {
            self.strength()
        } else {
            self.allowable()
        }
    }
}

impl OpenRows {
    // The row that governs the effects with a sign.
    pub fn toward(self, sums: &Sums, sign: Sign) -> Best
        requires { Ready (held_at sums.now.by_kind) }
        ensures { result ≡ toward_of self.settings (held_at sums.now.by_kind) sign }
    {
        let look = Look {
            rows: self,
            terms: terms::terms_of(sums, sign),
        };
        look.governing()
    }

    // The row that governs what is held on any two sides, each that of a sign.
    pub fn toward_between(self, sums: &Sums, above: Sign, below: Sign) -> Best
        requires { ReadyBetween (held_at sums.now.by_kind) }
        ensures { result ≡ toward_between self.settings (held_at sums.now.by_kind) (over above) (over below) }
    {
        let look = Look {
            rows: self,
            terms: terms::terms_between(sums, above, below),
        };
        look.governing()
    }

    // The pattern with the greatest numerator, from the sums of four directions.
    pub fn highest(self, sums: &[Sums; 4]) -> Peak
        requires { (d : ℕ) → d < 4 → Ready (held_in sums.now d) }
        ensures { result ≡ peak_of (eight_of self.settings (held_in sums.now)) 7 }
    {
        let mut peak = Peak {
            pattern: 0,
            best: self.toward(&sums[0], Sign::Plus),
        };
        for pattern in 1..8 {
            let (direction, sign) = directions::way_of(pattern);
            peak = higher(peak, pattern, self.toward(&sums[direction], sign));
        }
        peak
    }
}
