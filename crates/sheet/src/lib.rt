#![tactic(auto)]

// The sheet: settings, 32 case places and 16 stations; the edits of tags 01 to 05, 08 and 09, the looks and the names of cases.
ghost use Rattle.std.specs.Prelude.{◌≡◌, ◌<◌, set};
ghost use Rattle.std.specs.Fn.{FnOnceReturnsAtMut, FnOnceTakesAtMut};
ghost use Rattle.wire.specs.Bytes.{signed16};
ghost use Rattle.standard.specs.Rows.{settings_of};
ghost use Rattle.envelope.specs.Range.{station_count};
ghost use Rattle.refusals.specs.Refusals.{due_settings, due_capacities, due_extremes, due_switch, due_name};
ghost use Rattle.effects.specs.Effects.{station_in};
ghost use Rattle.sheet.specs.Sheet.{fresh, kind_at, capacity_at, totals_in, with_kind, with_effects, with_capacities, with_settings, with_switch, with_straining};
ghost use Rattle.sheet.specs.Range.{InRange};
ghost use Rattle.sheet.specs.Looks.{extremes_at, utilisation_at, unless_due, edited, as_answer, answered, due_utilisation, looked_extremes, looked_utilisation, ExtremesPromised, UtilisationPromised};
ghost use Rattle.sheet.specs.Edits.{due_fill, due_effects, due_empty, due_factor, unless_refused};

use dead_sums::{DeadSums, NO_SUMS};
use effects::{EFFECTS, Effects, STATION_EFFECTS, STATIONS};
use envelope::{Extremes, StationSums, Utilised};
use refusals::{EffectWords, Refusal};
use standard::{CASES, Capacities, Settings};

// What a station without capacities holds.
const NO_CAPACITIES: Capacities = Capacities { n: 0, y: 0, z: 0 };

// Stays: the range is a clause and no fact of the type, since save and the edits that need no range take a sheet of any values.
#[derive(Clone, Copy)]
pub struct Sheet {
    pub settings: Settings,
    pub kinds: [u8; CASES],
    pub effects: Effects,
    pub sums: DeadSums,
    pub capacities: [Capacities; STATIONS],
}

// What reading a field answers.
// Stays: a refusal is its number here, as it is answered (docs/DECISIONS.md).
#[derive(Clone, Copy)]
pub enum Answer {
    Accepted,
    Extremes(Extremes),
    Utilisation(Utilised),
    Refused(u8),
}

/// A refusal is answered by its number.
impl From<Result<Answer, Refusal>> for Answer {
    ghost from_gives = { λ replied answer. answer ≡ as_answer replied };

    fn from(replied: Result<Answer, Refusal>) -> Answer {
        match replied {
            Ok(answer) => answer,
            Err(refusal) => Answer::Refused(u8::from(refusal)),
        }
    }
}

// An answer with the sheet beside it.
#[derive(Clone, Copy)]
pub struct Answered {
    pub answer: Answer,
    pub sheet: Sheet,
}

// Stays: a field's arguments are the bytes and words of its body, since each that is no case, kind, station or component is refused by its number.
impl Sheet {
    pub fn fresh(settings: Settings) -> Sheet
        ensures { result ≡ fresh settings }
    {
        Sheet {
            settings,
            kinds: [0; CASES],
            effects: [0; EFFECTS],
            sums: [NO_SUMS; STATIONS],
            capacities: [NO_CAPACITIES; STATIONS],
        }
    }

    // The kind at a place: 0 where it is empty, or no place.
    // Stays: 0 for an empty place, since the sheet's kinds are bytes of any value. So `held` in refusals.
    fn kind(&self, case: u8) -> u8
        ensures { result ≡ kind_at self.now case }
    {
        self.kinds.get(usize::from(case)).copied().unwrap_or(0)
    }

    // Tag 01, in place.
    #[tactic(auto, using(crate::proofs::Refusals::made, crate::proofs::Refusals::refused))]
    pub fn restart_in(&mut self, method: u8, live: u8, zone: u8) -> Result<Answer, Refusal>
        ensures { answered result self.new ≡ edited (unless_refused (due_settings method live zone) self.old (fresh (settings_of method live zone))) }
    {
        refusals::check_settings(method, live, zone)?;
        *self = Sheet::fresh(Settings::of(method, live, zone));
        Ok(Answer::Accepted)
    }

    // Tag 02, in place. An empty place has no effects, so that none is stored, and no sum changes, whatever a sheet holds.
    #[tactic(auto, using(crate::proofs::Refusals::refused))]
    pub fn fill_in(&mut self, case: u8, kind: u8) -> Result<Answer, Refusal>
        ensures stored { answered result self.new ≡ edited (unless_refused (due_fill self.old case kind) self.old (record { settings = self.old.settings; kinds = set self.old.kinds case kind; effects = self.old.effects; sums = self.old.sums; capacities = self.old.capacities })) }
        ensures filled { InRange self.old → answered result self.new ≡ edited (unless_refused (due_fill self.old case kind) self.old (with_kind self.old case kind)) }
    {
        refusals::check_fill(case, kind, self.kind(case))?;
        self.kinds[usize::from(case)] = kind;
        Ok(Answer::Accepted)
    }

    // Tag 03, in place.
    #[tactic(auto, using(crate::proofs::Refusals::refused))]
    pub fn replace_effects_in(
        &mut self,
        case: u8,
        station: u8,
        words: EffectWords,
    ) -> Result<Answer, Refusal>
        requires { InRange self.old }
        ensures { answered result self.new ≡ edited (unless_refused (due_effects self.old case station words.n words.y words.z) self.old (with_effects self.old case station (signed16 words.n) (signed16 words.y) (signed16 words.z))) }
    {
        refusals::check_effects(case, station, words, self.kind(case))?;
        let EffectWords { n, y, z } = words;
        let values = [n.cast_signed(), y.cast_signed(), z.cast_signed()];
        dead_sums::put_effects(
            &mut self.effects,
            &mut self.sums,
            &self.kinds,
            usize::from(case),
            usize::from(station),
            values,
        );
        Ok(Answer::Accepted)
    }

    // Tag 04, in place. The effects are cleared while the place holds its kind, so that the sums of that kind change.
    #[tactic(auto, using(crate::proofs::Refusals::refused))]
    pub fn empty_in(&mut self, case: u8) -> Result<Answer, Refusal>
        requires { InRange self.old }
        ensures { answered result self.new ≡ edited (unless_refused (due_empty self.old case) self.old (with_kind self.old case 0)) }
    {
        refusals::check_empty(case, self.kind(case))?;
        let k = usize::from(case);
        dead_sums::clear_case(&mut self.effects, &mut self.sums, &self.kinds, k);
        self.kinds[k] = 0;
        Ok(Answer::Accepted)
    }

    // Tag 05, in place.
    #[tactic(auto, using(crate::proofs::Refusals::refused))]
    pub fn replace_capacities_in(
        &mut self,
        station: u8,
        capacities: Capacities,
    ) -> Result<Answer, Refusal>
        ensures { answered result self.new ≡ edited (unless_refused (due_capacities station capacities.n capacities.y capacities.z) self.old (with_capacities self.old station capacities.n capacities.y capacities.z)) }
    {
        refusals::check_capacities(station, capacities)?;
        self.capacities[usize::from(station)] = capacities;
        Ok(Answer::Accepted)
    }

    // Tag 08, in place.
    #[tactic(auto, using(crate::proofs::Refusals::made, crate::proofs::Refusals::refused), unfolding(crate::specs::Sheet::with_settings))]
    pub fn switch_ice_in(&mut self, byte: u8) -> Result<Answer, Refusal>
        ensures { answered result self.new ≡ edited (unless_refused (due_switch byte) self.old (with_switch self.old byte)) }
    {
        refusals::check_switch(byte)?;
        self.settings = self.settings.switched(byte);
        Ok(Answer::Accepted)
    }

    // Tag 09, in place.
    #[tactic(auto, using(crate::proofs::Refusals::made, crate::proofs::Refusals::refused), unfolding(crate::specs::Sheet::with_settings))]
    pub fn set_straining_in(&mut self, factor: u16) -> Result<Answer, Refusal>
        ensures { answered result self.new ≡ edited (unless_refused (due_factor self.old factor) self.old (with_straining self.old factor)) }
    {
        refusals::check_straining(self.settings.method, factor)?;
        self.settings = self.settings.strained(factor);
        Ok(Answer::Accepted)
    }

    // Tag 60, in place: a sheet holds no names.
    #[tactic(auto, using(crate::proofs::Refusals::made, crate::proofs::Refusals::refused))]
    pub fn name_case_in(&mut self, case: u8) -> Result<Answer, Refusal>
        ensures { answered result self.new ≡ edited (unless_refused (due_name case) self.old self.old) }
    {
        refusals::check_name(case)?;
        Ok(Answer::Accepted)
    }

    // The effects of a station.
    // Stays: a part by its position, since the effects stand flat, and a clause on the station, in range only after a field's refusals.
    fn station_effects(&self, station: usize) -> &[i16]
        requires { station < station_count }
        ensures { result.now ≡ station_in self.now.effects station }
    {
        let from = station * STATION_EFFECTS;
        &self.effects[from..from + STATION_EFFECTS]
    }

    // The sums of a station.
    fn station_sums(&self, station: usize) -> &StationSums
        requires { station < station_count }
        ensures { result.now ≡ totals_in self.now.sums station }
    {
        &self.sums[station]
    }

    // The first capacity of a station: 0 where it has none, or there is no such station.
    // Stays: 0 for none, since a sheet's capacities are words of any value.
    #[tactic(auto, unfolding(crate::specs::Sheet::capacity_at))]
    fn first_capacity(&self, station: u8) -> u16
        ensures { result ≡ capacity_at self.now station 0 }
    {
        let held = self.capacities.get(usize::from(station)).copied();
        held.unwrap_or(NO_CAPACITIES).n
    }

    // Tag 06.
    #[tactic(auto, using(crate::proofs::Stations::looks_at_station))]
    pub fn extremes(&self, station: u8, component: u8) -> Result<Answer, Refusal>
        requires { InRange self.now }
        ensures { (as_answer result ≡ unless_due (due_extremes station component) (Answer.Extremes (extremes_at self.now station component))) × ExtremesPromised self.now station component (as_answer result) }
    {
        let component = refusals::check_extremes(station, component)?;
        let t = usize::from(station);
        let extremes = station::extremes_of(
            self.settings,
            &self.kinds,
            self.station_effects(t),
            self.station_sums(t),
            component,
        );
        Ok(Answer::Extremes(extremes))
    }

    // Tag 07.
    // Stays: beside `extremes`, as each has its own refusals, look and promise.
    #[tactic(auto, using(crate::proofs::Stations::looks_at_capacities))]
    pub fn utilisation(&self, station: u8) -> Result<Answer, Refusal>
        requires { InRange self.now }
        ensures { (as_answer result ≡ unless_due (due_utilisation self.now station) (Answer.Utilisation (utilisation_at self.now station))) × UtilisationPromised self.now station (as_answer result) }
    {
        refusals::check_utilisation(station, self.first_capacity(station))?;
        let t = usize::from(station);
        let utilised = station::utilisation_of(
            self.settings,
            &self.kinds,
            self.station_effects(t),
            self.station_sums(t),
            self.capacities[t],
        );
        Ok(Answer::Utilisation(utilised))
    }

    // A field by value: what it answers, and the sheet after it.
    fn after<F: FnOnce(&mut Sheet) -> Result<Answer, Refusal>>(mut self, field: F) -> Answered
        requires { FnOnceTakesAtMut F.FnOnce field self }
        ensures { (replied : _) × FnOnceReturnsAtMut F.FnOnce field self replied result.sheet × (result ≡ answered replied result.sheet) }
    {
        let replied = field(&mut self);
        Answered {
            answer: Answer::from(replied),
            sheet: self,
        }
    }

    // Tag 01.
    // Stays: each field by value too, here and below, a rule of the project (docs/DECISIONS.md).
    pub fn restart(self, method: u8, live: u8, zone: u8) -> Answered
        ensures { result ≡ edited (unless_refused (due_settings method live zone) self (fresh (settings_of method live zone))) }
    {
        self.after(|s| s.restart_in(method, live, zone))
    }

    // Tag 02.
    pub fn fill(self, case: u8, kind: u8) -> Answered
        ensures { InRange self → result ≡ edited (unless_refused (due_fill self case kind) self (with_kind self case kind)) }
    {
        self.after(|s| s.fill_in(case, kind))
    }

    // Tag 03.
    pub fn replace_effects(self, case: u8, station: u8, words: EffectWords) -> Answered
        requires { InRange self }
        ensures { result ≡ edited (unless_refused (due_effects self case station words.n words.y words.z) self (with_effects self case station (signed16 words.n) (signed16 words.y) (signed16 words.z))) }
    {
        self.after(|s| s.replace_effects_in(case, station, words))
    }

    // Tag 04.
    pub fn empty(self, case: u8) -> Answered
        requires { InRange self }
        ensures { result ≡ edited (unless_refused (due_empty self case) self (with_kind self case 0)) }
    {
        self.after(|s| s.empty_in(case))
    }

    // Tag 05.
    pub fn replace_capacities(self, station: u8, capacities: Capacities) -> Answered
        ensures { result ≡ edited (unless_refused (due_capacities station capacities.n capacities.y capacities.z) self (with_capacities self station capacities.n capacities.y capacities.z)) }
    {
        self.after(|s| s.replace_capacities_in(station, capacities))
    }

    // Tag 08.
    pub fn switch_ice(self, byte: u8) -> Answered
        ensures { result ≡ edited (unless_refused (due_switch byte) self (with_switch self byte)) }
    {
        self.after(|s| s.switch_ice_in(byte))
    }

    // Tag 09.
    pub fn set_straining(self, factor: u16) -> Answered
        ensures { result ≡ edited (unless_refused (due_factor self factor) self (with_straining self factor)) }
    {
        self.after(|s| s.set_straining_in(factor))
    }

    // Tag 60: a sheet holds no names.
    pub fn name_case(self, case: u8) -> Answered
        ensures { result ≡ edited (unless_refused (due_name case) self self) }
    {
        self.after(|s| s.name_case_in(case))
    }

    // Tag 06.
    pub fn look_extremes(self, station: u8, component: u8) -> Answered
        requires { InRange self }
        ensures { (result ≡ looked_extremes self station component) × ExtremesPromised self station component result.answer }
    {
        self.after(|s| s.extremes(station, component))
    }

    // Tag 07.
    pub fn look_utilisation(self, station: u8) -> Answered
        requires { InRange self }
        ensures { (result ≡ looked_utilisation self station) × UtilisationPromised self station result.answer }
    {
        self.after(|s| s.utilisation(station))
    }
}
