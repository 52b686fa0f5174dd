#![tactic(auto)]

// The table of tags: what a field of each tag does to the sheet, and its answer.
ghost use Rattle.std.specs.Prelude.{◌≡◌};
ghost use Rattle.headers.specs.Tags.{number_of_tag};
ghost use Rattle.sheet.specs.Looks.{answered};
ghost use Rattle.sheet.specs.Range.{InRange};
ghost use Rattle.tags.specs.Run.{run_of};

use headers::Tag;
use refusals::{EffectWords, Refusal};
use sheet::{Answer, Sheet};
use standard::Capacities;

// What a field of the tag does.
pub fn run(sheet: &mut Sheet, tag: Tag, body: &[u8]) -> Result<Answer, Refusal>
    requires { InRange sheet.old }
    ensures { answered result sheet.new ≡ run_of sheet.old (number_of_tag tag) body.now }
{
    let first = wire::byte(body, 0);
    let second = wire::byte(body, 1);
    match tag {
        Tag::Restart => sheet.restart_in(first, second, wire::byte(body, 2)),
        Tag::Fill => sheet.fill_in(first, second),
        Tag::Effects => sheet.replace_effects_in(
            first,
            second,
            EffectWords {
                n: wire::word(body, 2),
                y: wire::word(body, 4),
                z: wire::word(body, 6),
            },
        ),
        Tag::Empty => sheet.empty_in(first),
        Tag::Capacities => sheet.replace_capacities_in(
            first,
            Capacities {
                n: wire::word(body, 1),
                y: wire::word(body, 3),
                z: wire::word(body, 5),
            },
        ),
        Tag::Extremes => sheet.extremes(first, second),
        Tag::Utilisation => sheet.utilisation(first),
        Tag::Ice => sheet.switch_ice_in(first),
        Tag::Straining => sheet.set_straining_in(wire::word(body, 0)),
        Tag::Name => sheet.name_case_in(first),
    }
}
