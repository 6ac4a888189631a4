// The settings of a sheet and its two counts, as plain numbers.
ghost use Rattle.std.specs.Prelude.{◌≡◌};
ghost use Rattle.sheet.specs.Reader.{over};
ghost use Rattle.export_sheet.specs.Border.{heading_given, setting_words, count_words};

use sheet::sheet::{Heading, rule_from, rule_number};

#[tactic(auto, unfolding(crate::specs::Border::heading_given))]
pub fn heading_from(settings: &[u64; 6], counts: &[usize; 2]) -> Heading
    ensures { result ≡ heading_given settings.now counts.now }
{
    Heading {
        x0: settings[0],
        xend: settings[1],
        rtol: settings[2],
        atol: settings[3],
        max_steps: settings[4],
        rule: rule_from(settings[5]),
        species: counts[0],
        reactions: counts[1],
    }
}

pub fn put_settings(heading: Heading, settings: &mut [u64; 6])
    ensures { settings.new ≡ over (setting_words heading) settings.old }
{
    *settings = [
        heading.x0,
        heading.xend,
        heading.rtol,
        heading.atol,
        heading.max_steps,
        rule_number(heading.rule),
    ];
}

pub fn put_counts(heading: Heading, counts: &mut [usize; 2])
    ensures { counts.new ≡ over (count_words heading) counts.old }
{
    *counts = [heading.species, heading.reactions];
}
