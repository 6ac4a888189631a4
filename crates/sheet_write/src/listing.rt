// The numbers of a sheet in their order, out of the memory that reading fills.
ghost use Rattle.std.specs.Prelude.{◌*◌, ◌≤◌, ◌≡◌, length, take};
ghost use Rattle.sheet_write.specs.Memory.{settings_in, listed_in};

use sheet::sheet::{Heading, rule_number};

// The settings, with their count before them and the number of species behind.
pub fn settings_of(heading: Heading) -> [u64; 8]
    ensures { result ≡ settings_in heading }
{
    let rule = heading.rule;
    [
        6,
        heading.x0,
        heading.xend,
        heading.rtol,
        heading.atol,
        heading.max_steps,
        rule_number(rule),
        heading.species as u64,
    ]
}

// Five numbers to a reaction: its rate and its four species.
pub fn list_reactions(rates: &[u64; 64], species: &[usize; 256], n: usize, listed: &mut [u64])
    requires { (n ≤ 64) × (length listed.old ≡ 320) }
    ensures { take (n * 5) listed.new ≡ listed_in n rates.now species.now }
{
    for i in 0..n {
        listed[i * 5] = rates[i];
        listed[i * 5 + 1] = species[i * 4] as u64;
        listed[i * 5 + 2] = species[i * 4 + 1] as u64;
        listed[i * 5 + 3] = species[i * 4 + 2] as u64;
        listed[i * 5 + 4] = species[i * 4 + 3] as u64;
    }
}
