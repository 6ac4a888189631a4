// What was read, put into lent memory.
ghost use Rattle.std.specs.Prelude.{◌≤◌, ◌≡◌};
ghost use Rattle.words.specs.Loop.{loop};
ghost use Rattle.sheet.specs.Fill.{placed, rate_at, species_at};

// Five numbers stand for a reaction.
pub fn fill_rates(listed: &[u64; 320], n: usize, rates: &mut [u64; 64])
    requires { n ≤ 64 }
    ensures { rates.new ≡ loop (placed (rate_at listed.now)) 0 n rates.old }
{
    for i in 0..n {
        rates[i] = listed[i * 5];
    }
}

pub fn fill_species(listed: &[u64; 320], n: usize, species: &mut [usize; 256])
    requires { n ≤ 256 }
    ensures { species.new
        ≡ loop (placed (species_at listed.now)) 0 n species.old }
{
    for i in 0..n {
        species[i] = listed[i / 4 * 5 + i % 4 + 1] as usize;
    }
}
