// A sheet is judged first, into memory of the reader's own. Only what is right is put into lent memory.
ghost use Rattle.std.specs.Prelude.{◌≤◌, ◌≡◌, IfErr};
ghost use Rattle.sheet.specs.Sheet.{rule_number};
ghost use Rattle.sheet.specs.Reader.{sheet_of, judged_in, ended_of, rule_from, heading_from};
ghost use Rattle.sheet.specs.Reader.{read_of, answer_of, amounts_left, rates_left, species_left};

use crate::fill::{fill_rates, fill_species};
use crate::kind::Phase;
use crate::numbers::{Progress, numbers};
use state::settings::Rule;

// No sheet has more bytes.
pub const MOST_BYTES: usize = 4096;

// The settings of a sheet, floats by their bits, and how many species and reactions it has.
#[derive(Clone, Copy)]
pub struct Heading {
    pub x0: u64,
    pub xend: u64,
    pub rtol: u64,
    pub atol: u64,
    pub max_steps: u64,
    pub rule: Rule,
    pub species: usize,
    pub reactions: usize,
}

// What is wrong with bytes that are no sheet: the line that is the first wrong one, or that there are too many.
#[derive(Clone, Copy)]
pub enum SheetError {
    Malformed(usize),
    TooLong,
}

// The rule of a number, of which a sheet has 0 and 1 alone; and the number of a rule.
#[tactic(auto, unfolding(crate::specs::Reader::rule_from, words::specs::Loop::pick))]
pub fn rule_from(value: u64) -> Rule
    ensures { result ≡ rule_from value }
{
    if value == 0 { Rule::Rust } else { Rule::Book }
}

pub fn rule_number(rule: Rule) -> u64
    ensures { result ≡ rule_number rule }
{
    match rule {
        Rule::Rust => 0,
        Rule::Book => 1,
    }
}

// Bytes behind the last number are wrong.
#[tactic(auto, unfolding(crate::specs::Reader::ended_of, words::specs::Loop::pick))]
fn ended(last: Progress) -> Result<(), usize>
    ensures { result ≡ ended_of last.entry }
{
    if last.rest.is_empty() {
        Ok(())
    } else {
        Err(last.lines)
    }
}

// Reads the four parts in order. Where a line is wrong, tells how many have ended before it.
fn judge(
    bytes: &[u8],
    settings: &mut [u64; 8],
    amounts: &mut [u64; 32],
    count: &mut [u64; 1],
    listed: &mut [u64; 320],
) -> Result<(), usize>
    ensures result_after { judged_in settings.new amounts.new count.new listed.new result
        ≡ sheet_of bytes.now }
    ensures lines_bound { IfErr result (λ lines. lines ≤ 1000) }
{
    let start = Progress {
        rest: bytes,
        lines: 0,
    };
    let head = numbers(start, Phase::Settings, 0, settings)?;
    let species = settings[7];
    let given = numbers(head, Phase::Amounts, 0, &mut amounts[..species as usize])?;
    let counted = numbers(given, Phase::Count, 0, count)?;
    let numbered = count[0] as usize * 5;
    let last = numbers(counted, Phase::Reactions, species, &mut listed[..numbered])?;
    ended(last)
}

#[tactic(auto, unfolding(crate::specs::Reader::heading_from))]
fn heading_from(settings: &[u64; 8], reactions: usize) -> Heading
    ensures { result ≡ heading_from settings.now reactions }
{
    Heading {
        x0: settings[1],
        xend: settings[2],
        rtol: settings[3],
        atol: settings[4],
        max_steps: settings[5],
        rule: rule_from(settings[6]),
        species: settings[7] as usize,
        reactions,
    }
}

// Reads a sheet: its heading, and into lent memory its amounts, its rates, and four species for each reaction. Other
// entries, and all of them after a refusal, stay as they were.
pub fn read(
    bytes: &[u8],
    amounts: &mut [u64; 32],
    rates: &mut [u64; 64],
    species: &mut [usize; 256],
) -> Result<Heading, SheetError>
    ensures value { result ≡ answer_of (read_of bytes.now) }
    ensures amounts_after { amounts.new ≡ amounts_left (read_of bytes.now) amounts.old }
    ensures rates_after { rates.new ≡ rates_left (read_of bytes.now) rates.old }
    ensures species_after { species.new ≡ species_left (read_of bytes.now) species.old }
{
    if MOST_BYTES < bytes.len() {
        return Err(SheetError::TooLong);
    }
    let mut settings = [0u64; 8];
    let mut given = [0u64; 32];
    let mut count = [0u64; 1];
    let mut listed = [0u64; 320];
    judge(bytes, &mut settings, &mut given, &mut count, &mut listed).map_err(
        |lines| SheetError::Malformed(lines + 1),
    )?;
    let n = count[0] as usize;
    let filled = settings[7] as usize;
    amounts[..filled].copy_from_slice(&given[..filled]);
    fill_rates(&listed, n, rates);
    fill_species(&listed, n * 4, species);
    Ok(heading_from(&settings, n))
}
