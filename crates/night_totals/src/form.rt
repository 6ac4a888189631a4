// A text of a fixed form, taken byte by byte. A form is the text with `#` where a number stands: digits, no more than
// sixteen, and no zero in front. `None` is a text that is not of the form.
ghost use Rattle.std.specs.Prelude.{◌≡◌, ◌<◌};
ghost use Rattle.night_totals.specs.Filling.{blank_of, numbered_at, passed_of, longer_of, digit_of};
ghost use Rattle.night_totals.specs.Filling.{stored_of, behind_of, number_of, filled_of};

use crate::filling::{Filling, Number};
use std::num::wrapping_add_usize;

pub const SLOT: u8 = b'#';

// The most numbers that a form has.
pub const MOST_VALUES: usize = 16;

// A number below it may have one digit more.
pub const SHORT: u64 = 1_000_000_000_000_000;

// Nothing of the form has come yet.
pub fn blank() -> Filling
    ensures { result ≡ blank_of }
{
    Filling {
        at: 0,
        number: Number::Awaited(0),
        filled: 0,
        values: [0u64; 16],
    }
}

// Whether a number stands at a place of the form.
#[tactic(auto, unfolding(crate::specs::Filling::numbered_at))]
fn numbered(form: &[u8], at: usize) -> bool
    ensures { result ≡ numbered_at form.now at }
{
    at < form.len() && form[at] == SLOT
}

// The byte that stands in the form.
#[tactic(auto, unfolding(crate::specs::Filling::passed_of, words::specs::Loop::pick))]
fn passed(form: &[u8], filling: Filling, byte: u8) -> Option<Filling>
    ensures { result ≡ passed_of form.now filling byte }
{
    if form.len() <= filling.at {
        return None;
    }
    if form[filling.at] != byte {
        return None;
    }
    Some(Filling {
        at: filling.at + 1,
        ..filling
    })
}

// One digit more of a number, or the first one.
#[tactic(auto, unfolding(crate::specs::Filling::longer_of, words::specs::Loop::pick))]
fn longer(number: Number, figure: u64) -> Option<u64>
    requires { figure < 10 }
    ensures { result ≡ longer_of number figure }
{
    let Number::Begun(value) = number else {
        return Some(figure);
    };
    if value == 0 {
        return None;
    }
    if SHORT <= value {
        return None;
    }
    Some(value * 10 + figure)
}

// One digit more of the number that stands here.
#[tactic(auto, unfolding(crate::specs::Filling::digit_of, words::specs::Loop::pick))]
fn digit(filling: Filling, figure: u64) -> Option<Filling>
    requires { figure < 10 }
    ensures { result ≡ digit_of filling figure }
{
    let value = longer(filling.number, figure)?;
    Some(Filling {
        number: Number::Begun(value),
        ..filling
    })
}

// The number has ended.
#[tactic(auto, unfolding(crate::specs::Filling::stored_of, words::specs::Loop::pick))]
fn stored(filling: Filling, value: u64) -> Option<Filling>
    ensures { result ≡ stored_of filling value }
{
    let filled = filling.filled;
    let mut values = filling.values;
    if MOST_VALUES <= filled {
        return None;
    }
    values[filled] = value;
    Some(Filling {
        at: wrapping_add_usize(filling.at, 1),
        number: Number::Awaited(0),
        filled: filled + 1,
        values: values,
    })
}

// A byte behind the number, where there was one.
#[tactic(auto, unfolding(crate::specs::Filling::behind_of, words::specs::Loop::pick))]
fn behind(form: &[u8], filling: Filling, byte: u8) -> Option<Filling>
    ensures { result ≡ behind_of form.now filling byte }
{
    let Number::Begun(value) = filling.number else {
        return None;
    };
    let next = stored(filling, value)?;
    passed(form, next, byte)
}

#[tactic(auto, unfolding(crate::specs::Filling::number_of, words::specs::Loop::pick))]
fn at_number(form: &[u8], filling: Filling, byte: u8) -> Option<Filling>
    ensures { result ≡ number_of form.now filling byte }
{
    match byte {
        b'0'..=b'9' => digit(filling, (byte - b'0') as u64),
        _ => behind(form, filling, byte),
    }
}

// One byte more.
#[tactic(auto, unfolding(crate::specs::Filling::filled_of, words::specs::Loop::pick))]
pub fn filled(form: &[u8], filling: Filling, byte: u8) -> Option<Filling>
    ensures { result ≡ filled_of form.now filling byte }
{
    if byte == SLOT {
        return None;
    }
    if numbered(form, filling.at) {
        return at_number(form, filling, byte);
    }
    passed(form, filling, byte)
}
