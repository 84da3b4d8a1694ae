// Numbers in decimal, and stamps in hexadecimal.
ghost use Rattle.std.specs.Prelude.{◌≡◌, ◌<◌, ◌≤◌, length, IfSome, option_map};
ghost use Rattle.script_text.specs.Numbers.{number_of, number_from, stamp_of, stamp_from, hex_value, given_of, either_of, both_of, stamps_of};
ghost use Rattle.script_text.specs.Words.{words_behind};

use crate::words::{after, none, one, two};

// The number from `least` to `most` that is written in decimal, without a zero in front.
pub(crate) fn number(digits: &[u8], least: u32, most: u32) -> Option<u32>
    requires { most < 2000 }
    ensures number { result ≡ number_of least most digits.now }
    ensures least { IfSome result (λ n. least ≤ n) }
    ensures most { IfSome result (λ n. n ≤ most) }
{
    let (first, _) = digits.split_first()?;
    if *first == b'0' {
        return None;
    }
    let value = number_from(digits, most)?;
    if least <= value { Some(value) } else { None }
}

fn number_from(digits: &[u8], most: u32) -> Option<u32>
    requires { most < 2000 }
    ensures number { result ≡ number_from most 0 digits.now }
    ensures most { IfSome result (λ n. n ≤ most) }
{
    let mut value = 0;
    for digit in digits {
        if *digit < b'0' || *digit > b'9' {
            return None;
        }
        value = 10 * value + (*digit - b'0') as u32;
        if value > most {
            return None;
        }
    }
    Some(value)
}

fn hex_value(digit: u8) -> Option<u64>
    ensures value { result ≡ hex_value digit }
    ensures small { IfSome result (λ v. v < 16) }
{
    match digit {
        b'0'..=b'9' => Some(digit as u64 - 48),
        b'a'..=b'f' => Some(digit as u64 - 87),
        _ => None,
    }
}

fn stamp_from(digits: &[u8]) -> Option<u64>
    requires { length digits.now ≤ 16 }
    ensures { result ≡ stamp_from 0 digits.now }
{
    let mut value = 0;
    for digit in digits {
        value = 16 * value + hex_value(*digit)?;
    }
    Some(value)
}

// The stamp of 1 to 16 lower-case hexadecimal digits.
pub(crate) fn stamp(digits: &[u8]) -> Option<u64>
    ensures { result ≡ stamp_of digits.now }
{
    if digits.is_empty() || digits.len() > 16 {
        return None;
    }
    stamp_from(digits)
}

// The stamp of a word that is a name and digits.
pub(crate) fn given(word: &[u8], name: &[u8]) -> Option<u64>
    ensures { result ≡ given_of name.now word.now }
{
    stamp(after(word, name)?)
}

/// Two stamps, each of which may be absent.
#[derive(Clone, Copy)]
pub(crate) struct Stamps {
    pub(crate) first: Option<u64>,
    pub(crate) second: Option<u64>,
}

// The stamp of one word, behind one of two names.
fn either(word: &[u8], first: &[u8], second: &[u8]) -> Option<Stamps>
    ensures { result ≡ either_of first.now second.now word.now }
{
    match given(word, first) {
        Some(stamp) => Some(Stamps {
            first: Some(stamp),
            second: None,
        }),
        None => Some(Stamps {
            first: None,
            second: Some(given(word, second)?),
        }),
    }
}

// The stamps of two words, each behind its name.
fn both(one: &[u8], other: &[u8], first: &[u8], second: &[u8]) -> Option<Stamps>
    ensures { result ≡ both_of first.now second.now one.now other.now }
{
    Some(Stamps {
        first: Some(given(one, first)?),
        second: Some(given(other, second)?),
    })
}

// The stamps of none, one or two words, behind their names in this order.
pub(crate) fn stamps_in(text: Option<&[u8]>, first: &[u8], second: &[u8]) -> Option<Stamps>
    ensures { result ≡ stamps_of first.now second.now (words_behind (option_map (λ t. t.now) text.entry)) }
{
    if none(text) {
        return Some(Stamps {
            first: None,
            second: None,
        });
    }
    match one(text) {
        Some(word) => either(word, first, second),
        None => {
            let (word, other) = two(text)?;
            both(word, other, first, second)
        }
    }
}
