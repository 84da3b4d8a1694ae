// Items as printable texts.

ghost use Rattle.std.specs.Prelude.{◌≡◌, ◌++◌, ◌<◌, ◌≤◌, length, take, drop, IfOk, IfSome, option_map};
ghost use Rattle.item.specs.Escapes.{escaped, escape_byte, unescaped, digit, digit_value, step_to, reads_on, IsSmall, EscapesReadBack};
ghost use Rattle.item.specs.declared.escapes.Reading.TheVariants.{AtByte, AfterBackslash, AfterDigit};

use crate::item::Item;
use failure::NoMemory;
use std::alloc::{AllocError, Global};

/// What is escaped and then read is the item again.
pub fn escapes_read_back()
    ensures { EscapesReadBack }
{}

fn digit_of(number: u8) -> u8
    requires { number < 16 }
    ensures { result ≡ digit number }
{
    if number < 10 {
        48 + number
    } else {
        87 + number
    }
}

fn push_escaped(out: &mut Vec<u8>, b: u8) -> Result<(), AllocError>
    ensures { IfOk result (λ _. out.new.items ≡ out.old.items ++ escape_byte b) }
{
    if b == b'\\' {
        out.push(b)?;
        out.push(b)?;
    } else if b >= 32 && b <= 126 {
        out.push(b)?;
    } else {
        out.push(b'\\')?;
        out.push(digit_of(b / 16))?;
        out.push(digit_of(b % 16))?;
    }
    Ok(())
}

// How many bytes at the front are their own escapes.
fn plain_front(bytes: &[u8]) -> usize
    ensures within { result ≤ length bytes.now }
    ensures plain { escaped (take result bytes.now) ≡ take result bytes.now }
{
    for (i, b) in bytes.iter().enumerate() {
        if *b < 32 || *b > 126 || *b == b'\\' {
            return i;
        }
    }
    bytes.len()
}

/// The item as a printable text: bytes 0x20 to 0x7e are themselves but for a backslash, which is
/// two; any other byte is a backslash and two lower-case hexadecimal digits. `O(bytes)`, and one
/// allocation where the text is the item's bytes.
pub fn escape(alloc: Global, item: &Item) -> Result<Vec<u8>, NoMemory>
    ensures { IfOk result (λ r. r.items ≡ escaped item.now) }
{
    let mut rest = item.as_bytes();
    let mut out = Vec::with_capacity(alloc, rest.len())?;
    loop {
        let (front, others) = rest.split_at(plain_front(rest));
        out.extend_from_slice(front)?;
        match others.split_first() {
            None => return Ok(out),
            Some((b, behind)) => {
                push_escaped(&mut out, *b)?;
                rest = behind;
            }
        }
    }
}

/// How far a text is read.
#[derive(Clone, Copy)]
enum Reading {
    /// At a byte, or at the end of one.
    AtByte,
    /// After a backslash.
    AfterBackslash,
    /// After a backslash and a digit of this number.
    AfterDigit(u8),
}

fn value_of_digit(b: u8) -> Option<u8>
    ensures value { result ≡ digit_value b }
    ensures small { IfSome result (λ d. d < 16) }
{
    match b {
        b'0'..=b'9' => Some(b - 48),
        b'a'..=b'f' => Some(b - 87),
        b'A'..=b'F' => Some(b - 55),
        _ => None,
    }
}

// Takes one byte of a text; none where it may not stand there.
fn take_byte(out: &mut Vec<u8>, reading: Reading, b: u8) -> Result<Option<Reading>, AllocError>
    requires { IsSmall reading }
    ensures next { IfOk result (λ next. next ≡ option_map (λ now. now.0) (step_to reading b)) }
    ensures bytes { IfOk result (λ _. IfSome (step_to reading b) (λ now. out.new.items ≡ out.old.items ++ now.1)) }
    ensures small { IfOk result (λ next. IfSome next IsSmall) }
{
    match reading {
        Reading::AtByte => take_plain(out, b),
        Reading::AfterBackslash => take_after_backslash(out, b),
        Reading::AfterDigit(high) => take_after_digit(out, high, b),
    }
}

fn take_plain(out: &mut Vec<u8>, b: u8) -> Result<Option<Reading>, AllocError>
    ensures next { IfOk result (λ next. next ≡ option_map (λ now. now.0) (step_to AtByte b)) }
    ensures bytes { IfOk result (λ _. IfSome (step_to AtByte b) (λ now. out.new.items ≡ out.old.items ++ now.1)) }
    ensures small { IfOk result (λ next. IfSome next IsSmall) }
{
    if b == b'\n' {
        return Ok(None);
    }
    if b == b'\\' {
        return Ok(Some(Reading::AfterBackslash));
    }
    out.push(b)?;
    Ok(Some(Reading::AtByte))
}

fn take_after_backslash(out: &mut Vec<u8>, b: u8) -> Result<Option<Reading>, AllocError>
    ensures next { IfOk result (λ next. next ≡ option_map (λ now. now.0) (step_to AfterBackslash b)) }
    ensures bytes { IfOk result (λ _. IfSome (step_to AfterBackslash b) (λ now. out.new.items ≡ out.old.items ++ now.1)) }
    ensures small { IfOk result (λ next. IfSome next IsSmall) }
{
    if b == b'\\' {
        out.push(b)?;
        return Ok(Some(Reading::AtByte));
    }
    match value_of_digit(b) {
        None => Ok(None),
        Some(high) => Ok(Some(Reading::AfterDigit(high))),
    }
}

fn take_after_digit(out: &mut Vec<u8>, high: u8, b: u8) -> Result<Option<Reading>, AllocError>
    requires { high < 16 }
    ensures next { IfOk result (λ next. next ≡ option_map (λ now. now.0) (step_to (AfterDigit high) b)) }
    ensures bytes { IfOk result (λ _. IfSome (step_to (AfterDigit high) b) (λ now. out.new.items ≡ out.old.items ++ now.1)) }
    ensures small { IfOk result (λ next. IfSome next IsSmall) }
{
    match value_of_digit(b) {
        None => Ok(None),
        Some(low) => {
            out.push(16 * high + low)?;
            Ok(Some(Reading::AtByte))
        }
    }
}

// How many bytes at the front of a text are themselves.
fn plain_text(text: &[u8]) -> usize
    ensures within { result ≤ length text.now }
    ensures plain { unescaped text.now ≡ option_map (λ bytes. take result text.now ++ bytes) (unescaped (drop result text.now)) }
{
    for (i, b) in text.iter().enumerate() {
        if *b == b'\n' || *b == b'\\' {
            return i;
        }
    }
    text.len()
}

// Copies the bytes that are themselves, where the text is at a byte, and gives the rest of it.
fn copy_plain<'a>(
    out: &mut Vec<u8>,
    reading: Reading,
    text: &'a [u8],
) -> Result<&'a [u8], AllocError>
    ensures bytes { IfOk result (λ rest. reads_on out.old.items reading text.now ≡ reads_on out.new.items reading rest.now) }
    ensures shorter { IfOk result (λ rest. length rest.now ≤ length text.now) }
{
    match reading {
        Reading::AtByte => {
            let (front, rest) = text.split_at(plain_text(text));
            out.extend_from_slice(front)?;
            Ok(rest)
        }
        _ => Ok(text),
    }
}

/// The item that a text stands for: a backslash with a backslash or with two hexadecimal digits of
/// either case is one byte, any other byte but a newline is itself. None exactly where a backslash
/// is followed by neither form, or a newline stands. `O(text)`, and one allocation.
pub fn unescape(alloc: Global, text: &[u8]) -> Result<Option<Item>, NoMemory>
    ensures { IfOk result (λ r. r ≡ unescaped text.now) }
{
    let mut out = Vec::with_capacity(alloc, text.len())?;
    let mut reading = Reading::AtByte;
    let mut rest = text;
    loop {
        rest = copy_plain(&mut out, reading, rest)?;
        let Some((b, behind)) = rest.split_first() else {
            break;
        };
        match take_byte(&mut out, reading, *b)? {
            None => return Ok(None),
            Some(next) => reading = next,
        }
        rest = behind;
    }
    match reading {
        Reading::AtByte => Ok(Some(Item::new(out))),
        _ => Ok(None),
    }
}
