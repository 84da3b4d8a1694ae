// Items as a dump writes them.
ghost use Rattle.std.specs.Prelude.{◌≡◌, ◌++◌, ◌∷◌, [], ◌↔◌, IfOk, IfSome, IfNone, IsTrue, OnOk, ℕ, List, false, option_map};
ghost use Rattle.dump_text.specs.Items.{item_line, item_on, HasFormat, IsItemLine, WritesItem, pair_of};
ghost use Rattle.dump_text.specs.Written.{HasMore};
ghost use Rattle.dump_text.specs.Zeros.{zero_behind};

use crate::escape::push_escaped;
use crate::form::Form;
use crate::unescape::{ends_with_zero as text_ends_with_zero, item_in, value_of_digit};
use failure::NoMemory;
use hex::FromHexError;
use item::{Format, Item};
use std::alloc::Global;

// Puts the line of an item behind what is written, with its newline; where memory is wanted, a part
// of it.
pub(crate) fn push_line(
    alloc: Global,
    out: &mut Vec<u8>,
    form: Form,
    item: &[u8],
) -> Result<(), NoMemory>
    ensures line { OnOk result (out.new.items ≡ out.old.items ++ item_line form item.now ++ 10 ∷ []) }
    ensures more { HasMore out.old.items out.new.items }
{
    match form {
        Form::Print => push_escaped(out, item)?,
        Form::Hex => out.extend_from_slice(hex::encode(alloc, item)?.as_bytes())?,
    }
    out.extend_from_slice(b"\n")?;
    Ok(())
}

// The bytes that hexadecimal digits of either case write.
fn decoded(alloc: Global, line: &[u8]) -> Result<Option<Item>, NoMemory>
    ensures { IfOk result (λ r. r ≡ item_on Form.Hex line.now) }
{
    match hex::decode(alloc, line) {
        Ok(bytes) => Ok(Some(Item::new(bytes))),
        Err(FromHexError::OutOfMemory) => Err(NoMemory),
        Err(_) => Ok(None),
    }
}

// The item that a line writes; none where the line is no escape text, or no hexadecimal.
pub(crate) fn item_on(alloc: Global, form: Form, line: &[u8]) -> Result<Option<Item>, NoMemory>
    ensures { IfOk result (λ r. r ≡ item_on form line.now) }
{
    match form {
        Form::Print => item_in(alloc, line),
        Form::Hex => decoded(alloc, line),
    }
}

// Whether a table of the format may have the item.
fn has_format(format: Format, item: &Item) -> bool
    ensures { IsTrue result ↔ HasFormat format item.now }
{
    match format {
        Format::S => ends_with_zero(item.as_bytes()),
        Format::U => true,
    }
}

fn ends_with_zero(item: &[u8]) -> bool
    ensures { IsTrue result ↔ ((front : List ℕ) × (item.now ≡ front ++ 0 ∷ [])) }
{
    match item.split_last() {
        None => false,
        Some((last, _)) => *last == 0,
    }
}

// The item that a line writes, for a table of the format.
pub(crate) fn item_of(
    alloc: Global,
    form: Form,
    format: Format,
    line: &[u8],
) -> Result<Option<Item>, NoMemory>
    ensures item { IfOk result (λ r. IfSome r (λ item. IsItemLine form format item line.now)) }
    ensures none { IfOk result (λ r. IfNone r ((item : List ℕ) → IsItemLine form format item line.now → ⊥)) }
{
    let Some(item) = item_on(alloc, form, line)? else {
        return Ok(None);
    };
    if has_format(format, &item) {
        Ok(Some(item))
    } else {
        Ok(None)
    }
}

// The number of two hexadecimal digits.
fn byte_of(high: u8, low: u8) -> Option<u8>
    ensures { result ≡ pair_of high low }
{
    Some(value_of_digit(high)? * 16 + value_of_digit(low)?)
}

// Whether the bytes that hexadecimal digits write end with a zero; none where they write none.
fn digits_end_with_zero(line: &[u8]) -> Option<bool>
    ensures { result ≡ option_map (zero_behind false) (item_on Form.Hex line.now) }
{
    let mut zero = false;
    let mut rest = line;
    'pairs: loop {
        match rest {
            [] => return Some(zero),
            [_] => return None,
            [high, low, behind @ ..] => {
                let Some(b) = byte_of(*high, *low) else {
                    return None;
                };
                zero = b == 0;
                rest = behind;
            }
        }
    }
}

// Whether the item that a line writes ends with a zero byte; none where the line writes none.
fn zero_at_end(form: Form, line: &[u8]) -> Option<bool>
    ensures { result ≡ option_map (zero_behind false) (item_on form line.now) }
{
    match form {
        Form::Print => text_ends_with_zero(line),
        Form::Hex => digits_end_with_zero(line),
    }
}

// Whether a line writes an item that a table of the format may have. `O(bytes)`, and no allocation.
pub(crate) fn is_item_line(form: Form, format: Format, line: &[u8]) -> bool
    ensures { IsTrue result ↔ WritesItem form format line.now }
{
    let Some(zero) = zero_at_end(form, line) else {
        return false;
    };
    match format {
        Format::S => zero,
        Format::U => true,
    }
}
