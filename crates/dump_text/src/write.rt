// What is written of a dump.
ghost use Rattle.std.specs.Prelude.{◌≡◌, ◌++◌, IfOk, OnOk, OnErr};
ghost use Rattle.dump_text.specs.Written.{HasMore, config_line, format_word, form_line, head_lines, row_lines, text_of};

use crate::form::Form;
use crate::items::push_line;
use failure::NoMemory;
use item::{Format, Formats, Item};
use std::alloc::{AllocError, Global};

fn form_line(form: Form) -> &'static [u8]
    ensures { result.now ≡ form_line form }
{
    match form {
        Form::Print => b"Format=print",
        Form::Hex => b"Format=hex",
    }
}

fn format_word(format: Format) -> &'static [u8]
    ensures { result.now ≡ format_word format }
{
    match format {
        Format::S => b"S",
        Format::U => b"u",
    }
}

fn push_config(out: &mut Vec<u8>, formats: Formats) -> Result<(), AllocError>
    ensures { OnOk result (out.new.items ≡ out.old.items ++ config_line formats) }
{
    out.extend_from_slice(b"key_format=")?;
    out.extend_from_slice(format_word(formats.key))?;
    out.extend_from_slice(b",value_format=")?;
    out.extend_from_slice(format_word(formats.value))?;
    Ok(())
}

/// The six lines before the rows of a dump, each with its newline, for the table of this name.
///
/// # Errors
///
/// Memory is wanted.
pub fn dump_head(
    alloc: Global,
    form: Form,
    name: &[u8],
    formats: Formats,
) -> Result<Vec<u8>, NoMemory>
    ensures { IfOk result (λ head. head.items ≡ text_of (head_lines form name.now formats)) }
{
    let mut head = Vec::new(alloc);
    head.extend_from_slice(b"WiredTiger Dump (row store 1)\n")?;
    head.extend_from_slice(form_line(form))?;
    head.extend_from_slice(b"\nHeader\ntable:")?;
    head.extend_from_slice(name)?;
    head.extend_from_slice(b"\n")?;
    push_config(&mut head, formats)?;
    head.extend_from_slice(b"\nData\n")?;
    Ok(head)
}

// Puts the two lines of a row behind what is written; where memory is wanted, a part of them.
fn push_lines(
    alloc: Global,
    out: &mut Vec<u8>,
    form: Form,
    key: &[u8],
    value: &[u8],
) -> Result<(), NoMemory>
    ensures row { OnOk result (out.new.items ≡ out.old.items ++ text_of (row_lines form (key.now, value.now))) }
    ensures more { HasMore out.old.items out.new.items }
{
    push_line(alloc, out, form, key)?;
    push_line(alloc, out, form, value)
}

/// Puts the two lines of a row behind what is written, each with its newline; nothing where memory
/// is wanted. `O(bytes)`.
///
/// # Errors
///
/// Memory is wanted.
pub fn push_row(
    alloc: Global,
    out: &mut Vec<u8>,
    form: Form,
    key: &Item,
    value: &Item,
) -> Result<(), NoMemory>
    ensures row { OnOk result (out.new.items ≡ out.old.items ++ text_of (row_lines form (key.now, value.now))) }
    ensures same { OnErr result (out.new.items ≡ out.old.items) }
{
    push_pair(alloc, out, form, key.as_bytes(), value.as_bytes())
}

/// The same of a key and a value that are lent.
///
/// # Errors
///
/// Memory is wanted.
pub fn push_pair(
    alloc: Global,
    out: &mut Vec<u8>,
    form: Form,
    key: &[u8],
    value: &[u8],
) -> Result<(), NoMemory>
    ensures row { OnOk result (out.new.items ≡ out.old.items ++ text_of (row_lines form (key.now, value.now))) }
    ensures same { OnErr result (out.new.items ≡ out.old.items) }
{
    let before = out.len();
    match push_lines(alloc, out, form, key, value) {
        Ok(()) => Ok(()),
        Err(wanted) => {
            out.truncate(before);
            Err(wanted)
        }
    }
}
