// The line that tells a reply.
ghost use Rattle.std.specs.Prelude.{◌≡◌, IfOk};
ghost use Rattle.item.specs.Escapes.{escaped};
ghost use Rattle.item_forms.specs.Forms.{written_as};
ghost use Rattle.script_text.specs.Replies.{line_of_reply, line_of_told, line_of_value, line_of_row};

use crate::items::name;
use failure::NoMemory;
use item::{Format, Formats, Item, escape};
use item_forms::written_as;
use std::alloc::Global;
use wt_code::{Answer, text_of};

/// What a line of a script is answered.
#[derive(Drop)]
pub enum Reply {
    /// The call was started.
    Started,
    /// A step was made, and the call goes on.
    More,
    /// The answer of a call.
    Answered(Answer<Item>),
}

fn text(alloc: Global, bytes: &[u8]) -> Result<Vec<u8>, NoMemory>
    ensures { IfOk result (λ line. line.items ≡ bytes.now) }
{
    Ok(bytes.to_vec(alloc)?)
}

// A stored item as it is written, escaped.
fn written(alloc: Global, item: &Item, format: Format) -> Result<Vec<u8>, NoMemory>
    ensures { IfOk result (λ text. text.items ≡ escaped (written_as format item.now)) }
{
    match format {
        Format::S => {
            let front = name(alloc, written_as(format, item.as_bytes()))?;
            escape(alloc, &front)
        }
        Format::U => escape(alloc, item),
    }
}

fn line_of_value(alloc: Global, value: &Item, format: Format) -> Result<Vec<u8>, NoMemory>
    ensures { IfOk result (λ line. line.items ≡ line_of_value format value.now) }
{
    let mut line = text(alloc, b"ok ")?;
    let written = written(alloc, value, format)?;
    line.extend_from_slice(written.as_slice())?;
    Ok(line)
}

fn line_of_row(
    alloc: Global,
    key: &Item,
    value: &Item,
    formats: Formats,
) -> Result<Vec<u8>, NoMemory>
    ensures { IfOk result (λ line. line.items ≡ line_of_row formats key.now value.now) }
{
    let mut line = line_of_value(alloc, key, formats.key)?;
    let written = written(alloc, value, formats.value)?;
    line.extend_from_slice(b" ")?;
    line.extend_from_slice(written.as_slice())?;
    Ok(line)
}

fn line_of_told(alloc: Global, answer: &Answer<Item>, formats: Formats) -> Result<Vec<u8>, NoMemory>
    ensures { IfOk result (λ line. line.items ≡ line_of_told formats answer.now) }
{
    match answer {
        Answer::Done => text(alloc, b"ok"),
        Answer::Value(value) => line_of_value(alloc, value, formats.value),
        Answer::Row(key, value) => line_of_row(alloc, key, value, formats),
        Answer::Left => text(alloc, b"ok left"),
        Answer::End => text(alloc, b"ok end"),
        Answer::Refused(refusal) => {
            let told = text_of(alloc, refusal)?;
            text(alloc, told.as_bytes())
        }
    }
}

/// The line that tells a reply, without its newline: `started`, `more`, `ok` with what the call
/// gives, or the refusal's text. The formats are those of the table that the call names; an item
/// of the format `S` loses its final zero byte, and each item is escaped. `O(bytes)`.
///
/// # Errors
///
/// Memory is wanted.
pub fn line_of_answer(alloc: Global, reply: &Reply, formats: Formats) -> Result<Vec<u8>, NoMemory>
    ensures { IfOk result (λ line. line.items ≡ line_of_reply formats reply.now) }
{
    match reply {
        Reply::Started => text(alloc, b"started"),
        Reply::More => text(alloc, b"more"),
        Reply::Answered(answer) => line_of_told(alloc, answer, formats),
    }
}
