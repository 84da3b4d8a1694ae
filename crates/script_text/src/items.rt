// What the words of a call name.
ghost use Rattle.std.specs.Prelude.{◌≡◌, IfOk, option_map};
ghost use Rattle.item_forms.specs.Forms.{stored_as};
ghost use Rattle.script_text.specs.Words.{words_behind};
ghost use Rattle.script_text.specs.SessionCalls.{keyed_of, keyed_in};
ghost use Rattle.script_text.specs.Items.{item_of, format_of, cursor_of};

use crate::words::two;
use failure::NoMemory;
use item::{Format, Item, unescape};
use item_forms::stored_as;
use std::alloc::Global;

// The table that a word names.
pub(crate) fn name(alloc: Global, word: &[u8]) -> Result<Item, NoMemory>
    ensures { IfOk result (λ table. table ≡ word.now) }
{
    Ok(Item::new(word.to_vec(alloc)?))
}

// The item of a word, as it is written.
pub(crate) fn item(alloc: Global, word: &[u8]) -> Result<Option<Item>, NoMemory>
    ensures { IfOk result (λ item. item ≡ item_of word.now) }
{
    if word == b"\\-".as_slice() {
        return Ok(Some(Item::new(Vec::new(alloc))));
    }
    unescape(alloc, word)
}

// The item as a table of the format stores it.
pub(crate) fn stored(alloc: Global, item: Item, format: Format) -> Result<Item, NoMemory>
    ensures { IfOk result (λ stored. stored ≡ stored_as format item) }
{
    match format {
        Format::S => stored_as(alloc, format, item.as_bytes()),
        Format::U => Ok(item),
    }
}

pub(crate) fn format(word: &[u8]) -> Option<Format>
    ensures { result ≡ format_of word.now }
{
    if word == b"S".as_slice() {
        return Some(Format::S);
    }
    if word == b"u".as_slice() {
        return Some(Format::U);
    }
    None
}

pub(crate) fn cursor(word: &[u8]) -> Option<u32>
    ensures { result ≡ cursor_of word.now }
{
    match word {
        [b'c', d] if *d >= b'0' && *d <= b'3' => Some((*d - b'0') as u32),
        _ => None,
    }
}

/// A table, and a key of it as it is written.
#[derive(Drop)]
pub(crate) struct Keyed {
    pub(crate) table: Item,
    pub(crate) key: Item,
}

pub(crate) fn keyed_by(alloc: Global, table: &[u8], key: &[u8]) -> Result<Option<Keyed>, NoMemory>
    ensures { IfOk result (λ r. r ≡ keyed_of table.now key.now) }
{
    match item(alloc, key)? {
        None => Ok(None),
        Some(key) => Ok(Some(Keyed {
            table: name(alloc, table)?,
            key,
        })),
    }
}

// The table and the key of a text that has these two words.
pub(crate) fn keyed_in(alloc: Global, text: Option<&[u8]>) -> Result<Option<Keyed>, NoMemory>
    ensures { IfOk result (λ r. r ≡ keyed_in (words_behind (option_map (λ t. t.now) text.entry))) }
{
    match two(text) {
        None => Ok(None),
        Some((table, key)) => keyed_by(alloc, table, key),
    }
}
