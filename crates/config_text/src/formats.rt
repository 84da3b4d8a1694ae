// The formats of a table, as a configuration names them.
ghost use Rattle.std.specs.Prelude.{◌≡◌, ◌⊎◌, IfOk, IfErr};
ghost use Rattle.std.specs.Option.{option_map};
ghost use Rattle.config_text.specs.Items.{format_named, formats_of, pairs_of, NamesFormats};
ghost use Rattle.wt_code.specs.declared.refusals.Refusal.TheVariants.{NoMemory as WantOfMemory};

use crate::config_item::{ConfigItem, get};
use crate::parse::top_items;
use item::{Format, Formats};
use std::alloc::Global;
use wt_code::{Invalid, Refusal};

fn format_named(word: Option<&[u8]>) -> Option<Format>
    ensures { result ≡ format_named (option_map (λ w. w.now) word.entry) }
{
    let Some(word) = word else {
        return Some(Format::U);
    };
    if word == b"S".as_slice() {
        return Some(Format::S);
    }
    if word == b"u".as_slice() {
        return Some(Format::U);
    }
    None
}

/// The formats that items name by `key_format` and `value_format`: each is `S` or `u`, and `u` where
/// the key is absent.
///
/// # Errors
///
/// `BadConfig` where a format is another word.
pub fn formats_of(items: &[ConfigItem<'_>]) -> Result<Formats, Refusal>
    ensures { result ≡ formats_of (pairs_of items.now) }
{
    let key = format_named(get(items, b"key_format"));
    let value = format_named(get(items, b"value_format"));
    match (key, value) {
        (Some(key), Some(value)) => Ok(Formats { key, value }),
        _ => Err(Refusal::Invalid(Invalid::BadConfig)),
    }
}

/// The formats that a configuration text names. `O(bytes)`.
///
/// # Errors
///
/// `BadConfig` exactly where the text is outside the grammar, or names a format other than `S` and
/// `u`; `NoMemory`.
pub fn table_formats(alloc: Global, text: &[u8]) -> Result<Formats, Refusal>
    ensures formats { IfOk result (NamesFormats text.now) }
    ensures refused { IfErr result (λ r. (r ≡ WantOfMemory) ⊎ ((r ≡ Refusal.Invalid Invalid.BadConfig) × ((formats : Formats) → NamesFormats text.now formats → ⊥))) }
{
    match top_items(alloc, text)? {
        None => Err(Refusal::Invalid(Invalid::BadConfig)),
        Some(items) => formats_of(&items),
    }
}
