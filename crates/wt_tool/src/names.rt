// What the words of a command mean.
ghost use Rattle.std.specs.Prelude.{◌≡◌, ◌⊎◌, ◌≤◌, ◌<◌, ℕ, slice_index_or, length, MatchOption, IfErr, IfOk, IfSome, IsTrue};
ghost use Rattle.std.specs.Option.{option_map};
ghost use Rattle.kv_model.specs.Decisions.{is_name};
ghost use Rattle.item_forms.specs.Forms.{stored_as};
ghost use Rattle.wt_tool.specs.Words.{AsksFor, name_in, after_scheme, plain_formats};

use config_text::table_formats;
use device_leaf::is_table_name;
use failure::NoMemory;
use item::{Format, Formats, Item};
use std::alloc::Global;
use wt_code::{Invalid, Refusal};

// Items that are stored as they are.
pub(crate) fn plain_formats() -> Formats
    ensures { result ≡ plain_formats }
{
    Formats {
        key: Format::U,
        value: Format::U,
    }
}

// The formats that `create` asks for.
pub(crate) fn formats_asked(alloc: Global, config: Option<&str>) -> Result<Formats, Refusal>
    ensures formats { IfOk result (AsksFor (option_map (λ x. x.now) config.entry)) }
    ensures refused { IfErr result (λ r. (r ≡ Refusal.NoMemory) ⊎ ((r ≡ Refusal.Invalid Invalid.BadConfig) × ((formats : Formats) → AsksFor (option_map (λ x. x.now) config.entry) formats → ⊥))) }
{
    match config {
        None => Ok(plain_formats()),
        Some(text) => table_formats(alloc, text.as_bytes()),
    }
}

// The table that a uri names: `table:name`, or a name alone.
pub(crate) fn name_of(uri: &[u8]) -> Option<&[u8]>
    ensures name { MatchOption result (name_in uri.now ≡ None) (λ n. name_in uri.now ≡ Some n.now) }
    ensures short { IfSome result (λ n. length n.now ≤ 128) }
    ensures bytes { IfSome result (λ n. (i : ℕ) → slice_index_or n.now i 0 < 256) }
    ensures name_is { IfSome result (λ n. IsTrue (is_name n.now)) }
{
    let name = after_scheme(uri);
    if is_table_name(name) {
        Some(name)
    } else {
        None
    }
}

// What stands behind the scheme of a uri, or all of it.
pub(crate) fn after_scheme(uri: &[u8]) -> &[u8]
    ensures { result.now ≡ after_scheme uri.now }
{
    if uri.len() < 6 {
        return uri;
    }
    let (scheme, name) = uri.split_at(6);
    if scheme == b"table:".as_slice() {
        name
    } else {
        uri
    }
}

// The item of a word. The error is want of memory.
pub(crate) fn stored_as(alloc: Global, format: Format, word: &str) -> Result<Item, NoMemory>
    ensures { IfOk result (λ item. item ≡ stored_as format word.now) }
{
    item_forms::stored_as(alloc, format, word.as_bytes())
}

// An item of these bytes. The error is want of memory.
pub(crate) fn item_of(alloc: Global, bytes: &[u8]) -> Result<Item, NoMemory>
    ensures { IfOk result (λ item. item ≡ bytes.now) }
{
    Ok(Item::new(Vec::from_slice(alloc, bytes)?))
}
