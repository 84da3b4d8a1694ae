// The items of a text.
ghost use Rattle.std.specs.Prelude.{◌≡◌, ◌<◌, ◌≤◌, ◌↔◌, List, IfOk, IfSome, Some, length, option_map, slice_index, ◌∷◌};
ghost use Rattle.config_text.specs.Grammar.{Pair, AreItems};
ghost use Rattle.config_text.specs.Items.{pair_of, pairs_of};
ghost use Rattle.config_text.specs.Reading.{item_at, value_at, value_behind, quoted_value, bracketed_value, is_items_end, ended};

use crate::brackets::closing_len;
use crate::bytes::{bare_len, key_len, quotable_len};
use crate::config_item::ConfigItem;
use failure::NoMemory;
use std::alloc::{AllocError, Global};

// The value whose opening quote is read, and what stands behind it.
fn quoted_value(text: &[u8]) -> Option<(&[u8], &[u8])>
    ensures value { option_map (λ p. (p.0.now, p.1.now)) result ≡ quoted_value text.now }
    ensures shorter { IfSome result (λ p. length p.1.now ≤ length text.now) }
{
    let (value, others) = text.split_at(quotable_len(text));
    let (_, behind) = others.split_first()?;
    Some((value, behind))
}

// The value at the front of a text, and what stands behind it.
fn value_at(alloc: Global, text: &[u8]) -> Result<Option<(&[u8], &[u8])>, AllocError>
    ensures value { IfOk result (λ r. option_map (λ p. (p.0.now, p.1.now)) r ≡ value_at text.now) }
    ensures shorter { IfOk result (λ r. IfSome r (λ p. length p.1.now ≤ length text.now)) }
{
    match text.split_first() {
        Some((b'"', rest)) => Ok(quoted_value(rest)),
        Some((b'(', rest)) => bracketed_value(alloc, text, rest, b')'),
        Some((b'[', rest)) => bracketed_value(alloc, text, rest, b']'),
        _ => Ok(Some(text.split_at(bare_len(text)))),
    }
}

// The value at the front of a text, which is in brackets. The rest is what stands behind the first.
fn bracketed_value<'a>(
    alloc: Global,
    text: &'a [u8],
    rest: &[u8],
    close: u8,
) -> Result<Option<(&'a [u8], &'a [u8])>, AllocError>
    requires { text.now ≡ slice_index text.now 0 ∷ rest.now }
    ensures value { IfOk result (λ r. option_map (λ p. (p.0.now, p.1.now)) r ≡ bracketed_value (slice_index text.now 0) rest.now close) }
    ensures shorter { IfOk result (λ r. IfSome r (λ p. length p.1.now ≤ length text.now)) }
{
    match closing_len(alloc, rest, close)? {
        None => Ok(None),
        Some(n) => Ok(Some(text.split_at(n + 1))),
    }
}

// The value behind a key, and what stands behind it.
fn value_behind(alloc: Global, text: &[u8]) -> Result<Option<(&[u8], &[u8])>, AllocError>
    ensures value { IfOk result (λ r. option_map (λ p. (p.0.now, p.1.now)) r ≡ value_behind text.now) }
    ensures shorter { IfOk result (λ r. IfSome r (λ p. length p.1.now ≤ length text.now)) }
{
    match text.split_first() {
        Some((b'=', written)) => value_at(alloc, written),
        _ => Ok(Some(text.split_at(0))),
    }
}

// Whether a comma comes next, or nothing.
fn is_items_end(text: &[u8]) -> bool
    ensures { result ≡ is_items_end text.now }
{
    match text.first() {
        None => true,
        Some(b) => *b == b',',
    }
}

// The item, where it ends here.
fn ended<'a>(key: &'a [u8], value: &'a [u8], behind: &'a [u8]) -> Option<(ConfigItem<'a>, &'a [u8])>
    ensures item { option_map (λ p. (pair_of p.0, p.1.now)) result ≡ ended key.now (value.now, behind.now) }
    ensures behind { IfSome result (λ p. p.1.now ≡ behind.now) }
{
    if is_items_end(behind) {
        Some((ConfigItem { key, value }, behind))
    } else {
        None
    }
}

// The item at the front of a text, and what stands behind it.
fn item_at(alloc: Global, text: &[u8]) -> Result<Option<(ConfigItem<'_>, &[u8])>, AllocError>
    ensures item { IfOk result (λ r. option_map (λ p. (pair_of p.0, p.1.now)) r ≡ item_at text.now) }
    ensures shorter { IfOk result (λ r. IfSome r (λ p. length p.1.now < length text.now)) }
{
    let (key, others) = text.split_at(key_len(text));
    if key.is_empty() {
        return Ok(None);
    }
    match value_behind(alloc, others)? {
        None => Ok(None),
        Some((value, behind)) => Ok(ended(key, value, behind)),
    }
}

fn items_in(alloc: Global, text: &[u8]) -> Result<Option<Vec<ConfigItem<'_>>>, AllocError>
    ensures { IfOk result (λ r. (items : List Pair) → (option_map (λ v. pairs_of v.items) r ≡ Some items) ↔ AreItems items text.now) }
{
    let mut items = Vec::new(alloc);
    let mut rest = text;
    while let Some((b, behind)) = rest.split_first() {
        if *b == b',' {
            rest = behind;
        } else {
            match item_at(alloc, rest)? {
                None => return Ok(None),
                Some((item, others)) => {
                    items.push(item)?;
                    rest = others;
                }
            }
        }
    }
    Ok(Some(items))
}

/// The top items of a configuration text, in order: some items exactly where the text has them, and
/// none exactly where it is outside the grammar, as with quotes or brackets that stay open, or an
/// item with no key before `=`. An empty text has no items. `O(bytes)`.
///
/// # Errors
///
/// Memory is wanted.
pub fn top_items(alloc: Global, text: &[u8]) -> Result<Option<Vec<ConfigItem<'_>>>, NoMemory>
    ensures { IfOk result (λ r. (items : List Pair) → (option_map (λ v. pairs_of v.items) r ≡ Some items) ↔ AreItems items text.now) }
{
    Ok(items_in(alloc, text)?)
}
