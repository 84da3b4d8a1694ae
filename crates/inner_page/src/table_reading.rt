// From all bytes of a block to the inner page of a table.
ghost use Rattle.std.specs.Prelude.{◌≡◌, ℕ, List, [], Some, None, IfOk, IfSome, IfNone, option_map};
ghost use Rattle.le_codec.specs.Fields.{Gives};
ghost use Rattle.stored.specs.TableTree.{Entry as StoredEntry};
ghost use Rattle.stored.specs.Reading.{entry_at};
ghost use Rattle.inner_page.specs.Pages.{IsTablePage};
ghost use Rattle.inner_page.specs.TableReading.{entry_seen, entry_fits, entry_behind, entry_behind_at, entries_at};

use crate::link::link_of;
use crate::page::page_fits;
use crate::table::{Entry, Inner};
use crate::table_writing::{KIND, NUMBERS};
use byte_order::order;
use device_layout::Link;
use failure::NoMemory;
use item::Item;
use le_codec::{FIRST_FORMAT, Image, Reader, open_image};
use limits::KEY_MAX;
use std::alloc::Global;

// An entry whose key is lent by the block.
#[derive(Drop)]
struct LentEntry<'a> {
    key: &'a [u8],
    link: Link,
}

/// The inner page of a table that a block holds, with all of its bytes: header, entries, and the
/// zeros that fill it up. None exactly where it holds none. The error is want of memory. `O(bytes)`,
/// and each key is copied once.
pub fn decode(alloc: Global, block: &[u8]) -> Result<Option<Inner>, NoMemory>
    ensures found { IfOk result (λ o. IfSome o (λ p. IsTablePage block.now p.level p.entries.items)) }
    ensures none { IfOk result (λ o. IfNone o ((level : ℕ) (es : List StoredEntry) → IsTablePage block.now level es → ⊥)) }
{
    let Some(image) = open_image(KIND, FIRST_FORMAT, block) else {
        return Ok(None);
    };
    let Image { count, level, text } = image;
    if !page_fits(NUMBERS, level, count, text.len()) {
        return Ok(None);
    }
    let Some(entries) = entries_in(alloc, count, text)? else {
        return Ok(None);
    };
    Ok(Some(Inner {
        level: level as u8,
        entries,
    }))
}

// So many entries, which fill the text.
fn entries_in(alloc: Global, count: u16, text: &[u8]) -> Result<Option<Vec<Entry>>, NoMemory>
    ensures found { IfOk result (λ o. IfSome o (λ v. entries_at count None text.now ≡ Some (v.items, []))) }
    ensures none { IfOk result (λ o. IfNone o ((es : List StoredEntry) → entries_at count None text.now ≡ Some (es, []) → ⊥)) }
{
    let mut reader = Reader::new(text);
    let Some(entries) = entries_of(alloc, count, &mut reader)? else {
        return Ok(None);
    };
    if reader.rest().is_empty() {
        Ok(Some(entries))
    } else {
        Ok(None)
    }
}

// So many entries in front. Each key is copied out of the block.
fn entries_of(
    alloc: Global,
    count: u16,
    reader: &mut Reader<'_>,
) -> Result<Option<Vec<Entry>>, NoMemory>
    ensures { IfOk result (λ o. Gives (λ v. v.items) o reader.new (entries_at count None reader.old)) }
{
    let mut entries = Vec::with_capacity(alloc, count as usize)?;
    let mut before: Option<&[u8]> = None;
    for _ in 0..count {
        let Some(lent) = next_entry(before, reader) else {
            return Ok(None);
        };
        before = Some(lent.key);
        entries.push_reserved(owned(alloc, &lent)?);
    }
    Ok(Some(entries))
}

fn owned(alloc: Global, lent: &LentEntry<'_>) -> Result<Entry, NoMemory>
    ensures { IfOk result (λ e. e ≡ entry_seen lent.now) }
{
    let key = Item::new(Vec::from_slice(alloc, lent.key)?);
    Ok(Entry {
        key,
        link: lent.link,
    })
}

// The next entry, where its key fits and comes behind the one before.
#[tactic(auto, unfolding(crate::specs::TableReading::entry_behind_at, le_codec::specs::Combine::try_at))]
fn next_entry<'a>(before: Option<&[u8]>, reader: &mut Reader<'a>) -> Option<LentEntry<'a>>
    ensures { Gives entry_seen result reader.new (entry_behind_at (option_map (λ v. v.now) before.entry) reader.old) }
{
    let lent = lent_entry(reader)?;
    behind(before, lent)
}

#[tactic(auto, unfolding(stored::specs::Reading::entry_at, le_codec::specs::Combine::then_at, le_codec::specs::Combine::as_at))]
fn lent_entry<'a>(reader: &mut Reader<'a>) -> Option<LentEntry<'a>>
    ensures { Gives entry_seen result reader.new (entry_at reader.old) }
{
    let len = reader.u16()?;
    let link = link_of(reader)?;
    let key = reader.slice(len as usize)?;
    Some(LentEntry { key, link })
}

fn behind<'a>(before: Option<&[u8]>, lent: LentEntry<'a>) -> Option<LentEntry<'a>>
    ensures { option_map entry_seen result ≡ entry_behind (option_map (λ v. v.now) before.entry) (entry_seen lent.entry) }
{
    if fits(before, &lent) {
        Some(lent)
    } else {
        None
    }
}

fn fits(before: Option<&[u8]>, lent: &LentEntry<'_>) -> bool
    ensures { result ≡ entry_fits (option_map (λ v. v.now) before.entry) (entry_seen lent.now) }
{
    let comes_after = match before {
        Some(before) => order(before, lent.key).is_lt(),
        None => true,
    };
    lent.key.len() <= KEY_MAX && comes_after
}
