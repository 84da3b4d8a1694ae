// From all bytes of a block to the inner page of the history.
ghost use Rattle.std.specs.Prelude.{◌≡◌, ℕ, List, [], Some, None, IfOk, IfSome, IfNone, option_map};
ghost use Rattle.le_codec.specs.Fields.{Gives};
ghost use Rattle.stored.specs.HistoryTree.{HistoryEntry as StoredEntry};
ghost use Rattle.stored.specs.Reading.{history_entry_at};
ghost use Rattle.inner_page.specs.Pages.{IsHistoryPage};
ghost use Rattle.inner_page.specs.Marks.{mark_seen};
ghost use Rattle.inner_page.specs.HistoryReading.{history_entry_seen, mark_fits, history_entry_fits, history_entry_behind, history_entry_behind_at, history_entries_at};

use crate::history::{HistoryEntry, HistoryInner};
use crate::history_writing::{KIND, NUMBERS};
use crate::link::link_of;
use crate::mark::{LentMark, RecordMark, comes_behind, name_fits};
use crate::page::page_fits;
use device_layout::Link;
use failure::NoMemory;
use item::Item;
use le_codec::{FIRST_FORMAT, Image, Reader, open_image};
use limits::KEY_MAX;
use stamp::Name;
use std::alloc::Global;

// An entry whose key is lent by the block.
#[derive(Drop)]
struct LentEntry<'a> {
    least: LentMark<'a>,
    link: Link,
}

/// The inner page of the history that a block holds, with all of its bytes: header, entries, and the
/// zeros that fill it up. None exactly where it holds none. The error is want of memory. `O(bytes)`,
/// and each key is copied once.
pub fn decode_history(alloc: Global, block: &[u8]) -> Result<Option<HistoryInner>, NoMemory>
    ensures found { IfOk result (λ o. IfSome o (λ p. IsHistoryPage block.now p.level p.entries.items)) }
    ensures none { IfOk result (λ o. IfNone o ((level : ℕ) (es : List StoredEntry) → IsHistoryPage block.now level es → ⊥)) }
{
    let Some(image) = open_image(KIND, FIRST_FORMAT, block) else {
        return Ok(None);
    };
    let Image { count, level, text } = image;
    if !page_fits(NUMBERS, level, count, text.len()) {
        return Ok(None);
    }
    let Some(entries) = entries_in(alloc, count, text)? else {
        return Ok(None);
    };
    Ok(Some(HistoryInner {
        level: level as u8,
        entries,
    }))
}

// So many entries, which fill the text.
fn entries_in(alloc: Global, count: u16, text: &[u8]) -> Result<Option<Vec<HistoryEntry>>, NoMemory>
    ensures found { IfOk result (λ o. IfSome o (λ v. history_entries_at count None text.now ≡ Some (v.items, []))) }
    ensures none { IfOk result (λ o. IfNone o ((es : List StoredEntry) → history_entries_at count None text.now ≡ Some (es, []) → ⊥)) }
{
    let mut reader = Reader::new(text);
    let Some(entries) = entries_of(alloc, count, &mut reader)? else {
        return Ok(None);
    };
    if reader.rest().is_empty() {
        Ok(Some(entries))
    } else {
        Ok(None)
    }
}

// So many entries in front. Each key is copied out of the block.
fn entries_of(
    alloc: Global,
    count: u16,
    reader: &mut Reader<'_>,
) -> Result<Option<Vec<HistoryEntry>>, NoMemory>
    ensures { IfOk result (λ o. Gives (λ v. v.items) o reader.new (history_entries_at count None reader.old)) }
{
    let mut entries = Vec::with_capacity(alloc, count as usize)?;
    let mut before: Option<LentMark<'_>> = None;
    for _ in 0..count {
        let Some(lent) = next_entry(before, reader) else {
            return Ok(None);
        };
        before = Some(lent.least);
        entries.push_reserved(owned(alloc, &lent)?);
    }
    Ok(Some(entries))
}

fn owned(alloc: Global, lent: &LentEntry<'_>) -> Result<HistoryEntry, NoMemory>
    ensures { IfOk result (λ e. e ≡ history_entry_seen lent.now) }
{
    let least = lent.least;
    let key = Item::new(Vec::from_slice(alloc, least.key)?);
    Ok(HistoryEntry {
        least: RecordMark {
            table: least.table,
            key,
            commit: least.commit,
            name: least.name,
        },
        link: lent.link,
    })
}

// The next entry, where its record fits and comes behind the one before.
#[tactic(auto, unfolding(crate::specs::HistoryReading::history_entry_behind_at, le_codec::specs::Combine::try_at))]
fn next_entry<'a>(before: Option<LentMark<'_>>, reader: &mut Reader<'a>) -> Option<LentEntry<'a>>
    ensures { Gives history_entry_seen result reader.new (history_entry_behind_at (option_map mark_seen before.entry) reader.old) }
{
    let lent = lent_entry(reader)?;
    behind(before, lent)
}

#[tactic(auto, unfolding(stored::specs::Reading::history_entry_at, le_codec::specs::Combine::then_at, le_codec::specs::Combine::as_at))]
fn lent_entry<'a>(reader: &mut Reader<'a>) -> Option<LentEntry<'a>>
    ensures { Gives history_entry_seen result reader.new (history_entry_at reader.old) }
{
    let table = reader.u32()?;
    let len = reader.u16()?;
    let commit = reader.u64()?;
    let run = reader.u64()?;
    let id = reader.u64()?;
    let link = link_of(reader)?;
    let key = reader.slice(len as usize)?;
    Some(LentEntry {
        least: LentMark {
            table,
            key,
            commit,
            name: Name { run, id },
        },
        link,
    })
}

fn behind<'a>(before: Option<LentMark<'_>>, lent: LentEntry<'a>) -> Option<LentEntry<'a>>
    ensures { option_map history_entry_seen result ≡ history_entry_behind (option_map mark_seen before.entry) (history_entry_seen lent.entry) }
{
    if fits(before, &lent) {
        Some(lent)
    } else {
        None
    }
}

fn fits(before: Option<LentMark<'_>>, lent: &LentEntry<'_>) -> bool
    ensures { result ≡ history_entry_fits (option_map mark_seen before.entry) (history_entry_seen lent.now) }
{
    mark_fits(&lent.least) && comes_behind(before, &lent.least)
}

fn mark_fits(mark: &LentMark<'_>) -> bool
    ensures { result ≡ mark_fits (mark_seen mark.now) }
{
    mark.key.len() <= KEY_MAX && name_fits(mark.name)
}
