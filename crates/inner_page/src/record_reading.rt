// From all bytes of a block to the records of a leaf of the history.
ghost use Rattle.std.specs.Prelude.{◌≡◌, ℕ, List, [], Some, None, IfOk, IfSome, IfNone, option_map};
ghost use Rattle.le_codec.specs.Fields.{Gives};
ghost use Rattle.row_page.specs.Changes.{change_seen};
ghost use Rattle.stored.specs.HistoryTree.{HistoryRecord as StoredRecord, mark_of};
ghost use Rattle.stored.specs.Reading.{placed_at};
ghost use Rattle.inner_page.specs.Pages.{IsHistoryLeaf, leaf_fits};
ghost use Rattle.inner_page.specs.Marks.{mark_seen};
ghost use Rattle.inner_page.specs.RecordReading.{record_seen, record_behind, record_behind_at, records_at};

use crate::mark::{LentMark, comes_behind};
use crate::names::names_differ;
use crate::record::HistoryRecord;
use crate::record_writing::{KIND, NUMBERS};
use failure::NoMemory;
use item::Item;
use le_codec::{FIRST_FORMAT, Image, Reader, open_image};
use row_page::{Cell, CellChange, cell_of};
use stamp::Version;
use std::alloc::Global;

// The greatest length of a leaf's text, in bytes: its image without the header.
const TEXT_MAX: usize = 32_752;

// A record whose key and value are lent by the block.
#[derive(Drop)]
struct LentRecord<'a> {
    table: u32,
    cell: Cell<'a>,
}

/// The records of the leaf of the history that a block holds, with all of its bytes: header,
/// records, and the zeros that fill it up. None exactly where it holds none. The error is want of
/// memory. `O(bytes)`, where the names of each key ascend with its commit stamps; else the names of
/// one key are compared two by two. Each key and value is copied once.
pub fn decode_records(alloc: Global, block: &[u8]) -> Result<Option<Vec<HistoryRecord>>, NoMemory>
    ensures found { IfOk result (λ o. IfSome o (λ v. IsHistoryLeaf block.now v.items)) }
    ensures none { IfOk result (λ o. IfNone o ((records : List StoredRecord) → IsHistoryLeaf block.now records → ⊥)) }
{
    let Some(image) = open_image(KIND, FIRST_FORMAT, block) else {
        return Ok(None);
    };
    let Image { count, level, text } = image;
    if !leaf_fits(level, count, text.len()) {
        return Ok(None);
    }
    let Some(records) = records_in(alloc, count, text)? else {
        return Ok(None);
    };
    if names_differ(&records) {
        Ok(Some(records))
    } else {
        Ok(None)
    }
}

// Whether a leaf may have this level, so many records, and a text of this length.
fn leaf_fits(level: u64, count: u16, len: usize) -> bool
    ensures { result ≡ leaf_fits level count len }
{
    level == 0 && 1 <= count && NUMBERS * count as usize <= len && len <= TEXT_MAX
}

// So many records, which fill the text.
fn records_in(
    alloc: Global,
    count: u16,
    text: &[u8],
) -> Result<Option<Vec<HistoryRecord>>, NoMemory>
    ensures found { IfOk result (λ o. IfSome o (λ v. records_at count None text.now ≡ Some (v.items, []))) }
    ensures none { IfOk result (λ o. IfNone o ((records : List StoredRecord) → records_at count None text.now ≡ Some (records, []) → ⊥)) }
{
    let mut reader = Reader::new(text);
    let Some(records) = records_of(alloc, count, &mut reader)? else {
        return Ok(None);
    };
    if reader.rest().is_empty() {
        Ok(Some(records))
    } else {
        Ok(None)
    }
}

// So many records in front. Each key and value is copied out of the block.
fn records_of(
    alloc: Global,
    count: u16,
    reader: &mut Reader<'_>,
) -> Result<Option<Vec<HistoryRecord>>, NoMemory>
    ensures { IfOk result (λ o. Gives (λ v. v.items) o reader.new (records_at count None reader.old)) }
{
    let mut records = Vec::with_capacity(alloc, count as usize)?;
    let mut before: Option<LentMark<'_>> = None;
    for _ in 0..count {
        let Some(lent) = next_record(before, reader) else {
            return Ok(None);
        };
        before = Some(mark_of(&lent));
        records.push_reserved(owned(alloc, &lent)?);
    }
    Ok(Some(records))
}

fn owned(alloc: Global, lent: &LentRecord<'_>) -> Result<HistoryRecord, NoMemory>
    ensures { IfOk result (λ r. r ≡ record_seen lent.now) }
{
    let cell = &lent.cell;
    let key = Item::new(Vec::from_slice(alloc, cell.key)?);
    let change = owned_change(alloc, &cell.change)?;
    Ok(HistoryRecord {
        table: lent.table,
        key,
        version: Version {
            window: cell.window,
            change,
        },
    })
}

fn owned_change(alloc: Global, change: &CellChange<&[u8]>) -> Result<CellChange<Item>, NoMemory>
    ensures { IfOk result (λ c. c ≡ change_seen change.now) }
{
    match change {
        CellChange::Put(value) => Ok(CellChange::Put(Item::new(Vec::from_slice(alloc, value)?))),
        CellChange::Remove => Ok(CellChange::Remove),
    }
}

fn mark_of<'a>(lent: &LentRecord<'a>) -> LentMark<'a>
    ensures { mark_seen result ≡ mark_of (record_seen lent.now) }
{
    let cell = &lent.cell;
    LentMark {
        table: lent.table,
        key: cell.key,
        commit: cell.window.commit,
        name: cell.window.name,
    }
}

// The next record, where it comes behind the one before.
#[tactic(auto, unfolding(crate::specs::RecordReading::record_behind_at, le_codec::specs::Combine::try_at))]
fn next_record<'a>(before: Option<LentMark<'_>>, reader: &mut Reader<'a>) -> Option<LentRecord<'a>>
    ensures { Gives record_seen result reader.new (record_behind_at (option_map mark_seen before.entry) reader.old) }
{
    let lent = lent_record(reader)?;
    behind(before, lent)
}

#[tactic(auto, unfolding(stored::specs::Reading::placed_at, le_codec::specs::Combine::then_at, le_codec::specs::Combine::as_at))]
fn lent_record<'a>(reader: &mut Reader<'a>) -> Option<LentRecord<'a>>
    ensures { Gives record_seen result reader.new (placed_at reader.old) }
{
    let table = reader.u32()?;
    let cell = cell_of(reader)?;
    Some(LentRecord { table, cell })
}

fn behind<'a>(before: Option<LentMark<'_>>, lent: LentRecord<'a>) -> Option<LentRecord<'a>>
    ensures { option_map record_seen result ≡ record_behind (option_map mark_seen before.entry) (record_seen lent.entry) }
{
    if comes_behind(before, &mark_of(&lent)) {
        Some(lent)
    } else {
        None
    }
}
