// From all bytes of a block to its record.
ghost use Rattle.std.specs.Prelude.{◌≡◌, ◌≤◌, ℕ, List, IfOk, IfSome, IfNone};
ghost use Rattle.std.specs.Int.{w64};
ghost use Rattle.le_codec.specs.Fields.{Gives, number_at};
ghost use Rattle.le_codec.specs.Combine.{many_at};
ghost use Rattle.le_codec.specs.Images.{block_of};
ghost use Rattle.stored.specs.Records.{Record as StoredRecord, IsRecord, record_image};
ghost use Rattle.stored.specs.Reading.{format_at, format_of, link_at, record_at, snapshot_at, table_at};
ghost use Rattle.checkpoint_record.specs.Parts.{marks_at, history_at, table_seen};
ghost use Rattle.checkpoint_record.specs.Rules.{Says};

use crate::record::{Record, Root, Snapshot, TableRoot};
use crate::rules::keeps;
use crate::writing::KIND;
use catalog::Table;
use device_layout::{Addr, Link};
use failure::NoMemory;
use item::{Format, Formats, Item};
use le_codec::{FIRST_FORMAT, Image, Reader, open_image};
use limits::TABLES_MAX;
use stamp::Name;
use std::alloc::Global;

// The numbers that a record begins with.
#[derive(Clone, Copy)]
struct Marks {
    sequence: u64,
    run: u64,
    oldest: u64,
    stable: u64,
}

// What stands between the snapshot and the tables.
#[derive(Clone, Copy)]
struct History {
    next_table: u32,
    level: u8,
    link: Link,
}

// A table whose name is lent by the block.
#[derive(Drop)]
struct LentTable<'a> {
    number: u32,
    formats: Formats,
    level: u8,
    link: Link,
    name: &'a [u8],
}

/// The record that a block holds, with all of its bytes: header, fields, and the zeros that fill it
/// up. None exactly where it holds none. The error is want of memory. `O(bytes)`, and `O(n log n)`
/// in the tables; each name is copied once.
pub fn decode(alloc: Global, block: &[u8]) -> Result<Option<Record>, NoMemory>
    ensures found { IfOk result (λ o. IfSome o (λ r. IsRecord r × (block.now ≡ block_of (record_image r)))) }
    ensures none { IfOk result (λ o. IfNone o ((r : StoredRecord) → IsRecord r → block.now ≡ block_of (record_image r) → ⊥)) }
{
    let Some(image) = open_image(KIND, FIRST_FORMAT, block) else {
        return Ok(None);
    };
    let Image { count, level, text } = image;
    if level != 0 {
        return Ok(None);
    }
    if count as usize > TABLES_MAX {
        return Ok(None);
    }
    record_in(alloc, count, text)
}

// The record whose image has this count and text.
fn record_in(alloc: Global, count: u16, text: &[u8]) -> Result<Option<Record>, NoMemory>
    requires { count ≤ 1024 }
    ensures found { IfOk result (λ o. IfSome o (λ r. Says count text.now r)) }
    ensures none { IfOk result (λ o. IfNone o ((r : StoredRecord) → Says count text.now r → ⊥)) }
{
    let mut reader = Reader::new(text);
    let Some(record) = record_of(alloc, count, &mut reader)? else {
        return Ok(None);
    };
    if !reader.rest().is_empty() {
        return Ok(None);
    }
    if keeps(alloc, &record)? {
        Ok(Some(record))
    } else {
        Ok(None)
    }
}

// The body of a record with so many tables, before its rules.
#[tactic(auto, using(crate::proofs::InParts::record_in_parts))]
fn record_of(alloc: Global, count: u16, reader: &mut Reader<'_>) -> Result<Option<Record>, NoMemory>
    ensures { IfOk result (λ o. Gives (λ r. r) o reader.new (record_at count reader.old)) }
{
    let Some(marks) = marks_of(reader) else {
        return Ok(None);
    };
    let Some(snapshot) = snapshot_of(alloc, reader)? else {
        return Ok(None);
    };
    let Some(history) = history_of(reader) else {
        return Ok(None);
    };
    let Some(tables) = tables_of(alloc, count, reader)? else {
        return Ok(None);
    };
    Ok(Some(Record {
        sequence: marks.sequence,
        run: marks.run,
        oldest: marks.oldest,
        stable: marks.stable,
        snapshot,
        next_table: history.next_table,
        history: Root {
            level: history.level,
            link: history.link,
        },
        tables,
    }))
}

#[tactic(auto, unfolding(crate::specs::Parts::marks_at, le_codec::specs::Combine::then_at, le_codec::specs::Combine::as_at))]
fn marks_of(reader: &mut Reader<'_>) -> Option<Marks>
    ensures { Gives (λ m. m) result reader.new (marks_at reader.old) }
{
    let sequence = reader.u64()?;
    let run = reader.u64()?;
    let oldest = reader.u64()?;
    let stable = reader.u64()?;
    Some(Marks {
        sequence,
        run,
        oldest,
        stable,
    })
}

#[tactic(auto, unfolding(stored::specs::Reading::snapshot_at, le_codec::specs::Combine::then_at, le_codec::specs::Combine::as_at))]
fn snapshot_of(alloc: Global, reader: &mut Reader<'_>) -> Result<Option<Snapshot>, NoMemory>
    ensures { IfOk result (λ o. Gives (λ s. s) o reader.new (snapshot_at reader.old)) }
{
    let Some(min) = reader.u64() else {
        return Ok(None);
    };
    let Some(max) = reader.u64() else {
        return Ok(None);
    };
    let Some(count) = reader.u16() else {
        return Ok(None);
    };
    let Some(ids) = ids_of(alloc, count, reader)? else {
        return Ok(None);
    };
    Ok(Some(Snapshot { min, max, ids }))
}

// So many ids.
fn ids_of(alloc: Global, count: u16, reader: &mut Reader<'_>) -> Result<Option<Vec<u64>>, NoMemory>
    ensures { IfOk result (λ o. Gives (λ v. v.items) o reader.new (many_at (number_at w64) count reader.old)) }
{
    let mut ids = Vec::with_capacity(alloc, count as usize)?;
    for _ in 0..count {
        let Some(id) = reader.u64() else {
            return Ok(None);
        };
        ids.push_reserved(id);
    }
    Ok(Some(ids))
}

#[tactic(auto, unfolding(crate::specs::Parts::history_at, le_codec::specs::Combine::then_at, le_codec::specs::Combine::as_at))]
fn history_of(reader: &mut Reader<'_>) -> Option<History>
    ensures { Gives (λ h. h) result reader.new (history_at reader.old) }
{
    let next_table = reader.u32()?;
    let level = reader.u8()?;
    let link = link_of(reader)?;
    Some(History {
        next_table,
        level,
        link,
    })
}

#[tactic(auto, unfolding(stored::specs::Reading::link_at, le_codec::specs::Combine::then_at, le_codec::specs::Combine::as_at))]
fn link_of(reader: &mut Reader<'_>) -> Option<Link>
    ensures { Gives (λ l. l) result reader.new (link_at reader.old) }
{
    let offset = reader.u64()?;
    let size = reader.u32()?;
    let sum = reader.u32()?;
    let run = reader.u64()?;
    let id = reader.u64()?;
    let durable = reader.u64()?;
    Some(Link {
        addr: Addr { offset, size, sum },
        greatest: Name { run, id },
        durable,
    })
}

// So many tables. Each name is copied out of the block.
fn tables_of(
    alloc: Global,
    count: u16,
    reader: &mut Reader<'_>,
) -> Result<Option<Vec<TableRoot>>, NoMemory>
    ensures { IfOk result (λ o. Gives (λ v. v.items) o reader.new (many_at table_at count reader.old)) }
{
    let mut tables = Vec::with_capacity(alloc, count as usize)?;
    for _ in 0..count {
        let Some(lent) = lent_table(reader) else {
            return Ok(None);
        };
        tables.push_reserved(owned(alloc, &lent)?);
    }
    Ok(Some(tables))
}

fn owned(alloc: Global, lent: &LentTable<'_>) -> Result<TableRoot, NoMemory>
    ensures { IfOk result (λ t. t ≡ table_seen lent.now) }
{
    let name = Item::new(Vec::from_slice(alloc, lent.name)?);
    Ok(TableRoot {
        table: Table {
            number: lent.number,
            name,
            formats: lent.formats,
        },
        root: Root {
            level: lent.level,
            link: lent.link,
        },
    })
}

#[tactic(auto, unfolding(stored::specs::Reading::table_at, le_codec::specs::Combine::then_at, le_codec::specs::Combine::as_at))]
fn lent_table<'a>(reader: &mut Reader<'a>) -> Option<LentTable<'a>>
    ensures { Gives table_seen result reader.new (table_at reader.old) }
{
    let number = reader.u32()?;
    let key = format_of(reader)?;
    let value = format_of(reader)?;
    let level = reader.u8()?;
    let len = reader.u8()?;
    let link = link_of(reader)?;
    let name = reader.slice(len as usize)?;
    Some(LentTable {
        number,
        formats: Formats { key, value },
        level,
        link,
        name,
    })
}

#[tactic(auto, unfolding(stored::specs::Reading::format_at, le_codec::specs::Combine::try_at))]
fn format_of(reader: &mut Reader<'_>) -> Option<Format>
    ensures { Gives (λ f. f) result reader.new (format_at reader.old) }
{
    let letter = reader.u8()?;
    format_named(letter)
}

// The format of a letter.
fn format_named(letter: u8) -> Option<Format>
    ensures { result ≡ format_of letter }
{
    match letter {
        b'S' => Some(Format::S),
        b'u' => Some(Format::U),
        _ => None,
    }
}
