// From an inner page of the history to its image.
ghost use Rattle.std.specs.Prelude.{◌≡◌, ◌≤◌, ◌<◌, ◌^◌, ◌++◌, length, IfOk, OnOk};
ghost use Rattle.std.specs.List.{flat_map, AllByRecursion};
ghost use Rattle.stored.specs.HistoryTree.{AreHistoryEntries, history_entry_text, history_inner_image};
ghost use Rattle.inner_page.specs.HistoryReading.{mark_numbers_text};

use crate::history::HistoryEntry;
use crate::link::put_link;
use crate::mark::RecordMark;
use failure::NoMemory;
use le_codec::{FIRST_FORMAT, Writer, write_header};
use std::alloc::Global;

// The kind of the image of an inner page of the history, as its header says.
pub(crate) const KIND: u8 = 4;

// The bytes of an entry beside its key.
pub(crate) const NUMBERS: usize = 70;

const HEADER: usize = 16; // bytes

/// The image of the inner page of the history at this level with these entries, at most 4,096
/// bytes; zeros up to 4,096 make it the block that `decode_history` reads. The error is want of
/// memory. `O(bytes)`, each byte written once, and one allocation.
pub fn encode_history(
    alloc: Global,
    level: u8,
    entries: &[HistoryEntry],
) -> Result<Vec<u8>, NoMemory>
    requires { AreHistoryEntries level entries.now }
    ensures { IfOk result (λ v. v.items ≡ history_inner_image level entries.now) }
{
    let used = HEADER + entries_len(entries);
    let mut out = Writer::with_capacity(alloc, used)?;
    write_header(
        &mut out,
        KIND,
        FIRST_FORMAT,
        entries.len() as u16,
        used as u32,
        level as u64,
    )?;
    put_entries(&mut out, entries)?;
    Ok(out.into_bytes())
}

fn entries_len(entries: &[HistoryEntry]) -> usize
    requires { length (flat_map history_entry_text entries.now) < 2 ^ 32 }
    ensures { result ≡ length (flat_map history_entry_text entries.now) }
{
    let mut len = 0;
    for entry in entries {
        len += NUMBERS + key_of(entry).len();
    }
    len
}

fn key_of(entry: &HistoryEntry) -> &[u8]
    ensures { result.now ≡ entry.now.least.key }
{
    let least = &entry.least;
    least.key.as_bytes()
}

fn put_entries(out: &mut Writer, entries: &[HistoryEntry]) -> Result<(), NoMemory>
    requires { AllByRecursion (λ e. length e.least.key ≤ 1024) entries.now }
    ensures { OnOk result (out.new ≡ out.old ++ flat_map history_entry_text entries.now) }
{
    for entry in entries {
        put_entry(out, entry)?;
    }
    Ok(())
}

fn put_entry(out: &mut Writer, entry: &HistoryEntry) -> Result<(), NoMemory>
    requires { length entry.now.least.key ≤ 1024 }
    ensures { OnOk result (out.new ≡ out.old ++ history_entry_text entry.now) }
{
    put_mark_numbers(out, &entry.least)?;
    put_link(out, &entry.link)?;
    out.slice(key_of(entry))
}

// What stands before the link of an entry.
fn put_mark_numbers(out: &mut Writer, mark: &RecordMark) -> Result<(), NoMemory>
    requires { length mark.now.key ≤ 1024 }
    ensures { OnOk result (out.new ≡ out.old ++ mark_numbers_text mark.now) }
{
    out.u32(mark.table)?;
    out.u16(mark.key.as_bytes().len() as u16)?;
    out.u64(mark.commit)?;
    out.u64(mark.name.run)?;
    out.u64(mark.name.id)
}
