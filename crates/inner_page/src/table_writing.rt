// From an inner page of a table to its image.
ghost use Rattle.std.specs.Prelude.{◌≡◌, ◌≤◌, ◌<◌, ◌^◌, ◌++◌, length, IfOk, OnOk};
ghost use Rattle.std.specs.List.{flat_map, AllByRecursion};
ghost use Rattle.stored.specs.TableTree.{AreEntries, entry_text, inner_image};

use crate::link::put_link;
use crate::table::Entry;
use failure::NoMemory;
use le_codec::{FIRST_FORMAT, Writer, write_header};
use std::alloc::Global;

// The kind of the image of a table's inner page, as its header says.
pub(crate) const KIND: u8 = 2;

// The bytes of an entry beside its key.
pub(crate) const NUMBERS: usize = 42;

const HEADER: usize = 16; // bytes

/// The image of the inner page of a table at this level with these entries, at most 4,096 bytes;
/// zeros up to 4,096 make it the block that `decode` reads. The error is want of memory.
/// `O(bytes)`, each byte written once, and one allocation.
pub fn encode(alloc: Global, level: u8, entries: &[Entry]) -> Result<Vec<u8>, NoMemory>
    requires { AreEntries level entries.now }
    ensures { IfOk result (λ v. v.items ≡ inner_image level entries.now) }
{
    let used = HEADER + entries_len(entries);
    let mut out = Writer::with_capacity(alloc, used)?;
    write_header(
        &mut out,
        KIND,
        FIRST_FORMAT,
        entries.len() as u16,
        used as u32,
        level as u64,
    )?;
    put_entries(&mut out, entries)?;
    Ok(out.into_bytes())
}

fn entries_len(entries: &[Entry]) -> usize
    requires { length (flat_map entry_text entries.now) < 2 ^ 32 }
    ensures { result ≡ length (flat_map entry_text entries.now) }
{
    let mut len = 0;
    for entry in entries {
        len += NUMBERS + key_of(entry).len();
    }
    len
}

fn key_of(entry: &Entry) -> &[u8]
    ensures { result.now ≡ entry.now.key }
{
    entry.key.as_bytes()
}

fn put_entries(out: &mut Writer, entries: &[Entry]) -> Result<(), NoMemory>
    requires { AllByRecursion (λ e. length e.key ≤ 1024) entries.now }
    ensures { OnOk result (out.new ≡ out.old ++ flat_map entry_text entries.now) }
{
    for entry in entries {
        put_entry(out, entry)?;
    }
    Ok(())
}

fn put_entry(out: &mut Writer, entry: &Entry) -> Result<(), NoMemory>
    requires { length entry.now.key ≤ 1024 }
    ensures { OnOk result (out.new ≡ out.old ++ entry_text entry.now) }
{
    let key = key_of(entry);
    out.u16(key.len() as u16)?;
    put_link(out, &entry.link)?;
    out.slice(key)
}
