// From the records of a leaf of the history to its image.
ghost use Rattle.std.specs.Prelude.{◌≡◌, ◌≤◌, ◌<◌, ◌^◌, ◌++◌, length, IfOk, OnOk};
ghost use Rattle.std.specs.List.{flat_map, AllByRecursion};
ghost use Rattle.row_page.specs.Changes.{change_seen};
ghost use Rattle.row_page.specs.Views.{row_seen};
ghost use Rattle.stored.specs.HistoryTree.{AreRecords, RecordFits, history_image, record_text};

use crate::record::HistoryRecord;
use failure::NoMemory;
use item::Item;
use le_codec::{FIRST_FORMAT, Writer, write_header};
use row_page::{Cell, CellChange, put_cell};
use std::alloc::Global;

// The kind of the image of a leaf of the history, as its header says.
pub(crate) const KIND: u8 = 3;

// The bytes of a record beside its key and its value.
pub(crate) const NUMBERS: usize = 43;

const HEADER: usize = 16; // bytes

/// The image of the leaf of the history with these records, at most 32,768 bytes; zeros up to the
/// next multiple of 4,096 make it the block that `decode_records` reads. The error is want of
/// memory. `O(bytes)`, each byte written once, and one allocation.
pub fn encode_records(alloc: Global, records: &[HistoryRecord]) -> Result<Vec<u8>, NoMemory>
    requires { AreRecords records.now }
    ensures { IfOk result (λ v. v.items ≡ history_image records.now) }
{
    let used = HEADER + records_len(records);
    let mut out = Writer::with_capacity(alloc, used)?;
    write_header(
        &mut out,
        KIND,
        FIRST_FORMAT,
        records.len() as u16,
        used as u32,
        0,
    )?;
    put_records(&mut out, records)?;
    Ok(out.into_bytes())
}

fn records_len(records: &[HistoryRecord]) -> usize
    requires { length (flat_map record_text records.now) < 2 ^ 32 }
    ensures { result ≡ length (flat_map record_text records.now) }
{
    let mut len = 0;
    for record in records {
        let cell = lent_cell(record);
        len += NUMBERS + cell.key.len() + cell.value().len();
    }
    len
}

fn put_records(out: &mut Writer, records: &[HistoryRecord]) -> Result<(), NoMemory>
    requires { AllByRecursion (λ r. RecordFits r) records.now }
    ensures { OnOk result (out.new ≡ out.old ++ flat_map record_text records.now) }
{
    for record in records {
        put_record(out, record)?;
    }
    Ok(())
}

fn put_record(out: &mut Writer, record: &HistoryRecord) -> Result<(), NoMemory>
    requires { RecordFits record.now }
    ensures { OnOk result (out.new ≡ out.old ++ record_text record.now) }
{
    let cell = lent_cell(record);
    out.u32(record.table)?;
    put_cell(out, &cell)
}

fn lent_cell(record: &HistoryRecord) -> Cell<'_>
    ensures { row_seen result ≡ (record.now.key, record.now.version) }
{
    let version = &record.version;
    Cell {
        key: record.key.as_bytes(),
        window: version.window,
        change: lent_change(&version.change),
    }
}

fn lent_change(change: &CellChange<Item>) -> CellChange<&[u8]>
    ensures { change_seen result ≡ change.now }
{
    match change {
        CellChange::Put(value) => CellChange::Put(value.as_bytes()),
        CellChange::Remove => CellChange::Remove,
    }
}
