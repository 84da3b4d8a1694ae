// From a record to its image.
ghost use Rattle.std.specs.Prelude.{◌≡◌, ◌≤◌, ◌<◌, ◌^◌, ◌++◌, length, IfOk, OnOk};
ghost use Rattle.std.specs.List.{flat_map, AllByRecursion};
ghost use Rattle.std.specs.Int.{w8, w32, w64};
ghost use Rattle.le_codec.specs.Fields.{le};
ghost use Rattle.stored.specs.Links.{link_text};
ghost use Rattle.stored.specs.Records.{IsRecord, letter as letter_of, record_body, record_image, snapshot_text, table_text};
ghost use Rattle.checkpoint_record.specs.Parts.{marks_text, history_text, numbers_text};

use crate::record::{LentRecord, LentRoot, Snapshot};
use device_layout::Link;
use failure::NoMemory;
use item::Format;
use le_codec::{FIRST_FORMAT, Writer, write_header};
use std::alloc::Global;

// The kind of a record's image, as its header says.
pub(crate) const KIND: u8 = 5;

const HEADER: usize = 16; // bytes

const NUMBERS: usize = 95; // bytes of a body beside its ids and tables

const ID: usize = 8; // bytes

const TABLE: usize = 48; // bytes of a table beside its name

const UNIT: usize = 4096; // bytes, of which a block has a whole number

/// The image of a record; zeros up to the next multiple of 4,096 bytes make it the block that
/// `decode` reads. It has at most 2^18 bytes, so the block has no more. The error is want of memory.
/// `O(bytes)`, each byte written once, and one allocation, which has room for the zeros too.
pub fn encode(alloc: Global, record: &LentRecord<'_>) -> Result<Vec<u8>, NoMemory>
    requires { IsRecord record.now }
    ensures image { IfOk result (λ v. v.items ≡ record_image record.now) }
    ensures size { IfOk result (λ v. length v.items ≤ 2 ^ 18) }
{
    let used = image_len(record);
    let room = used.div_ceil(UNIT) * UNIT;
    let mut out = Writer::with_capacity(alloc, room)?;
    write_header(
        &mut out,
        KIND,
        FIRST_FORMAT,
        record.tables.len() as u16,
        used as u32,
        0,
    )?;
    put_body(&mut out, record)?;
    Ok(out.into_bytes())
}

// The length of a record's image in bytes. `O(tables)`.
fn image_len(record: &LentRecord<'_>) -> usize
    requires { IsRecord record.now }
    ensures { result ≡ length (record_image record.now) }
{
    HEADER + NUMBERS + ID * id_count(&record.snapshot) + tables_len(&record.tables)
}

fn id_count(snapshot: &Snapshot) -> usize
    ensures { result ≡ length snapshot.now.ids }
{
    snapshot.ids.len()
}

fn tables_len(tables: &[LentRoot<'_>]) -> usize
    requires { length (flat_map table_text tables.now) < 2 ^ 32 }
    ensures { result ≡ length (flat_map table_text tables.now) }
{
    let mut len = 0;
    for table in tables {
        len += TABLE + name_of(table).len();
    }
    len
}

fn name_of<'a>(table: &LentRoot<'a>) -> &'a [u8]
    ensures { result.now ≡ table.now.table.name }
{
    let named = table.table;
    named.name.as_bytes()
}

fn put_body(out: &mut Writer, record: &LentRecord<'_>) -> Result<(), NoMemory>
    requires { IsRecord record.now }
    ensures { OnOk result (out.new ≡ out.old ++ record_body record.now) }
{
    put_marks(out, record)?;
    put_snapshot(out, &record.snapshot)?;
    put_history(out, record)?;
    put_tables(out, &record.tables)
}

fn put_marks(out: &mut Writer, record: &LentRecord<'_>) -> Result<(), NoMemory>
    ensures { OnOk result (out.new ≡ out.old ++ marks_text record.now) }
{
    out.u64(record.sequence)?;
    out.u64(record.run)?;
    out.u64(record.oldest)?;
    out.u64(record.stable)
}

fn put_history(out: &mut Writer, record: &LentRecord<'_>) -> Result<(), NoMemory>
    ensures { OnOk result (out.new ≡ out.old ++ history_text record.now) }
{
    let history = &record.history;
    out.u32(record.next_table)?;
    out.u8(history.level)?;
    put_link(out, &history.link)
}

fn put_snapshot(out: &mut Writer, snapshot: &Snapshot) -> Result<(), NoMemory>
    requires { length snapshot.now.ids ≤ 64 }
    ensures { OnOk result (out.new ≡ out.old ++ snapshot_text snapshot.now) }
{
    out.u64(snapshot.min)?;
    out.u64(snapshot.max)?;
    out.u16(snapshot.ids.len() as u16)?;
    put_ids(out, &snapshot.ids)
}

fn put_ids(out: &mut Writer, ids: &[u64]) -> Result<(), NoMemory>
    ensures { OnOk result (out.new ≡ out.old ++ flat_map (le w64) ids.now) }
{
    for id in ids {
        out.u64(*id)?;
    }
    Ok(())
}

fn put_link(out: &mut Writer, link: &Link) -> Result<(), NoMemory>
    ensures { OnOk result (out.new ≡ out.old ++ link_text link.now) }
{
    out.u64(link.addr.offset)?;
    out.u32(link.addr.size)?;
    out.u32(link.addr.sum)?;
    out.u64(link.greatest.run)?;
    out.u64(link.greatest.id)?;
    out.u64(link.durable)
}

fn put_tables(out: &mut Writer, tables: &[LentRoot<'_>]) -> Result<(), NoMemory>
    requires { AllByRecursion (λ t. length t.table.name ≤ 128) tables.now }
    ensures { OnOk result (out.new ≡ out.old ++ flat_map table_text tables.now) }
{
    for table in tables {
        put_table(out, table)?;
    }
    Ok(())
}

fn put_table(out: &mut Writer, table: &LentRoot<'_>) -> Result<(), NoMemory>
    requires { length table.now.table.name ≤ 128 }
    ensures { OnOk result (out.new ≡ out.old ++ table_text table.now) }
{
    let front = front_of(table);
    out.slice(&front)?;
    out.slice(name_of(table))
}

// What stands before the name of a table.
#[inline(always)]
fn front_of(table: &LentRoot<'_>) -> [u8; TABLE]
    requires { length table.now.table.name ≤ 128 }
    ensures { result ≡ numbers_text table.now ++ link_text table.now.root.link }
{
    let named = table.table;
    let root = &table.root;
    front_bytes(
        named.number,
        letter(named.formats.key),
        letter(named.formats.value),
        root.level,
        name_of(table).len() as u8,
        &root.link,
    )
}

fn front_bytes(number: u32, key: u8, value: u8, level: u8, len: u8, link: &Link) -> [u8; TABLE]
    ensures { result ≡ (le w32 number ++ le w8 key ++ le w8 value ++ le w8 level ++ le w8 len) ++ link_text link.now }
{
    let [n0, n1, n2, n3] = number.to_le_bytes();
    let [o0, o1, o2, o3, o4, o5, o6, o7] = link.addr.offset.to_le_bytes();
    let [b0, b1, b2, b3] = link.addr.size.to_le_bytes();
    let [s0, s1, s2, s3] = link.addr.sum.to_le_bytes();
    let [r0, r1, r2, r3, r4, r5, r6, r7] = link.greatest.run.to_le_bytes();
    let [i0, i1, i2, i3, i4, i5, i6, i7] = link.greatest.id.to_le_bytes();
    let [d0, d1, d2, d3, d4, d5, d6, d7] = link.durable.to_le_bytes();
    [
        n0, n1, n2, n3, key, value, level, len, o0, o1, o2, o3, o4, o5, o6, o7, b0, b1, b2, b3, s0,
        s1, s2, s3, r0, r1, r2, r3, r4, r5, r6, r7, i0, i1, i2, i3, i4, i5, i6, i7, d0, d1, d2, d3,
        d4, d5, d6, d7,
    ]
}

fn letter(format: Format) -> u8
    ensures { result ≡ letter_of format }
{
    match format {
        Format::S => b'S',
        Format::U => b'u',
    }
}
