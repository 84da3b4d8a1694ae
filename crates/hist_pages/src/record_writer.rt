//! A leaf of the history that is written record by record.
ghost use Rattle.std.specs.Prelude.{◌≡◌, ◌≤◌, ◌+◌, ◌*◌, ◌++◌, ◌∷◌, [], true, false, List, length, drop, IfOk, IsTrue, ◌↔◌, vec_len, vec_capacity};
ghost use Rattle.std.specs.Int.{w32};
ghost use Rattle.le_codec.specs.Fields.{le};
ghost use Rattle.le_codec.specs.Images.{block_of};
ghost use Rattle.row_page.specs.Rows.{lengths_text, window_text};
ghost use Rattle.stored.specs.HistoryTree.{HistoryRecord, RecordFits, history_image, record_text};
ghost use Rattle.hist_pages.specs.Leaves.{image_length};
ghost use Rattle.hist_pages.specs.Views.{record_seen};
ghost use Rattle.hist_pages.specs.Writing.{Written, Wrote, size_with};

use crate::lent_record::{LentRecord, code_of, value_of};
use failure::NoMemory;
use le_codec::{FIRST_FORMAT, block_size, header_bytes};
use stamp::Window;
use std::alloc::Global;
use std::marker::Model;

// The kind of the image of a leaf of the history, as its header says.
const KIND: u8 = 3;

const IMAGE_MAX: usize = 32_768; // bytes

const HEADER: usize = 16; // bytes

const NUMBERS: usize = 43; // bytes of a record beside its key and its value

// Writes the block of a leaf, record by record. The room for all of it is taken when the writer is
// made, so a record takes no memory.
#[derive(Drop)]
pub(crate) struct RecordWriter {
    // Room for the header, and then the records.
    bytes: Vec<u8>,
    count: u16,
}

impl Model for RecordWriter {
    ghost use Rattle.std.specs.Prelude.{◌≤◌, ◌+◌, ◌*◌, drop, vec_len, vec_capacity};
    ghost use Rattle.hist_pages.specs.Writing.{Written};

    ghost Value = { Written };

    ghost view = { λ w. record { count = w.count; text = drop 16 w.bytes.items } };

    ghost invariant = { λ w. (16 + 43 * w.count ≤ vec_len w.bytes) × (vec_len w.bytes ≤ 32768) × (32768 ≤ vec_capacity w.bytes) };
}

impl RecordWriter {
    // Without records. One allocation, of the bytes of the largest block.
    pub(crate) fn new(alloc: Global) -> Result<RecordWriter, NoMemory>
        ensures { IfOk result (λ w. Wrote w []) }
    {
        let mut bytes = Vec::with_capacity(alloc, IMAGE_MAX)?;
        append(&mut bytes, &[0u8; HEADER]);
        Ok(RecordWriter { bytes, count: 0 })
    }

    // Writes the record behind the others. False exactly where the image would be too long, and then
    // nothing is written. `O(bytes)` of the record, and it takes no memory.
    pub(crate) fn push(&mut self, lent: &LentRecord<'_>) -> bool
        requires { RecordFits (record_seen lent.now) }
        ensures room { IsTrue result ↔ (size_with self.old (record_seen lent.now) ≤ 32768) }
        ensures written { result ≡ true → (records : List HistoryRecord) → Wrote self.old records → Wrote self.new (records ++ record_seen lent.now ∷ []) }
        ensures full { result ≡ false → self.new ≡ self.old }
    {
        let value = value_of(lent);
        if self.bytes.len() + NUMBERS + lent.key.len() + value.len() > IMAGE_MAX {
            return false;
        }
        put_record(&mut self.bytes, lent);
        self.count += 1;
        true
    }

    // The block of the leaf: its image, and the zeros that fill it up. `O(1)` beside those zeros, and
    // it takes no memory.
    pub(crate) fn finish(self) -> Vec<u8>
        ensures { (records : List HistoryRecord) → Wrote self records → result.items ≡ block_of (history_image records) }
    {
        let RecordWriter { mut bytes, count } = self;
        let used = bytes.len();
        let header = header_bytes(KIND, FIRST_FORMAT, count, used as u32, 0);
        set_front(&mut bytes, &header);
        let zeros = [0u8; 4096];
        append(&mut bytes, &zeros[..block_size(used as u32) - used]);
        bytes
    }
}

// There is room for the record.
fn put_record(out: &mut Vec<u8>, lent: &LentRecord<'_>)
    requires fits { RecordFits (record_seen lent.now) }
    requires room { vec_len out.old + length (record_text (record_seen lent.now)) ≤ vec_capacity out.old }
    ensures written { out.new.items ≡ out.old.items ++ record_text (record_seen lent.now) }
    ensures capacity { vec_capacity out.old ≤ vec_capacity out.new }
{
    let value = value_of(lent);
    let numbers = numbers_of(
        lent.table,
        lent.key.len() as u16,
        code_of(lent),
        value.len() as u32,
        &lent.version.window,
    );
    append(out, &numbers);
    append(out, lent.key);
    append(out, value);
}

// What stands before the key.
fn numbers_of(table: u32, key: u16, code: u8, value: u32, window: &Window) -> [u8; NUMBERS]
    ensures { result ≡ le w32 table ++ (lengths_text key code value ++ window_text window.now) }
{
    let [t0, t1, t2, t3] = table.to_le_bytes();
    let [k0, k1] = key.to_le_bytes();
    let [v0, v1, v2, v3] = value.to_le_bytes();
    let [r0, r1, r2, r3, r4, r5, r6, r7] = window.name.run.to_le_bytes();
    let [i0, i1, i2, i3, i4, i5, i6, i7] = window.name.id.to_le_bytes();
    let [c0, c1, c2, c3, c4, c5, c6, c7] = window.commit.to_le_bytes();
    let [d0, d1, d2, d3, d4, d5, d6, d7] = window.durable.to_le_bytes();
    [
        t0, t1, t2, t3, k0, k1, code, v0, v1, v2, v3, r0, r1, r2, r3, r4, r5, r6, r7, i0, i1, i2,
        i3, i4, i5, i6, i7, c0, c1, c2, c3, c4, c5, c6, c7, d0, d1, d2, d3, d4, d5, d6, d7,
    ]
}

fn set_front(bytes: &mut Vec<u8>, header: &[u8; HEADER])
    requires { 16 ≤ vec_len bytes.old }
    ensures items { bytes.new.items ≡ header.now ++ drop 16 bytes.old.items }
    ensures capacity { vec_capacity bytes.old ≤ vec_capacity bytes.new }
{
    let (front, _) = bytes.split_at_mut(HEADER);
    front.copy_from_slice(header);
}

// There is room for the bytes, so it takes no memory.
fn append(out: &mut Vec<u8>, bytes: &[u8])
    requires { vec_len out.old + length bytes.now ≤ vec_capacity out.old }
    ensures written { out.new.items ≡ out.old.items ++ bytes.now }
    ensures capacity { vec_capacity out.old ≤ vec_capacity out.new }
{
    let _appended = out.extend_from_slice(bytes);
}
