// A leaf that is written row by row.
ghost use Rattle.std.specs.Prelude.{◌≡◌, ◌≤◌, ◌+◌, ◌*◌, ◌++◌, ◌∷◌, [], true, false, List, length, drop, IfOk, IsTrue, ◌↔◌, vec_len, vec_capacity};
ghost use Rattle.le_codec.specs.Images.{block_size};
ghost use Rattle.row_page.specs.Rows.{Row, RowFits, AreRows, IsPage, key_most, cell as cell_text};
ghost use Rattle.row_page.specs.Views.{row_seen};
ghost use Rattle.row_page.specs.Writing.{Written, Wrote, size_with};

use crate::cell::Cell;
use crate::cell_writing::{NUMBERS, numbers_of};
use crate::leaf::KIND;
use failure::NoMemory;
use le_codec::{FIRST_FORMAT, block_size, header_bytes};
use std::alloc::Global;
use std::marker::Model;

const HEADER: usize = 16; // bytes

/// Writes the block of a leaf, row by row. The room for all of it is taken when the writer is
/// made, so a row takes no memory, and its size is kept.
#[derive(Drop)]
pub struct LeafWriter {
    // Room for the header, and then the cells.
    bytes: Vec<u8>,
    count: u16,
    // The most bytes that the image may have.
    limit: usize,
}

impl Model for LeafWriter {
    ghost Value = { Written };

    ghost view = { λ w. record { limit = w.limit; count = w.count; text = drop 16 w.bytes.items } };

    ghost invariant = { λ w. (16 + 39 * w.count ≤ vec_len w.bytes) × (vec_len w.bytes ≤ w.limit) × (w.limit ≤ 32768) × (block_size w.limit ≤ vec_capacity w.bytes) };
}

impl LeafWriter {
    /// A writer of an image of at most so many bytes, its header with them. The error is want of
    /// memory. One allocation, of the block's size.
    pub fn new(alloc: Global, limit: usize) -> Result<LeafWriter, NoMemory>
        requires low { 16 ≤ limit }
        requires most { limit ≤ 32768 }
        ensures limit { IfOk result (λ w. w.limit ≡ limit) }
        ensures empty { IfOk result (λ w. Wrote w []) }
    {
        let mut bytes = Vec::with_capacity(alloc, block_size(limit as u32))?;
        append(&mut bytes, &[0u8; HEADER]);
        Ok(LeafWriter {
            bytes,
            count: 0,
            limit,
        })
    }

    /// Writes the row behind the others. False exactly where the image would pass the limit, and
    /// then nothing is written. `O(bytes)` of the row, and it takes no memory.
    #[inline(always)]
    pub fn push(&mut self, cell: &Cell<'_>) -> bool
        requires { RowFits [] key_most (row_seen cell.now) }
        ensures room { IsTrue result ↔ (size_with self.old (row_seen cell.now) ≤ self.old.limit) }
        ensures written { result ≡ true → (rows : List Row) → Wrote self.old rows → Wrote self.new (rows ++ row_seen cell.now ∷ []) }
        ensures full { result ≡ false → self.new ≡ self.old }
        ensures limit { self.new.limit ≡ self.old.limit }
    {
        let value = cell.value();
        if self.bytes.len() + NUMBERS + cell.key.len() + value.len() > self.limit {
            return false;
        }
        append_cell(&mut self.bytes, cell);
        self.count += 1;
        true
    }

    /// The block of the leaf: its image, and the zeros that fill it up. `O(1)` beside those zeros,
    /// and it takes no memory.
    pub fn finish(self) -> Vec<u8>
        ensures { (rows : List Row) → Wrote self rows → AreRows rows → IsPage result.items rows }
    {
        let LeafWriter {
            mut bytes,
            count,
            limit: _,
        } = self;
        let used = bytes.len();
        let header = header_bytes(KIND, FIRST_FORMAT, count, used as u32, 0);
        set_front(&mut bytes, &header);
        let zeros = [0u8; 4096];
        append(&mut bytes, &zeros[..block_size(used as u32) - used]);
        bytes
    }
}

// There is room for the cell.
#[inline(always)]
fn append_cell(out: &mut Vec<u8>, cell: &Cell<'_>)
    requires fits { RowFits [] key_most (row_seen cell.now) }
    requires room { vec_len out.old + length (cell_text (row_seen cell.now)) ≤ vec_capacity out.old }
    ensures written { out.new.items ≡ out.old.items ++ cell_text (row_seen cell.now) }
    ensures capacity { vec_capacity out.old ≤ vec_capacity out.new }
{
    let numbers = numbers_of(cell);
    append(out, &numbers);
    append(out, cell.key);
    append(out, cell.value());
}

fn set_front(bytes: &mut Vec<u8>, header: &[u8; HEADER])
    requires { 16 ≤ vec_len bytes.old }
    ensures items { bytes.new.items ≡ header.now ++ drop 16 bytes.old.items }
    ensures capacity { vec_capacity bytes.old ≤ vec_capacity bytes.new }
{
    let (front, _) = bytes.split_at_mut(HEADER);
    front.copy_from_slice(header);
}

// There is room for the bytes, so it takes no memory.
#[inline(always)]
fn append(out: &mut Vec<u8>, bytes: &[u8])
    requires { vec_len out.old + length bytes.now ≤ vec_capacity out.old }
    ensures written { out.new.items ≡ out.old.items ++ bytes.now }
    ensures capacity { vec_capacity out.old ≤ vec_capacity out.new }
{
    let _appended = out.extend_from_slice(bytes);
}
