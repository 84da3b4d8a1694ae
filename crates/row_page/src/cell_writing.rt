// The bytes that stand for a cell.
ghost use Rattle.std.specs.Prelude.{◌≡◌, ◌++◌, ℕ, [], length, take, OnOk, OnErr};
ghost use Rattle.row_page.specs.Rows.{RowFits, key_most, lengths_text, window_text, code_of, value_of, cell as cell_text};
ghost use Rattle.row_page.specs.Views.{row_seen};

use crate::cell::Cell;
use crate::change::CellChange;
use failure::NoMemory;
use le_codec::Writer;
use stamp::Window;

// The bytes of a cell beside its key and its value.
pub(crate) const NUMBERS: usize = 39;

/// Writes the cell behind what is written. The error is want of memory, and then a front of the
/// cell's bytes may be written. `O(bytes)` of the cell.
pub fn put_cell(out: &mut Writer, cell: &Cell<'_>) -> Result<(), NoMemory>
    requires { RowFits [] key_most (row_seen cell.now) }
    ensures written { OnOk result (out.new ≡ out.old ++ cell_text (row_seen cell.now)) }
    ensures begun { OnErr result ((count : ℕ) × (out.new ≡ out.old ++ take count (cell_text (row_seen cell.now)))) }
{
    let numbers = numbers_of(cell);
    out.slice(&numbers)?;
    out.slice(cell.key)?;
    out.slice(cell.value())
}

// What stands in front of the key.
#[inline(always)]
pub(crate) fn numbers_of(cell: &Cell<'_>) -> [u8; NUMBERS]
    requires { RowFits [] key_most (row_seen cell.now) }
    ensures { let r = row_seen cell.now in result ≡ lengths_text (length r.0) (code_of r.1.change) (length (value_of r.1.change)) ++ window_text r.1.window }
{
    let value = cell.value();
    number_bytes(
        cell.key.len() as u16,
        code_of(cell),
        value.len() as u32,
        &cell.window,
    )
}

#[inline(always)]
fn code_of(cell: &Cell<'_>) -> u8
    ensures { result ≡ code_of (row_seen cell.now).1.change }
{
    match cell.change {
        CellChange::Put(_) => 1,
        CellChange::Remove => 2,
    }
}

#[inline(always)]
fn number_bytes(key: u16, code: u8, value: u32, window: &Window) -> [u8; NUMBERS]
    ensures { result ≡ lengths_text key code value ++ window_text window.now }
{
    let [k0, k1] = key.to_le_bytes();
    let [v0, v1, v2, v3] = value.to_le_bytes();
    let [r0, r1, r2, r3, r4, r5, r6, r7] = window.name.run.to_le_bytes();
    let [i0, i1, i2, i3, i4, i5, i6, i7] = window.name.id.to_le_bytes();
    let [c0, c1, c2, c3, c4, c5, c6, c7] = window.commit.to_le_bytes();
    let [d0, d1, d2, d3, d4, d5, d6, d7] = window.durable.to_le_bytes();
    [
        k0, k1, code, v0, v1, v2, v3, r0, r1, r2, r3, r4, r5, r6, r7, i0, i1, i2, i3, i4, i5, i6,
        i7, c0, c1, c2, c3, c4, c5, c6, c7, d0, d1, d2, d3, d4, d5, d6, d7,
    ]
}
