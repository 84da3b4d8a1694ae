//! What an opening keeps of a page.

ghost use Rattle.std.specs.Prelude.{◌≡◌, ◌||◌, ◌&&◌, ◌==◌, ◌≤◌, ◌+◌, ◌++◌, ◌∷◌, [], nat_le, List, length, IfOk, IsTrue, ◌↔◌};
ghost use Rattle.std.specs.List.{AllByRecursion, list_any};
ghost use Rattle.kv_model.specs.Content.{sees_id, sees_name};
ghost use Rattle.row_page.specs.Rows.{AreRows, IsPage, Row, RowFits, cells, key_most};
ghost use Rattle.row_page.specs.Views.{row_seen};
ghost use Rattle.row_page.specs.Writing.{Wrote};
ghost use Rattle.leaf_rows.specs.Contents.{is_seen_row, is_seen_window, seen_rows};
ghost use Rattle.leaf_load.specs.Loads.{are_surely_seen};

use failure::NoMemory;
use leaf_rows::Marks;
use row_page::{Cell, Leaf, LeafWriter};
use stamp::{Name, Window};
use std::alloc::Global;

const IMAGE_MAX: usize = 32_768; // bytes

/// The page without what an opening does not keep, as `Rows::keep_seen`: itself, where that keeps
/// each row, and then it takes no memory. `O(1)` where the greatest of the page is from before what
/// was running, and durable; else `O(n)` in the rows, times the ids, and `O(bytes)` where rows are
/// taken out.
pub(crate) fn keep_seen(
    alloc: Global,
    page: Leaf,
    marks: Marks,
    ids: &[u64],
) -> Result<Leaf, NoMemory>
    requires { AreRows page }
    ensures { IfOk result (λ kept. kept ≡ seen_rows marks ids.now page) }
{
    if are_seen(&page, &marks, ids) {
        return Ok(page);
    }
    let block = seen_block(alloc, &page, &marks, ids)?;
    let kept = Leaf::of_block(alloc, block)?;
    Ok(kept.unwrap())
}

// Whether an opening keeps each row.
fn are_seen(page: &Leaf, marks: &Marks, ids: &[u64]) -> bool
    ensures { IsTrue result ↔ AllByRecursion (λ (r : Row). IsTrue (is_seen_row marks.now ids.now r)) page.now }
{
    is_surely_seen(marks, page.greatest(), page.durable()) || each_is_seen(page, marks, ids)
}

/// Whether an opening with these marks keeps any version of at most this name and durable stamp,
/// whichever ids had not ended: then it takes nothing out of a leaf whose link says these. `O(1)`.
pub fn is_surely_seen(marks: &Marks, greatest: Name, durable: u64) -> bool
    ensures { result ≡ are_surely_seen marks.now greatest durable }
{
    let is_early = greatest.run < marks.run
        || (greatest.run == marks.run && greatest.id < marks.min);
    is_early && is_stable(marks, durable)
}

fn each_is_seen(page: &Leaf, marks: &Marks, ids: &[u64]) -> bool
    ensures { IsTrue result ↔ AllByRecursion (λ (r : Row). IsTrue (is_seen_row marks.now ids.now r)) page.now }
{
    for i in 0..page.len() {
        let cell = page.cell(i);
        if !is_seen(marks, ids, &cell.window) {
            return false;
        }
    }
    true
}

// The block of the rows that an opening keeps.
fn seen_block(alloc: Global, page: &Leaf, marks: &Marks, ids: &[u64]) -> Result<Vec<u8>, NoMemory>
    requires { AreRows page.now }
    ensures { IfOk result (λ block. IsPage block.items (seen_rows marks.now ids.now page.now)) }
{
    let mut writer = LeafWriter::new(alloc, IMAGE_MAX)?;
    for i in 0..page.len() {
        put_seen(&mut writer, &page.cell(i), marks, ids);
    }
    Ok(writer.finish())
}

// Writes a row, for which there is room, where an opening keeps it.
fn put_seen(writer: &mut LeafWriter, cell: &Cell<'_>, marks: &Marks, ids: &[u64])
    requires { RowFits [] key_most (row_seen cell.now) }
    ensures wrote { (rows : List Row) → Wrote writer.old rows → 16 + length (cells (rows ++ seen_rows marks.now ids.now (row_seen cell.now ∷ []))) ≤ writer.old.limit → Wrote writer.new (rows ++ seen_rows marks.now ids.now (row_seen cell.now ∷ [])) }
    ensures limit { writer.new.limit ≡ writer.old.limit }
{
    if is_seen(marks, ids, &cell.window) {
        let _has_room = writer.push(cell);
    }
}

fn is_stable(marks: &Marks, durable: u64) -> bool
    ensures { result ≡ (marks.now.stable == 0) || nat_le durable marks.now.stable }
{
    marks.stable == 0 || durable <= marks.stable
}

/// Whether an opening with these marks keeps the version: the recorded snapshot, in which these ids had
/// not ended, sees its name, and it is durable at the recorded stable stamp. `O(ids)`.
pub fn is_seen(marks: &Marks, ids: &[u64], window: &Window) -> bool
    ensures { result ≡ is_seen_window marks.now ids.now window.now }
{
    sees(marks, ids, window.name) && is_stable(marks, window.durable)
}

fn sees(marks: &Marks, ids: &[u64], name: Name) -> bool
    ensures { result ≡ sees_name marks.now.run (record { min = marks.now.min; max = marks.now.max; ids = ids.now }) name }
{
    name.run < marks.run || (name.run == marks.run && sees_id(marks, ids, name.id))
}

fn sees_id(marks: &Marks, ids: &[u64], id: u64) -> bool
    ensures { result ≡ sees_id (record { min = marks.now.min; max = marks.now.max; ids = ids.now }) id }
{
    id < marks.min || (id < marks.max && !is_listed(ids, id))
}

fn is_listed(ids: &[u64], id: u64) -> bool
    ensures { result ≡ list_any (λ n. n == id) ids.now }
{
    ids.iter().any(|n| *n == id)
}
