//! Rows of a page with records among them.

ghost use Rattle.std.specs.Prelude.{◌≡◌, ◌≤◌, ◌++◌, ◌∷◌, [], map, length, take, drop, option_map, IfOk, OnOk};
ghost use Rattle.stamp.specs.Order.{is_before};
ghost use Rattle.row_page.specs.declared.cell.Cell.{Cell as RowCell};
ghost use Rattle.row_page.specs.Changes.{change_seen};
ghost use Rattle.row_page.specs.Rows.{is_below};
ghost use Rattle.row_page.specs.Views.{row_seen};
ghost use Rattle.reconcile.specs.Held.{page_rows};
ghost use Rattle.device_read.specs.Merging.{later_of, later_row, merged, rows_below, rows_from, rows_past};
ghost use Rattle.device_read.specs.Newest.{row_of, rows_of};

use byte_order::order;
use failure::NoMemory;
use inner_page::HistoryRecord;
use item::Item;
use row_page::{Cell, CellChange, Leaf};
use std::alloc::Global;

/// The rows of a page and these records, all lent, in the order of their keys: of a key that both have
/// the later version. The error is want of memory. `O(n)` comparisons in both.
pub(crate) fn merged<'a>(
    alloc: Global,
    page: Option<&'a Leaf>,
    newest: &'a [HistoryRecord],
) -> Result<Vec<Cell<'a>>, NoMemory>
    ensures { IfOk result (λ cells. map {A = RowCell} row_seen cells.items ≡ merged (page_rows page.entry) (rows_of newest.now)) }
{
    let mut cells = Vec::new(alloc);
    match page {
        None => put_all(&mut cells, newest)?,
        Some(page) => put_both(&mut cells, page, newest)?,
    }
    Ok(cells)
}

fn put_both<'a>(
    cells: &mut Vec<Cell<'a>>,
    page: &'a Leaf,
    newest: &'a [HistoryRecord],
) -> Result<(), NoMemory>
    ensures { OnOk result (map {A = RowCell} row_seen cells.new.items ≡ map {A = RowCell} row_seen cells.old.items ++ merged page.now (rows_of newest.now)) }
{
    let mut rest = newest;
    for i in 0..page.len() {
        rest = put_row(cells, page.cell(i), rest)?;
    }
    put_all(cells, rest)
}

// Puts the records of keys below the row's behind the others, and then the row, or the record of its key
// where that is later. The records behind these are left.
fn put_row<'a>(
    cells: &mut Vec<Cell<'a>>,
    row: Cell<'a>,
    newest: &'a [HistoryRecord],
) -> Result<&'a [HistoryRecord], NoMemory>
    ensures put { OnOk result (map {A = RowCell} row_seen cells.new.items ≡ map {A = RowCell} row_seen cells.old.items ++ rows_below row.entry.key.now (rows_of newest.now) ++ later_row (row_seen row.entry) (rows_from row.entry.key.now (rows_of newest.now)) ∷ []) }
    ensures rest { IfOk result (λ rest. rows_of rest.now ≡ rows_past row.entry.key.now (rows_from row.entry.key.now (rows_of newest.now))) }
{
    let (sooner, from) = newest.split_at(count_below(newest, row.key));
    put_all(cells, sooner)?;
    push(cells, later_row(row, from))?;
    Ok(past(row.key, from))
}

// How many there are before the first whose key is not below this one.
fn count_below(newest: &[HistoryRecord], key: &[u8]) -> usize
    ensures within { result ≤ length newest.now }
    ensures below { rows_of (take result newest.now) ≡ rows_below key.now (rows_of newest.now) }
    ensures from { rows_of (drop result newest.now) ≡ rows_from key.now (rows_of newest.now) }
{
    for (i, of) in newest.iter().enumerate() {
        if !is_below(of, key) {
            return i;
        }
    }
    newest.len()
}

fn is_below(of: &HistoryRecord, key: &[u8]) -> bool
    ensures { result ≡ is_below of.now.key key.now }
{
    order(of.key.as_bytes(), key).is_lt()
}

fn put_all<'a>(cells: &mut Vec<Cell<'a>>, newest: &'a [HistoryRecord]) -> Result<(), NoMemory>
    ensures { OnOk result (map {A = RowCell} row_seen cells.new.items ≡ map {A = RowCell} row_seen cells.old.items ++ rows_of newest.now) }
{
    for of in newest {
        push(cells, cell_in(of))?;
    }
    Ok(())
}

fn push<'a>(cells: &mut Vec<Cell<'a>>, cell: Cell<'a>) -> Result<(), NoMemory>
    ensures { OnOk result (cells.new.items ≡ cells.old.items ++ cell.entry ∷ []) }
{
    match cells.push(cell) {
        Ok(()) => Ok(()),
        Err(_) => Err(NoMemory),
    }
}

// The row, or the first record, where that is of its key and later.
fn later_row<'a>(row: Cell<'a>, newest: &'a [HistoryRecord]) -> Cell<'a>
    ensures { row_seen result ≡ later_row (row_seen row.entry) (rows_of newest.now) }
{
    match newest.first() {
        Some(of) if of.key.as_bytes() == row.key && is_later(of, &row) => cell_in(of),
        _ => row,
    }
}

// The records behind the first, where that is of this key.
fn past<'a>(key: &[u8], newest: &'a [HistoryRecord]) -> &'a [HistoryRecord]
    ensures { rows_of result.now ≡ rows_past key.now (rows_of newest.now) }
{
    match newest.first() {
        Some(of) if of.key.as_bytes() == key => &newest[1..],
        _ => newest,
    }
}

/// The later of a row and a record of its key.
pub(crate) fn later_of<'a>(
    row: Option<Cell<'a>>,
    newest: Option<&'a HistoryRecord>,
) -> Option<Cell<'a>>
    ensures { option_map (λ c. (row_seen c).1) result ≡ later_of (option_map (λ c. (row_seen c).1) row.entry) (option_map (λ r. r.now.version) newest.entry) }
{
    match (row, newest) {
        (None, None) => None,
        (None, Some(of)) => Some(cell_in(of)),
        (Some(row), None) => Some(row),
        (Some(row), Some(of)) => Some(if is_later(of, &row) { cell_in(of) } else { row }),
    }
}

fn is_later(of: &HistoryRecord, row: &Cell<'_>) -> bool
    ensures { result ≡ is_before row.now.window.name of.now.version.window.name }
{
    let window = of.version.window;
    row.window.name.is_before(window.name)
}

// The record as a row.
fn cell_in(of: &HistoryRecord) -> Cell<'_>
    ensures { row_seen result ≡ row_of of.now }
{
    Cell {
        key: of.key.as_bytes(),
        window: of.version.window,
        change: change_in(&of.version.change),
    }
}

fn change_in(change: &CellChange<Item>) -> CellChange<&[u8]>
    ensures { change_seen result ≡ change.now }
{
    match change {
        CellChange::Put(value) => CellChange::Put(value.as_bytes()),
        CellChange::Remove => CellChange::Remove,
    }
}
