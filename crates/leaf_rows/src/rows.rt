// The rows, and what is asked of them.
ghost use Rattle.std.specs.Prelude.{◌≡◌, ◌||◌, ◌==◌, ◌++◌, nat_le, List, [], ◌∷◌, IfOk, OnOk, OnErr};
ghost use Rattle.kv_model.specs.Content.{sees_id, sees_name};
ghost use Rattle.row_page.specs.Rows.{Row, RowFits, key_most};
ghost use Rattle.row_page.specs.Views.{row_seen};
ghost use Rattle.leaf_rows.specs.Rows.{AreFit, IsAboveLast};
ghost use Rattle.std.specs.List.{list_any};
ghost use Rattle.leaf_rows.specs.Contents.{is_seen_window, seen_rows};

use crate::Marks;
use failure::NoMemory;
use item::Item;
use row_page::{Cell, CellChange, Leaf};
use stamp::{Name, Version, Window};
use std::alloc::{AllocError, Global};
use std::marker::Model;

/// Rows in the order of their keys: each key with its newest version. It is seen as their list.
#[derive(Drop)]
pub struct Rows {
    rows: Vec<(Item, Version<CellChange<Item>>)>,
}

impl Model for Rows {
    ghost Value = { List Row };

    ghost view = { λ s. s.rows.items };

    ghost invariant = { λ s. AreFit s.rows.items };
}

impl Rows {
    /// No rows. Takes no memory.
    pub fn new(alloc: Global) -> Self
        ensures { result ≡ [] }
    {
        Rows {
            rows: Vec::new(alloc),
        }
    }

    /// The rows of a leaf, each key and value copied once. The error is want of memory.
    /// `O(bytes)`.
    pub fn of_leaf(alloc: Global, leaf: &Leaf) -> Result<Self, NoMemory>
        requires { AreFit leaf.now }
        ensures { IfOk result (λ s. s ≡ leaf.now) }
    {
        let rows = copied(alloc, leaf)?;
        Ok(Rows { rows })
    }

    /// Takes out what an opening does not keep: versions that the recorded snapshot does not see,
    /// those of the transactions that were running, of these ids, among them, or that are not
    /// durable at the recorded stable stamp. `O(n)` in the rows, times the ids, and it takes no
    /// memory.
    pub fn keep_seen(&mut self, marks: Marks, running: &[u64])
        ensures { self.new ≡ seen_rows marks running.now self.old }
    {
        keep_seen(&mut self.rows, marks, running);
    }

    /// Puts a row behind all others: its key is above that of the last. `O(1)`, and no memory where
    /// there is room. Where memory is short nothing is changed.
    pub fn push(&mut self, key: Item, version: Version<CellChange<Item>>) -> Result<(), NoMemory>
        requires fits { RowFits [] key_most (key, version) }
        requires above { IsAboveLast key self.old }
        ensures pushed { OnOk result (self.new ≡ self.old ++ (key, version) ∷ []) }
        ensures same { OnErr result (self.new ≡ self.old) }
    {
        self.rows.reserve(1)?;
        self.rows.push_reserved((key, version));
        Ok(())
    }

    /// The rows themselves. None is copied.
    pub fn into_rows(self) -> Vec<(Item, Version<CellChange<Item>>)>
        ensures rows { result.items ≡ self }
        ensures fit { AreFit result.items }
    {
        self.rows
    }
}

// An item of these bytes.
fn item_of(alloc: Global, bytes: &[u8]) -> Result<Item, NoMemory>
    ensures { IfOk result (λ item. item ≡ bytes.now) }
{
    Ok(Item::new(Vec::from_slice(alloc, bytes)?))
}

// A row of its own, with the cell's key and version.
fn owned(alloc: Global, cell: &Cell<'_>) -> Result<(Item, Version<CellChange<Item>>), NoMemory>
    ensures { IfOk result (λ row. row ≡ row_seen cell.now) }
{
    let key = item_of(alloc, cell.key)?;
    let change = match cell.change {
        CellChange::Put(value) => CellChange::Put(item_of(alloc, value)?),
        CellChange::Remove => CellChange::Remove,
    };
    Ok((
        key,
        Version {
            window: cell.window,
            change,
        },
    ))
}

fn push(
    rows: &mut Vec<(Item, Version<CellChange<Item>>)>,
    row: (Item, Version<CellChange<Item>>),
) -> Result<(), NoMemory>
    ensures { OnOk result (rows.new.items ≡ rows.old.items ++ row ∷ []) }
{
    match rows.push(row) {
        Ok(()) => Ok(()),
        Err(failed) => Err(AllocError::from(failed).into()),
    }
}

fn copied(alloc: Global, leaf: &Leaf) -> Result<Vec<(Item, Version<CellChange<Item>>)>, NoMemory>
    ensures { IfOk result (λ v. v.items ≡ leaf.now) }
{
    let mut rows = Vec::new(alloc);
    rows.reserve(leaf.len())?;
    for i in 0..leaf.len() {
        let row = owned(alloc, &leaf.cell(i))?;
        push(&mut rows, row)?;
    }
    Ok(rows)
}

fn keep_seen(rows: &mut Vec<(Item, Version<CellChange<Item>>)>, marks: Marks, running: &[u64])
    ensures { rows.new.items ≡ seen_rows marks running.now rows.old.items }
{
    rows.retain(|row| is_seen(&marks, running, &row.1.window));
}

fn is_stable(marks: &Marks, durable: u64) -> bool
    ensures { result ≡ (marks.now.stable == 0) || nat_le durable marks.now.stable }
{
    marks.stable == 0 || durable <= marks.stable
}

// An opening keeps the version: the recorded snapshot, in which these ids were running, sees its
// name, and it is durable at the recorded stable stamp.
fn is_seen(marks: &Marks, running: &[u64], window: &Window) -> bool
    ensures { result ≡ is_seen_window marks.now running.now window.now }
{
    sees_among(marks, running, window.name) && is_stable(marks, window.durable)
}

fn sees_among(marks: &Marks, running: &[u64], name: Name) -> bool
    ensures { result ≡ sees_name marks.now.run (record { min = marks.now.min; max = marks.now.max; ids = running.now }) name }
{
    name.run < marks.run || (name.run == marks.run && sees_id(marks, running, name.id))
}

fn sees_id(marks: &Marks, running: &[u64], id: u64) -> bool
    ensures { result ≡ sees_id (record { min = marks.now.min; max = marks.now.max; ids = running.now }) id }
{
    id < marks.min || (id < marks.max && !is_listed(running, id))
}

fn is_listed(ids: &[u64], id: u64) -> bool
    ensures { result ≡ list_any (λ n. n == id) ids.now }
{
    ids.iter().any(|n| *n == id)
}
