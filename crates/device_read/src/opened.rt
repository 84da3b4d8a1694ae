//! A leaf as an opening keeps it.

ghost use Rattle.std.specs.Prelude.{◌≡◌, ◌↔◌, ◌<◌, List, Some, length, slice_get, IfOk, IsTrue};
ghost use Rattle.row_page.specs.Rows.{Row};
ghost use Rattle.row_page.specs.Views.{row_seen};
ghost use Rattle.device_read.specs.Lent.{lent_rows};
ghost use Rattle.device_read.specs.Merging.{merged};
ghost use Rattle.device_read.specs.Newest.{rows_of};

use crate::merging::merged;
use failure::NoMemory;
use inner_page::HistoryRecord;
use leaf_frame::LeafFrame;
use row_page::{Cell, Leaf};
use std::alloc::Global;
use std::marker::Model;

/// A leaf of a table as an opening keeps it: the rows of its page that are kept, and among them the newest
/// records of the history, where they are of other keys or later.
#[derive(Drop)]
pub struct OpenedLeaf<'a> {
    pub(crate) leaf: LeafFrame,
    // Those that stand in it.
    pub(crate) newest: &'a [HistoryRecord],
}

impl<'a> Model for OpenedLeaf<'a> {
    ghost use Rattle.device_read.specs.Merging.{merged};
    ghost use Rattle.device_read.specs.Newest.{rows_of};
    ghost use Rattle.row_page.specs.Rows.{Row};
    ghost use Rattle.std.specs.Prelude.{List};

    ghost Value = { List Row };

    ghost view = { λ a. merged a.leaf.page (rows_of a.newest.now) };
}

impl<'a> OpenedLeaf<'a> {
    /// Its rows, lent, in the order of their keys. Where no record is among them, they are those of the
    /// page, and this takes no memory; else `O(n)` comparisons in the rows and the records. The error is
    /// want of memory.
    pub fn rows(&self, alloc: Global) -> Result<LeafRows<'_>, NoMemory>
        ensures { IfOk result (λ rows. lent_rows rows ≡ self.now) }
    {
        let page = self.leaf.page();
        if self.newest.is_empty() {
            return Ok(LeafRows::Page(page));
        }
        Ok(LeafRows::Cells(merged(alloc, page, self.newest)?))
    }
}

/// The rows of a leaf, lent.
#[derive(Drop)]
pub enum LeafRows<'a> {
    /// Those of a page, none where there is none.
    Page(Option<&'a Leaf>),
    /// These.
    Cells(Vec<Cell<'a>>),
}

impl<'a> LeafRows<'a> {
    /// The number of rows.
    pub fn len(&self) -> usize
        ensures { result ≡ length (lent_rows self.now) }
    {
        match self {
            LeafRows::Page(None) => 0,
            LeafRows::Page(Some(page)) => page.len(),
            LeafRows::Cells(cells) => cells.len(),
        }
    }

    /// Whether there are no rows.
    pub fn is_empty(&self) -> bool
        ensures { IsTrue result ↔ (length (lent_rows self.now) ≡ 0) }
    {
        self.len() == 0
    }

    /// The i-th row, lent. `O(1)`.
    pub fn cell(&self, i: usize) -> Cell<'_>
        requires { i < length (lent_rows self.now) }
        ensures { slice_get (lent_rows self.now) i ≡ Some (row_seen result) }
    {
        match self {
            LeafRows::Page(None) => unreachable!(),
            LeafRows::Page(Some(page)) => page.cell(i),
            LeafRows::Cells(cells) => cells[i],
        }
    }
}
