//! The rows of a leaf, as they are gathered.

ghost use Rattle.std.specs.Prelude.{◌≡◌, ◌<◌, ◌++◌, List, [], ◌∷◌, max, IfOk};
ghost use Rattle.std.specs.Bool.{MatchBool};
ghost use Rattle.row_page.specs.Rows.{Row, RowFits, key_most};
ghost use Rattle.row_page.specs.Views.{row_seen};
ghost use Rattle.leaf_rows.specs.Rows.{AreFit, image_length};
ghost use Rattle.reconcile.specs.Gathered.{HasGathered};
ghost use Rattle.reconcile.specs.Leaf.{HasRows};

use crate::leaf::{Captured, CapturedLeaf};
use failure::NoMemory;
use row_page::{Cell, LeafWriter};
use stamp::Name;
use std::alloc::Global;

const IMAGE_MAX: usize = 32_768; // bytes

/// The block of the rows so far, and what is greatest in them.
#[derive(Drop)]
pub struct Gathered {
    /// What the rows are written to.
    pub writer: LeafWriter,
    /// The greatest name of a version, 0 and 0 where there are no rows.
    pub greatest: Name,
    /// The greatest durable stamp of a version, 0 where there are no rows.
    pub durable: u64,
    /// Whether there are no rows.
    pub is_empty: bool,
}

impl Gathered {
    /// No rows. The error is want of memory. One allocation, of the bytes of the largest leaf. None
    /// of them is written.
    pub fn new(alloc: Global) -> Result<Gathered, NoMemory>
        ensures { IfOk result (λ g. HasGathered g []) }
    {
        Ok(Gathered {
            writer: LeafWriter::new(alloc, IMAGE_MAX)?,
            greatest: Name { run: 0, id: 0 },
            durable: 0,
            is_empty: true,
        })
    }

    /// Puts a row behind the others. False where one leaf has no room for it. It takes no memory, and
    /// the row's bytes are copied once.
    pub fn push(&mut self, cell: &Cell<'_>) -> bool
        requires { RowFits [] key_most (row_seen cell.now) }
        ensures { (rows : List Row) → HasGathered self.old rows → MatchBool result (HasGathered self.new (rows ++ row_seen cell.now ∷ [])) (32768 < image_length (rows ++ row_seen cell.now ∷ [])) }
    {
        if !self.writer.push(cell) {
            return false;
        }
        self.greatest = self.greatest.later(cell.window.name);
        self.durable = self.durable.max(cell.window.durable);
        self.is_empty = false;
        true
    }

    /// The leaf of the rows. It takes no memory.
    pub fn finish(self) -> Captured
        ensures { (rows : List Row) → HasGathered self rows → AreFit rows → HasRows result rows }
    {
        if self.is_empty {
            return Captured::Nothing;
        }
        Captured::Leaf(CapturedLeaf {
            block: self.writer.finish(),
            greatest: self.greatest,
            durable: self.durable,
        })
    }
}
