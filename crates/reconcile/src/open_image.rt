//! The image that is open.

ghost use Rattle.std.specs.Prelude.{◌≡◌, ◌<◌, ◌++◌, List, [], ◌∷◌, max, IfOk};
ghost use Rattle.std.specs.Bool.{MatchBool};
ghost use Rattle.row_page.specs.Rows.{Row, RowFits, key_most};
ghost use Rattle.row_page.specs.Views.{row_seen};
ghost use Rattle.leaf_rows.specs.Rows.{AreFit, image_length};
ghost use Rattle.reconcile.specs.Images.{SpellsRows};
ghost use Rattle.reconcile.specs.Making.{HasRows};

use crate::image::Image;
use failure::NoMemory;
use item::Item;
use row_page::{Cell, LeafWriter};
use stamp::Name;
use std::alloc::Global;

const IMAGE_MAX: usize = 32_768; // bytes

// The block of the rows so far, of which there are some, and what is greatest in them.
#[derive(Drop)]
pub(crate) struct OpenImage {
    pub low: Item,
    pub writer: LeafWriter,
    pub greatest: Name,
    pub durable: u64,
}

impl OpenImage {
    // The image of a first row. Two allocations: the bytes of the largest image, of which none is
    // written, and the key.
    pub(crate) fn with(alloc: Global, cell: &Cell<'_>) -> Result<OpenImage, NoMemory>
        requires { RowFits [] key_most (row_seen cell.now) }
        ensures { IfOk result (λ o. HasRows o (row_seen cell.now ∷ [])) }
    {
        let low = Item::new(Vec::from_slice(alloc, cell.key)?);
        let mut writer = LeafWriter::new(alloc, IMAGE_MAX)?;
        let _has_room = writer.push(cell);
        Ok(OpenImage {
            low,
            writer,
            greatest: cell.window.name,
            durable: cell.window.durable,
        })
    }

    // Puts a row behind the others. False where there is no room for it, and then nothing is
    // changed. Its bytes are copied once.
    #[inline(always)]
    pub(crate) fn push(&mut self, cell: &Cell<'_>) -> bool
        requires { RowFits [] key_most (row_seen cell.now) }
        ensures { (rows : List Row) → HasRows self.old rows → MatchBool result (HasRows self.new (rows ++ row_seen cell.now ∷ [])) (HasRows self.new rows × (32768 < image_length (rows ++ row_seen cell.now ∷ []))) }
    {
        if !self.writer.push(cell) {
            return false;
        }
        self.greatest = self.greatest.later(cell.window.name);
        self.durable = self.durable.max(cell.window.durable);
        true
    }

    // The image of the rows.
    pub(crate) fn finish(self) -> Image
        ensures { (rows : List Row) → HasRows self rows → AreFit rows → SpellsRows result rows }
    {
        Image {
            low: self.low,
            block: self.writer.finish(),
            greatest: self.greatest,
            durable: self.durable,
        }
    }
}
