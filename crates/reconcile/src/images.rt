//! Rows as they are cut into images.

ghost use Rattle.std.specs.Prelude.{◌≡◌, ◌≢◌, ◌<◌, ◌++◌, List, [], ◌∷◌, false, IfOk, OnOk, None};
ghost use Rattle.std.specs.Bool.{MatchBool};
ghost use Rattle.row_page.specs.Rows.{Row, RowFits, key_most};
ghost use Rattle.row_page.specs.Views.{row_seen};
ghost use Rattle.leaf_rows.specs.Rows.{AreFit, image_length};
ghost use Rattle.reconcile.specs.Images.{AreImages};
ghost use Rattle.reconcile.specs.Making.{HaveRows, IsClosed, OpenHas};

use crate::image::Image;
use crate::open_image::OpenImage;
use failure::NoMemory;
use row_page::Cell;
use std::alloc::Global;

// The images that are done, and the one that rows are put into.
#[derive(Drop)]
pub(crate) struct Images {
    pub done: Vec<Image>,
    pub opened: Option<OpenImage>,
}

impl Images {
    // Without rows. Takes no memory.
    pub(crate) fn new(alloc: Global) -> Images
        ensures { HaveRows result [] }
    {
        Images {
            done: Vec::new(alloc),
            opened: None,
        }
    }

    // Puts a row behind the others: into the image that is open, or into a new one where it has no
    // room. Its bytes are copied once.
    pub(crate) fn push(&mut self, alloc: Global, cell: &Cell<'_>) -> Result<(), NoMemory>
        requires { RowFits [] key_most (row_seen cell.now) }
        ensures { OnOk result ((rows : List Row) → HaveRows self.old rows → AreFit rows → HaveRows self.new (rows ++ row_seen cell.now ∷ [])) }
    {
        if push_open(&mut self.opened, cell) {
            return Ok(());
        }
        let next = OpenImage::with(alloc, cell)?;
        close(&mut self.done, self.opened.take())?;
        self.opened = Some(next);
        Ok(())
    }

    // The images of the rows.
    pub(crate) fn finish(self) -> Result<Vec<Image>, NoMemory>
        ensures { IfOk result (λ images. (rows : List Row) → HaveRows self rows → AreFit rows → AreImages images.items rows) }
    {
        let Images { mut done, opened } = self;
        close(&mut done, opened)?;
        Ok(done)
    }
}

// Puts a row into the image that is open. False where none is, or it has no room.
fn push_open(opened: &mut Option<OpenImage>, cell: &Cell<'_>) -> bool
    requires { RowFits [] key_most (row_seen cell.now) }
    ensures put { (rows : List Row) → OpenHas opened.old rows → MatchBool result (OpenHas opened.new (rows ++ row_seen cell.now ∷ [])) (OpenHas opened.new rows × (rows ≢ [] → 32768 < image_length (rows ++ row_seen cell.now ∷ []))) }
    ensures none { opened.old ≡ None → (result ≡ false) × (opened.new ≡ None) }
{
    match opened {
        None => false,
        Some(image) => image.push(cell),
    }
}

// Puts the image that was open behind those that are done.
fn close(done: &mut Vec<Image>, opened: Option<OpenImage>) -> Result<(), NoMemory>
    ensures { OnOk result ((rows : List Row) → OpenHas opened rows → AreFit rows → IsClosed done.old.items opened rows done.new.items) }
{
    if let Some(image) = opened {
        done.reserve(1)?;
        done.push_reserved(image.finish());
    }
    Ok(())
}
