// The images of a leaf that is written out.
ghost use Rattle.std.specs.Prelude.{◌≡◌, ◌⊎◌, ◌≤◌, List, None, length, true, false, option_map, IfOk, IfSome, IsTrue};
ghost use Rattle.std.specs.List.{AllByRecursion};
ghost use Rattle.reconcile.specs.declared.image.Image.{Image as AnImage};
ghost use Rattle.reconcile.specs.Images.{AreImages};
ghost use Rattle.leaf_rows.specs.Rows.{AreFit};
ghost use Rattle.row_page.specs.Rows.{Row, is_below, key_most};
ghost use Rattle.snapshot.specs.Matters.{NoneResolves};
ghost use Rattle.tree_write.specs.Drafts.{AreFrom};
ghost use Rattle.engine_world.specs.Stands.{Stands};
ghost use Rattle.engine_world.specs.Worlds.{World};
ghost use Rattle.engine.specs.Frames.{IsFramed};
ghost use Rattle.ckpt_step.specs.CutOuts.{AreAhead, AreOldAt, IsCutOut, MayReplace};
ghost use Rattle.ckpt_step.specs.WritesOut.{IsNotOld};

use crate::clean::frame_of;
use crate::giving::behind;
use crate::leaves::{images_of, is_below, may_begin_behind, stand_from};
use engine::Local;
use failure::NoMemory;
use frame_capture::captures_are_newest;
use inner_page::Entry;
use item::Item;
use reconcile::Image;
use std::alloc::Global;

// What is written of a leaf.
#[derive(Drop)]
pub(crate) struct LeafCut {
    // Its table.
    pub(crate) table: u32,
    // Its low key.
    pub(crate) low: Item,
    // The newest versions of its keys.
    pub(crate) images: Vec<Image>,
}

// The images of the leaf of this id, where it may be written out. The error is want of memory.
pub(crate) fn cut_leaf(
    alloc: Global,
    engine: &Local,
    leaf: u64,
) -> Result<Option<LeafCut>, NoMemory>
    ensures cut { IfOk result (λ o. IfSome o (λ cut. IsCutOut engine.now leaf cut)) }
    ensures none { IfOk result (λ o. o ≡ None → (w : World) → Stands engine.now w → NoneResolves w.machine → (IsFramed engine.now.hub.dir.leaves leaf → ⊥) ⊎ IsNotOld w.machine engine.now.hub.dir.leaves leaf) }
{
    captures_are_newest();
    let Some(found) = engine.leaves().leaf(leaf) else {
        return Ok(None);
    };
    let Some(frame) = frame_of(engine, found) else {
        return Ok(None);
    };
    let snapshot = engine.checkpoint_snapshot(alloc)?;
    let images = images_of(alloc, frame, &snapshot)?;
    if images.is_empty() || !are_old(&images, engine.marks().oldest) {
        return Ok(None);
    }
    let cut = in_place(engine, leaf, images)?;
    Ok(Some(cut))
}

// Images with the table and the low key of the leaf in whose place they stand, as those of each leaf
// may. The error is want of memory.
pub(crate) fn in_place(engine: &Local, leaf: u64, images: Vec<Image>) -> Result<LeafCut, NoMemory>
    requires { 1 ≤ length images.items }
    ensures are { IfOk result (λ cut. cut.images ≡ images) }
    ensures place { IfOk result (λ cut. (rows : List Row) → AreImages images.items rows → AreFit rows → MayReplace engine.now leaf cut rows) }
{
    let Some(found) = engine.leaves().leaf(leaf) else {
        return Err(NoMemory);
    };
    let low = found.entry.key.copy()?;
    if !may_stand(&images, &low, behind(engine.leaves(), leaf)) {
        return Err(NoMemory);
    }
    Ok(LeafCut {
        table: found.table,
        low,
        images,
    })
}

// Whether each image is durable at this stamp.
fn are_old(images: &[Image], oldest: u64) -> bool
    ensures yes { IsTrue result → AreOldAt oldest images.now }
    ensures no { result ≡ false → AreOldAt oldest images.now → ⊥ }
{
    for image in images {
        if image.durable > oldest {
            return false;
        }
    }
    true
}

// Whether the leaves of images may stand where the leaf of this low key does, with this entry behind it,
// as those of each leaf may.
fn may_stand(images: &[Image], low: &Item, next: Option<&Entry>) -> bool
    ensures short { IsTrue result → length low.now ≤ key_most }
    ensures from { IsTrue result → (rows : List Row) → AreImages images.now rows → AreFit rows → AreFrom low.now rows }
    ensures ahead { IsTrue result → IfSome (option_map (λ e. e.now) next.entry) (λ e. AreAhead low.now images.now e.key) }
{
    may_begin_behind(&[], low) && stand_from(images, low) && are_ahead(images, low, next)
}

// Whether this low key and those of the images are below that of an entry.
fn are_ahead(images: &[Image], low: &Item, next: Option<&Entry>) -> bool
    ensures { IsTrue result → IfSome (option_map (λ e. e.now) next.entry) (λ e. AreAhead low.now images.now e.key) }
{
    match next {
        None => true,
        Some(next) => is_below(low, &next.key) && are_below(images, &next.key),
    }
}

// Whether the low keys of the images are below a key.
fn are_below(images: &[Image], key: &Item) -> bool
    ensures { IsTrue result → AllByRecursion (λ (i : AnImage). is_below i.low key.now ≡ true) images.now }
{
    for image in images {
        if !is_below(&image.low, key) {
            return false;
        }
    }
    true
}
