// The older versions of one leaf.
ghost use Rattle.std.specs.Prelude.{◌≡◌, ℕ, List, option_map, IfOk, IfSome};
ghost use Rattle.reconcile.specs.Capture.{ChainsFit};
ghost use Rattle.reconcile.specs.Moving.{versions_in};
ghost use Rattle.evict_step.specs.Backs.{AllFit};
ghost use Rattle.hist_gather.specs.Sources.{held_by, moved_at, older_at};

use crate::source::Source;
use engine::Local;
use evict_step::Moved;
use failure::NoMemory;
use leaf_frame::LeafFrame;
use reconcile::Live;
use std::alloc::Global;
use tree_dir::Leaf;

// The versions of a leaf that are gathered: of one in a frame those that lie below the newest one of
// their key and are in reach, of any other those that are kept of it. The error is want of memory.
pub(crate) fn older_of(alloc: Global, from: Source<'_>, leaf: &Leaf) -> Result<Vec<Moved>, NoMemory>
    ensures are { IfOk result (λ older. (key : List ℕ) → versions_in key older.items ≡ older_at from.entry leaf.now key) }
    ensures fit { IfOk result (λ older. AllFit older.items) }
{
    match frame_of(from.engine, leaf) {
        None => from.kept.copy_of(alloc, leaf.id),
        Some(frame) => moved_in(alloc, from, frame),
    }
}

// The leaf in its frame, if it is in one.
fn frame_of<'a>(engine: &'a Local, leaf: &Leaf) -> Option<&'a LeafFrame>
    ensures is { option_map (λ l. l.now) result ≡ held_by engine.now leaf.now }
    ensures fit { IfSome result (λ l. ChainsFit l.now.chains) }
{
    let framed = leaf.frame?;
    engine.leaf_in(framed.frame)
}

// What moves of a leaf that is in a frame. A row without updates above it is the newest version of its
// key, and has none below.
fn moved_in(alloc: Global, from: Source<'_>, frame: &LeafFrame) -> Result<Vec<Moved>, NoMemory>
    requires { ChainsFit frame.now.chains }
    ensures are { IfOk result (λ older. (key : List ℕ) → versions_in key older.items ≡ moved_at from.entry frame.now key) }
    ensures fit { IfOk result (λ older. AllFit older.items) }
{
    if !frame.is_changed() {
        return Ok(Vec::new(alloc));
    }
    // Its rows fit, so each that moves does.
    let _page = frame.page();
    let live = Live::Seen(from.snapshot);
    let made = frame.reconcile(alloc, live, from.horizon.pin, from.horizon.floor)?;
    Ok(made.moved)
}
