//! Leaves that come into memory from a device.

ghost use Rattle.std.specs.Prelude.{◌≡◌, ◌⊎◌, ◌≤◌, ℕ, List, [], None, Some, length, IfErr, IfOk, OnErr, OnOk, IsTrue};
ghost use Rattle.disk_model.specs.Crash.{Looked};
ghost use Rattle.engine_world.specs.Stands.{Stands};
ghost use Rattle.engine_world.specs.Worlds.{World};
ghost use Rattle.engine.specs.Directories.{HubGoesOn};
ghost use Rattle.engine.specs.Waits.{IsAway, turns_in, waits_in};
ghost use Rattle.reconcile.specs.Capture.{ChainsFit};
ghost use Rattle.engine_world.specs.Coming.{ComesFrom};
ghost use Rattle.reconcile.specs.Moving.{versions_in};
ghost use Rattle.evict_step.specs.Backs.{AreNewestFirst, unlike};
ghost use Rattle.evict_step.specs.Kept.{list_of};
ghost use Rattle.engine_store.specs.Keeping.{with_kept};
ghost use Rattle.engine_store.specs.Loads.{IsReadAs, LacksLeaf, RefusesLeaf, ShelfIsOn};
ghost use Rattle.failure.specs.Counts.{Rose};
ghost use Rattle.row_page.specs.Rows.{Row};
ghost use Rattle.tree_dir.specs.declared.leaf.Leaf.{Leaf as ALeaf};
ghost use Rattle.tree_dir.specs.Leaves.{leaf_named};
ghost use Rattle.ckpt_step.specs.Parts.{has_rows};

use ckpt_step::Kept;
use device_layout::Link;
use disk_model::Disk;
use engine::Local;
use evict_step::bring_back;
use failure::NoMemory;
use leaf_frame::LeafFrame;
use leaf_load::{load_leaf, one_is_loaded};
use leaf_rows::Marks;
use std::alloc::Global;
use tree_dir::{Dir, Leaf};
use wt_code::Refusal;

// Marks by which each version of a leaf is kept: no run is later, and no stamp is asked.
const ALL: Marks = Marks {
    run: u64::MAX,
    oldest: 0,
    stable: 0,
    min: u64::MAX,
    max: u64::MAX,
};

/// Brings a leaf that is in no frame into one, with all rows of its block, and below them what is kept
/// of it, which is not kept any more then. Where the device has no such leaf, a read fails or memory is
/// short, nothing changes. `O(bytes)` of the leaf, which is read once, and of what is kept, which is
/// copied; and `O(log n)` in the leaves.
pub(crate) fn bring<D: Disk>(
    alloc: Global,
    disk: &mut D,
    kept: &mut Kept,
    engine: &mut Local,
    leaf: u64,
) -> Result<(), Refusal>
    requires away { IsAway engine.old.hub.dir.leaves leaf }
    ensures stands { IsTrue (D.honest disk.old) → (w : World) → Stands engine.old (with_kept kept.old w) → ShelfIsOn (D.seen disk.old) engine.old.hub.dir w.shelf leaf → OnOk result (Stands engine.new (with_kept kept.new w)) }
    ensures goes { OnOk result (HubGoesOn engine.old.hub engine.new.hub) }
    ensures ready { (session : ℕ) → waits_in engine.old session ≡ Some leaf → OnOk result (waits_in engine.new session ≡ None) }
    ensures turns { (session : ℕ) → OnOk result (turns_in engine.new session ≡ turns_in engine.old session) }
    ensures sessions { engine.new.sessions ≡ engine.old.sessions }
    ensures kept { OnErr result (engine.new ≡ engine.old) }
    ensures keeps { OnErr result (kept.new ≡ kept.old) }
    ensures err { IfErr result (RefusesLeaf D.Disk engine.old.hub.dir leaf disk.old disk.new) }
    ensures lacks { IsTrue (D.honest disk.old) → (shelf : ℕ → List Row) → ShelfIsOn (D.seen disk.old) engine.old.hub.dir shelf leaf → IfErr result (LacksLeaf (Rose (D.faults disk.old) (D.faults disk.new))) }
    ensures looked { Looked D.Disk disk.old disk.new }
    ensures home { D.home disk.new ≡ D.home disk.old }
{
    let read = match read_whole(alloc, disk, engine.leaves(), leaf) {
        Ok(read) => read,
        Err(refusal) => return Err(refusal),
    };
    let Ok(page) = with_moved(alloc, kept, leaf, read) else {
        return Err(Refusal::NoMemory);
    };
    match engine.fill(leaf, page) {
        Ok(()) => {
            kept.forget(leaf);
            Ok(())
        }
        Err(NoMemory) => Err(Refusal::NoMemory),
    }
}

// A leaf as it was read, with what is kept of it below its rows, but what is a row. The error is want of
// memory.
pub(crate) fn with_moved(
    alloc: Global,
    kept: &Kept,
    leaf: u64,
    read: LeafFrame,
) -> Result<LeafFrame, NoMemory>
    requires { read.chains ≡ [] }
    ensures comes { IfOk result (λ held. AreNewestFirst read.page (unlike read.page (list_of kept.now leaf)) → ComesFrom held read.page (λ key. versions_in key (unlike read.page (list_of kept.now leaf)))) }
    ensures alone { IfOk result (λ held. AreNewestFirst read.page (unlike read.page (list_of kept.now leaf)) → 1 ≤ length held.page → unlike read.page (list_of kept.now leaf) ≡ []) }
    ensures fit { IfOk result (λ held. ChainsFit held.chains) }
{
    let moved = kept.copy_of(alloc, leaf)?;
    bring_back(alloc, read, moved)
}

// The leaf of this id, with all rows of its block. Nothing is read where its link leads to no rows:
// such a block may be gone.
fn read_whole<D: Disk>(
    alloc: Global,
    disk: &mut D,
    leaves: &Dir,
    leaf: u64,
) -> Result<LeafFrame, Refusal>
    ensures ok { IsTrue (D.honest disk.old) → (shelf : ℕ → List Row) → ShelfIsOn (D.seen disk.old) leaves.now shelf leaf → IfOk result (λ held. held.page ≡ shelf leaf) }
    ensures bare { IfOk result (λ held. held.chains ≡ []) }
    ensures err { IfErr result (RefusesLeaf D.Disk leaves.now leaf disk.old disk.new) }
    ensures lacks { IsTrue (D.honest disk.old) → (shelf : ℕ → List Row) → ShelfIsOn (D.seen disk.old) leaves.now shelf leaf → IfErr result (LacksLeaf (Rose (D.faults disk.old) (D.faults disk.new))) }
    ensures looked { Looked D.Disk disk.old disk.new }
    ensures home { D.home disk.new ≡ D.home disk.old }
{
    one_is_loaded();
    if !leads_to_rows(leaves, leaf) {
        return Ok(LeafFrame::new(alloc));
    }
    read_leaf(alloc, disk, leaves, leaf, ALL, &[])
}

// Whether the link of the leaf of this id says a name.
fn leads_to_rows(leaves: &Dir, leaf: u64) -> bool
    ensures { (l : ALeaf) → leaf_named leaf leaves.now.leaves ≡ Some l → result ≡ has_rows l.entry.link }
{
    match leaves.leaf(leaf) {
        None => false,
        Some(found) => found.entry.link.greatest.id != 0,
    }
}

/// The leaf of this id, as an opening with these marks keeps it: a page under no chains. `O(bytes)`
/// of the leaf, which is read once, and `O(log n)` in the leaves.
pub(crate) fn read_leaf<D: Disk>(
    alloc: Global,
    disk: &mut D,
    leaves: &Dir,
    leaf: u64,
    marks: Marks,
    ids: &[u64],
) -> Result<LeafFrame, Refusal>
    ensures ok { IsTrue (D.honest disk.old) → IfOk result (IsReadAs (D.seen disk.old) leaves.now leaf marks ids.now) }
    ensures bare { IfOk result (λ held. held.chains ≡ []) }
    ensures err { IfErr result (RefusesLeaf D.Disk leaves.now leaf disk.old disk.new) }
    ensures looked { Looked D.Disk disk.old disk.new }
    ensures home { D.home disk.new ≡ D.home disk.old }
{
    leaves.stands();
    // A leaf that is asked for is in the directory.
    let Some(found) = leaves.leaf(leaf) else {
        return Err(Refusal::NoMemory);
    };
    let low = low_of(found);
    let link = link_of(found);
    match leaves.next_leaf(leaf) {
        None => load_leaf(alloc, disk, link, low, None, marks, ids),
        Some(next) => match leaves.leaf(next) {
            None => Err(Refusal::NoMemory),
            Some(next) => load_leaf(alloc, disk, link, low, Some(low_of(next)), marks, ids),
        },
    }
}

fn low_of(leaf: &Leaf) -> &[u8]
    ensures { result.now ≡ leaf.now.entry.key }
{
    leaf.entry.key.as_bytes()
}

pub(crate) fn link_of(leaf: &Leaf) -> Link
    ensures { result ≡ leaf.now.entry.link }
{
    leaf.entry.link
}
