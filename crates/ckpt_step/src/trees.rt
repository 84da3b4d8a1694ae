// The trees of a checkpoint, as they are written and captured.
ghost use Rattle.std.specs.Prelude.{◌≡◌, ◌≤◌, ◌+◌, ◌++◌, ◌∷◌, List, Option, None, Some, [], length, map, take, true, slice_get, IfErr, IfOk, OnErr, OnOk, IsTrue};
ghost use Rattle.std.specs.List.{AllByRecursion};
ghost use Rattle.failure.specs.Counts.{Rose};
ghost use Rattle.wt_code.specs.StoreErrors.{IsOfDisk};
ghost use Rattle.wt_code.specs.declared.store_error.StoreError.TheVariants.{NoMemory as WantOfMemory};
ghost use Rattle.disk_model.specs.Crash.{SameDisk};
ghost use Rattle.extent_list.specs.Space.{end_of};
ghost use Rattle.kv_model.specs.History.{Table};
ghost use Rattle.kv_model.specs.Holds.{Member};
ghost use Rattle.row_page.specs.Rows.{Row};
ghost use Rattle.reconcile.specs.Capture.{ChainsFit};
ghost use Rattle.reconcile.specs.Images.{AreImages};
ghost use Rattle.stored.specs.Stored.{Stored};
ghost use Rattle.stored.specs.TableTree.{Climbs, Entry as StoredEntry, EntryFits, first_key};
ghost use Rattle.tree_dir.specs.Leaves.{leaves_of};
ghost use Rattle.ckpt_content.specs.Finished.{tables_then};
ghost use Rattle.frame_capture.specs.Capture.{IsCaptured};
ghost use Rattle.block_mgr.specs.Blocks.{Books};
ghost use Rattle.tree_write.specs.Keeps.{AreLive, KeepsAll};
ghost use Rattle.ckpt_step.specs.Floors.{AreOnDevice, FollowsFrom};
ghost use Rattle.ckpt_step.specs.Rooms.{known_in};
ghost use Rattle.ckpt_step.specs.Goings.{Goes, HasPartsAt, MayGo};
ghost use Rattle.ckpt_step.specs.Grounds.{AreRoots, AreSince, AreWritten};
ghost use Rattle.ckpt_step.specs.Halves.{Half, Writes};
ghost use Rattle.ckpt_step.specs.Lives.{live_addrs};
ghost use Rattle.ckpt_step.specs.Moments.{IsMoment, Moment};
ghost use Rattle.ckpt_step.specs.Trees.{AreLow, AreTold, placed_by};

use crate::before::Before;
use crate::clean::clean_tree;
use crate::leaves::take_leaves;
use crate::taken::Taken;
use block_mgr::Blocks;
use disk_model::Disk;
use engine::Local;
use snapshot::Snapshot;
use std::alloc::Global;
use tree_open::TreePlace;
use tree_write::{TreeDraft, keep_tree, may_keep};
use wt_code::StoreError;

// Writes and captures the tree of each of the first tables, by place: `was` tells what the checkpoint
// before has, and `taken`, which is empty, gets the new ones, each leaf that is written, and each block
// that is captured; after an error it has the first of them. A clean tree is captured as it stands; of
// any other table each leaf that is clean, or in no frame, keeps its entries, the rows of any other are
// cut into images once, of which one that is the same at the same place in the leaf keeps its block,
// and the inner pages are written.
pub(crate) fn write_trees<D: Disk>(
    alloc: Global,
    disk: &mut D,
    blocks: &mut Blocks,
    was: Before<'_>,
    engine: &Local,
    snapshot: &Snapshot,
    tables: u32,
    taken: &mut Taken,
) -> Result<(), StoreError>
    requires held { blocks.old.is_held ≡ true }
    requires none { taken.old.trees.items ≡ [] }
    requires unwritten { taken.old.parts.items ≡ [] }
    requires unlisted { taken.old.captured.items ≡ [] }
    requires low { AreLow was.trees.now }
    requires ready { IsTrue (D.honest disk.old) → end_of blocks.old.space ≤ length (D.seen disk.old) }
    ensures writes { IsTrue (D.honest disk.old) → (n : Moment) → IsMoment engine.now snapshot.now.sight was.entry.floor n → tables ≡ length (tables_then n.world.machine n.checkpoint) → (old : Option Stored)
        → Half (D.seen disk.old) (D.may_leave disk.old) blocks.old old was.entry.lives.now [] [] [] → AreRoots engine.now.hub.tables.tables was.entry.lives.now engine.now.hub.dir.leaves (known_in was.entry.parts.now) was.entry.trees.now old → AreWritten engine.now.hub.tables.tables was.entry.lives.now engine.now.hub.dir (known_in was.entry.parts.now) was.entry.trees.now → AreSince old was.entry.lives.now engine.now.hub.dir (known_in was.entry.parts.now)
        → FollowsFrom old engine.now.hub.tables.tables was.entry.lives.now engine.now.hub.dir.leaves (known_in was.entry.parts.now) was.entry.trees.now was.entry.floor n.world → AreOnDevice (D.seen disk.old) was.entry.lives.now engine.now.hub.dir.leaves n.world.shelf
        → Writes D.Disk old was.entry.lives.now n (take tables engine.now.hub.tables.tables) engine.now.hub.dir.leaves (known_in was.entry.parts.now) blocks.old blocks.new (placed_by was.entry.trees.now taken.new.trees.items) taken.new.parts.items taken.new.captured.items disk.old disk.new result }
    ensures ready { IsTrue (D.honest disk.old) → OnOk result (end_of blocks.new.space ≤ length (D.seen disk.new)) }
    ensures count { OnOk result (length taken.new.trees.items ≡ tables) }
    ensures told { OnOk result (AreTold was.entry.trees.now taken.new.trees.items) }
    ensures held { blocks.new.is_held ≡ true }
    ensures fault { IfErr result (λ e. IsOfDisk e → Rose (D.faults disk.old) (D.faults disk.new)) }
    ensures disk { SameDisk D.Disk disk.old disk.new }
{
    for place in 0..tables {
        take_table(alloc, disk, blocks, was, engine, snapshot, place, taken)?;
    }
    Ok(())
}

// Captures the tree of the table at a place, and puts where it stands behind the others: a clean one
// as it stands in the checkpoint before; any other as `write_table` does.
fn take_table<D: Disk>(
    alloc: Global,
    disk: &mut D,
    blocks: &mut Blocks,
    was: Before<'_>,
    engine: &Local,
    snapshot: &Snapshot,
    place: u32,
    taken: &mut Taken,
) -> Result<(), StoreError>
    requires held { blocks.old.is_held ≡ true }
    requires low { AreLow was.trees.now }
    requires told { AreTold was.trees.now taken.old.trees.items }
    requires placed { length taken.old.trees.items ≡ place }
    requires ready { IsTrue (D.honest disk.old) → end_of blocks.old.space ≤ length (D.seen disk.old) }
    ensures goes { IsTrue (D.honest disk.old) → (n : Moment) → IsMoment engine.now snapshot.now.sight was.entry.floor n → (t : Table) → slice_get engine.now.hub.tables.tables place ≡ Some t → Member t (tables_then n.world.machine n.checkpoint)
        → (old : Option Stored) (first : Books) → MayGo (D.seen disk.old) (D.may_leave disk.old) first blocks.old old was.entry.trees.now (live_addrs was.entry.lives.now (leaves_of t.number engine.now.hub.dir.leaves)) place → HasPartsAt old was.entry.lives.now engine.now.hub.dir.leaves (known_in was.entry.parts.now) was.entry.trees.now t place
        → FollowsFrom old engine.now.hub.tables.tables was.entry.lives.now engine.now.hub.dir.leaves (known_in was.entry.parts.now) was.entry.trees.now was.entry.floor n.world → AreOnDevice (D.seen disk.old) was.entry.lives.now engine.now.hub.dir.leaves n.world.shelf
        → Goes D.Disk old first was.entry.trees.now was.entry.lives.now engine.now.hub.dir.leaves (known_in was.entry.parts.now) n t place blocks.old blocks.new (placed_by was.entry.trees.now taken.old.trees.items) (placed_by was.entry.trees.now taken.new.trees.items) taken.old.parts.items taken.new.parts.items taken.old.captured.items taken.new.captured.items disk.old disk.new result }
    ensures count { OnOk result (length taken.new.trees.items ≡ length taken.old.trees.items + 1) }
    ensures told { OnOk result (AreTold was.entry.trees.now taken.new.trees.items) }
    ensures ready { IsTrue (D.honest disk.old) → OnOk result (end_of blocks.new.space ≤ length (D.seen disk.new)) }
    ensures held { blocks.new.is_held ≡ true }
    ensures fault { IfErr result (λ e. IsOfDisk e → Rose (D.faults disk.old) (D.faults disk.new)) }
    ensures disk { SameDisk D.Disk disk.old disk.new }
{
    if let Some(tree) = clean_tree(engine, place, was) {
        if may_keep(blocks, tree) {
            return keep_table(blocks, tree, taken);
        }
    }
    write_table(alloc, disk, blocks, was, engine, snapshot, place, taken)
}

// Captures the tree of before as it stands, and tells so behind the others. The error is want of
// memory, and nothing changes then.
fn keep_table(blocks: &mut Blocks, tree: &TreePlace, taken: &mut Taken) -> Result<(), StoreError>
    requires live { AreLive blocks.old.cells tree.now.addrs.items }
    requires held { blocks.old.is_held ≡ true }
    ensures keeps { OnOk result (KeepsAll blocks.old blocks.new tree.now.addrs.items) }
    ensures told { OnOk result (taken.new.trees.items ≡ taken.old.trees.items ++ None ∷ []) }
    ensures unwritten { taken.new.parts.items ≡ taken.old.parts.items }
    ensures listed { OnOk result (taken.new.captured.items ≡ taken.old.captured.items ++ tree.now.addrs.items) }
    ensures same { OnErr result ((blocks.new ≡ blocks.old) × (taken.new.captured.items ≡ taken.old.captured.items)) }
    ensures err { IfErr result (λ e. e ≡ WantOfMemory) }
    ensures held { blocks.new.is_held ≡ true }
{
    let Ok(()) = taken.trees.reserve(1) else {
        return Err(StoreError::NoMemory);
    };
    match keep_tree(blocks, tree, &mut taken.captured) {
        Ok(()) => {
            taken.trees.push_reserved(None);
            Ok(())
        }
        Err(error) => Err(error),
    }
}

// Writes and captures the tree of the table at a place, leaf by leaf, and puts where it stands behind
// the others.
fn write_table<D: Disk>(
    alloc: Global,
    disk: &mut D,
    blocks: &mut Blocks,
    was: Before<'_>,
    engine: &Local,
    snapshot: &Snapshot,
    place: u32,
    taken: &mut Taken,
) -> Result<(), StoreError>
    requires held { blocks.old.is_held ≡ true }
    requires told { AreTold was.trees.now taken.old.trees.items }
    requires ready { IsTrue (D.honest disk.old) → end_of blocks.old.space ≤ length (D.seen disk.old) }
    ensures goes { IsTrue (D.honest disk.old) → (n : Moment) → IsMoment engine.now snapshot.now.sight was.entry.floor n → (t : Table) → slice_get engine.now.hub.tables.tables place ≡ Some t → Member t (tables_then n.world.machine n.checkpoint)
        → (old : Option Stored) (first : Books) → MayGo (D.seen disk.old) (D.may_leave disk.old) first blocks.old old was.entry.trees.now (live_addrs was.entry.lives.now (leaves_of t.number engine.now.hub.dir.leaves)) place → HasPartsAt old was.entry.lives.now engine.now.hub.dir.leaves (known_in was.entry.parts.now) was.entry.trees.now t place
        → FollowsFrom old engine.now.hub.tables.tables was.entry.lives.now engine.now.hub.dir.leaves (known_in was.entry.parts.now) was.entry.trees.now was.entry.floor n.world → AreOnDevice (D.seen disk.old) was.entry.lives.now engine.now.hub.dir.leaves n.world.shelf
        → Goes D.Disk old first was.entry.trees.now was.entry.lives.now engine.now.hub.dir.leaves (known_in was.entry.parts.now) n t place blocks.old blocks.new (placed_by was.entry.trees.now taken.old.trees.items) (placed_by was.entry.trees.now taken.new.trees.items) taken.old.parts.items taken.new.parts.items taken.old.captured.items taken.new.captured.items disk.old disk.new result }
    ensures count { OnOk result (length taken.new.trees.items ≡ length taken.old.trees.items + 1) }
    ensures told { OnOk result (AreTold was.entry.trees.now taken.new.trees.items) }
    ensures ready { IsTrue (D.honest disk.old) → OnOk result (end_of blocks.new.space ≤ length (D.seen disk.new)) }
    ensures held { blocks.new.is_held ≡ true }
    ensures fault { IfErr result (λ e. IsOfDisk e → Rose (D.faults disk.old) (D.faults disk.new)) }
    ensures disk { SameDisk D.Disk disk.old disk.new }
{
    let Some(table) = engine.tables().table(place) else {
        return Err(StoreError::NoMemory);
    };
    let Ok(()) = taken.trees.reserve(1) else {
        return Err(StoreError::NoMemory);
    };
    let mut draft = TreeDraft::new(alloc);
    match take_leaves(
        alloc,
        disk,
        blocks,
        was,
        engine,
        snapshot,
        table.number,
        &mut draft,
        taken,
    ) {
        Ok(()) => {}
        Err(error) => return Err(error),
    }
    match draft.finish(alloc, disk, blocks, &mut taken.captured) {
        Ok(tree) => {
            taken.trees.push_reserved(Some(tree));
            Ok(())
        }
        Err(error) => Err(error),
    }
}
