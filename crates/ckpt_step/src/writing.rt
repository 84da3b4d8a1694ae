// How a checkpoint is written and installed.
ghost use Rattle.std.specs.Prelude.{◌≡◌, ◌≤◌, ◌<◌, ◌+◌, ◌-◌, ◌^◌, ◌++◌, ◌∷◌, List, Option, Some, length, slice_get, slice_set, take, [], true, false, ℕ, vec_capacity, IfErr, IfOk, OnErr, OnOk, IsTrue};
ghost use Rattle.failure.specs.Counts.{Rose};
ghost use Rattle.wt_code.specs.StoreErrors.{IsOfDisk};
ghost use Rattle.disk_model.specs.Crash.{Looked, SameDisk};
ghost use Rattle.extent_list.specs.Space.{end_of};
ghost use Rattle.block_mgr.specs.Cells.{AreUnits, cell_at};
ghost use Rattle.device_layout.specs.declared.addr.Addr.{Addr as AnAddr};
ghost use Rattle.device_layout.specs.Slots.{slot_at};
ghost use Rattle.snapshot.specs.Sight.{sight_at};
ghost use Rattle.txn_table.specs.Tabled.{unended};
ghost use Rattle.stamp.specs.declared.Name.{Name as AName};
ghost use Rattle.kv_model.specs.History.{Table as ATable};
ghost use Rattle.kv_model.specs.Holds.{Member};
ghost use Rattle.stored.specs.HistoryTree.{HistoryRecord as StoredRecord};
ghost use Rattle.stored.specs.Stored.{Stored};
ghost use Rattle.hist_write.specs.Writes.{AreWritable};
ghost use Rattle.tree_dir.specs.Leaves.{leaves_of as leaves_in};
ghost use Rattle.engine_world.specs.Stands.{Stands};
ghost use Rattle.engine_world.specs.Worlds.{World};
ghost use Rattle.ckpt_step.specs.Floors.{AreLivesOn, AreOnDevice, Follows, FollowsFrom, Respects};
ghost use Rattle.evict_step.specs.Kept.{KeepsThese};
ghost use Rattle.ckpt_step.specs.Grounds.{AreLedTo, AreRoots, AreSince, AreWritten, StandsOn, number_of};
ghost use Rattle.ckpt_step.specs.Halves.{AreApartFrom, AreOldBlocks, AreOwn, Half, IsFresh, TakesAll, done_at, settled_at};
ghost use Rattle.ckpt_step.specs.Holding.{with_all_live, with_live};
ghost use Rattle.ckpt_step.specs.Lives.{AreOfOthers, addrs_in};
ghost use Rattle.ckpt_step.specs.Moments.{IsFinishing, IsHistoryThen, Moment, floor_at};
ghost use Rattle.ckpt_step.specs.Parts.{HaveRoom, with_parts};
ghost use Rattle.ckpt_step.specs.Rooms.{Written, known_in};
ghost use Rattle.ckpt_step.specs.Runs.{IsImageOf, Puts, Wrote};
ghost use Rattle.ckpt_step.specs.Trees.{AreKept, AreLow, AreTold, addrs_of, kept_by, placed_by};

use crate::before::Before;
use crate::books::{give_up, let_go};
use crate::clean::floor_of;
use crate::ground::Ground;
use crate::lives::Lives;
use crate::parts::{LeafPart, Parts};
use crate::record::record_of;
use crate::taken::Taken;
use crate::trees::write_trees;
use block_mgr::Blocks;
use checkpoint_core::finish;
use checkpoint_record::encode;
use ckpt_content::rows_taken_before_serve;
use device_layout::{Addr, Slot};
use disk_model::Disk;
use engine::{Local, RunningCheckpoint};
use evict_step::Kept;
use failure::NoMemory;
use hist_gather::gather;
use hist_pages::{HistoryLeaf, leaves_of};
use hist_write::write_history;
use snapshot::Snapshot;
use stamp::Name;
use std::alloc::Global;
use tree_dir::Leaf;
use tree_open::TreePlace;
use wt_code::StoreError;

// Writes a checkpoint of the engine and installs it: the ground is that of the new one. After an
// error what was written is given back, and the ground is that of the one before.
pub(crate) fn write<D: Disk>(
    alloc: Global,
    disk: &mut D,
    ground: &mut Ground,
    engine: &Local,
    snapshot: &Snapshot,
    running: &RunningCheckpoint,
) -> Result<(), StoreError>
    requires number { ground.old.number < 2 ^ 62 - 1 }
    requires run { engine.now.hub.txns.run ≤ ground.old.number + 1 }
    requires sight { snapshot.now.sight ≡ sight_at engine.now.hub.txns.run engine.now.hub.txns.next (unended engine.now.hub.txns) }
    requires trees { length ground.old.trees.items ≤ running.now.tables }
    requires tables { running.now.tables ≤ length engine.now.hub.tables.tables }
    requires low { AreLow ground.old.trees.items }
    ensures wrote { IsTrue (D.honest disk.old) → (n : Moment) → IsFinishing engine.now running.now ground.old.floor n → Respects n.world.machine (floor_at running.now.snapshot.sight) → KeepsThese n.world ground.old.kept → (old : Option Stored)
        → StandsOn (D.seen disk.old) (D.may_leave disk.old) engine.now.hub ground.old old → Follows old engine.now.hub ground.old n.world → AreLivesOn (D.seen disk.old) engine.now.hub ground.old n.world
        → Wrote D.Disk old n engine.now.hub ground.old ground.new disk.old disk.new result }
    ensures number { ground.old.number ≤ ground.new.number }
    ensures same { OnErr result ((ground.new.number ≡ ground.old.number) × (ground.new.floor ≡ ground.old.floor)) }
    ensures trees { length ground.new.trees.items ≤ length engine.now.hub.tables.tables }
    ensures low { AreLow ground.new.trees.items }
    ensures lives { OnErr result (ground.new.lives ≡ ground.old.lives) }
    ensures history { ground.new.kept ≡ ground.old.kept }
    ensures fault { IfErr result (λ e. IsOfDisk e → Rose (D.faults disk.old) (D.faults disk.new)) }
    ensures disk { SameDisk D.Disk disk.old disk.new }
{
    match is_within(disk, &ground.place.blocks) {
        Ok(true) => {}
        // A device that has become shorter than its blocks.
        Ok(false) => return Err(StoreError::NoMemory),
        Err(error) => return Err(error),
    }
    begin(&mut ground.place.blocks);
    let mut taken = Taken::new(alloc);
    match write_blocks(alloc, disk, ground, engine, snapshot, running, &mut taken) {
        Ok(addr) => {
            let floor = next_floor(ground.floor, running, &taken.others);
            settle(ground, taken, addr, floor);
            Ok(())
        }
        Err(error) => {
            give_up(&mut ground.place.blocks, &taken.captured, &ground.lives);
            Err(error)
        }
    }
}

// Whether the space of the blocks lies within the device.
pub(crate) fn is_within<D: Disk>(disk: &mut D, blocks: &Blocks) -> Result<bool, StoreError>
    ensures yes { IsTrue (D.honest disk.old) → IfOk result (λ is. IsTrue is → end_of blocks.now.space ≤ length (D.seen disk.old)) }
    ensures no { IsTrue (D.honest disk.old) → IfOk result (λ is. is ≡ false → length (D.seen disk.old) < end_of blocks.now.space) }
    ensures err { IfErr result (λ e. e ≡ StoreError.Read) }
    ensures cause { OnErr result (Rose (D.faults disk.old) (D.faults disk.new)) }
    ensures looked { Looked D.Disk disk.old disk.new }
    ensures disk { SameDisk D.Disk disk.old disk.new }
{
    match disk.len() {
        Ok(len) => Ok(blocks.end() <= len),
        Err(_) => Err(StoreError::Read),
    }
}

// A checkpoint runs from now on; one that was begun goes on.
fn begin(blocks: &mut Blocks)
    ensures cells { blocks.new.cells ≡ blocks.old.cells }
    ensures space { blocks.new.space ≡ blocks.old.space }
    ensures synced { blocks.new.is_synced ≡ blocks.old.is_synced }
    ensures held { blocks.new.is_held ≡ true }
{
    if !blocks.is_held() {
        blocks.ckpt_hold();
    }
}

// Writes and captures the trees and the history, which `taken` gets, and then writes and installs the
// record, whose address is the answer.
fn write_blocks<D: Disk>(
    alloc: Global,
    disk: &mut D,
    ground: &mut Ground,
    engine: &Local,
    snapshot: &Snapshot,
    running: &RunningCheckpoint,
    taken: &mut Taken,
) -> Result<Addr, StoreError>
    requires number { ground.old.number < 2 ^ 62 - 1 }
    requires run { engine.now.hub.txns.run ≤ ground.old.number + 1 }
    requires sight { snapshot.now.sight ≡ sight_at engine.now.hub.txns.run engine.now.hub.txns.next (unended engine.now.hub.txns) }
    requires held { ground.old.place.blocks.is_held ≡ true }
    requires low { AreLow ground.old.trees.items }
    requires none { taken.old.trees.items ≡ [] }
    requires unwritten { taken.old.parts.items ≡ [] }
    requires unlisted { taken.old.captured.items ≡ [] }
    requires ready { IsTrue (D.honest disk.old) → end_of ground.old.place.blocks.space ≤ length (D.seen disk.old) }
    ensures puts { IsTrue (D.honest disk.old) → (n : Moment) → IsFinishing engine.now running.now ground.old.floor n → KeepsThese n.world ground.old.kept → (old : Option Stored)
        → Half (D.seen disk.old) (D.may_leave disk.old) ground.old.place.blocks old ground.old.lives [] [] [] → AreRoots engine.now.hub.tables.tables ground.old.lives engine.now.hub.dir.leaves (known_in ground.old.parts) ground.old.trees.items old → AreWritten engine.now.hub.tables.tables ground.old.lives engine.now.hub.dir (known_in ground.old.parts) ground.old.trees.items → AreSince old ground.old.lives engine.now.hub.dir (known_in ground.old.parts) → ground.old.number ≡ number_of old
        → Follows old engine.now.hub ground.old n.world → AreLivesOn (D.seen disk.old) engine.now.hub ground.old n.world
        → Puts D.Disk old ground.old.lives n (take running.now.tables engine.now.hub.tables.tables) engine.now.hub.dir.leaves (known_in ground.old.parts) ground.old.place.blocks ground.new.place.blocks (placed_by ground.old.trees.items taken.new.trees.items) taken.new.history.addrs.items taken.new.parts.items taken.new.captured.items disk.old disk.new result }
    ensures others { OnOk result ((w : World) → Stands engine.now w → (old : Option Stored) (written : Written) → AreSince old ground.old.lives engine.now.hub.dir written → AreLedTo engine.now.hub.tables.tables ground.old.lives engine.now.hub.dir.leaves → AreOfOthers (take running.now.tables engine.now.hub.tables.tables) engine.now.hub.dir.leaves ground.old.lives taken.new.others) }
    ensures count { OnOk result (length taken.new.trees.items ≡ running.now.tables) }
    ensures told { OnOk result (AreTold ground.old.trees.items taken.new.trees.items) }
    ensures room { OnOk result (length taken.new.trees.items ≤ vec_capacity ground.new.trees) }
    ensures parts_room { OnOk result (HaveRoom ground.new.parts taken.new.parts.items) }
    ensures held { IfErr result (λ e. ground.new.place.blocks.is_held ≡ true) }
    ensures slot { ground.new.place.slot ≡ ground.old.place.slot }
    ensures number { ground.new.number ≡ ground.old.number }
    ensures trees { ground.new.trees.items ≡ ground.old.trees.items }
    ensures parts { (leaf : ℕ) → known_in ground.new.parts leaf ≡ known_in ground.old.parts leaf }
    ensures stood { ground.new.history.items ≡ ground.old.history.items }
    ensures lives { ground.new.lives ≡ ground.old.lives }
    ensures floor { ground.new.floor ≡ ground.old.floor }
    ensures history { ground.new.kept ≡ ground.old.kept }
    ensures fault { IfErr result (λ e. IsOfDisk e → Rose (D.faults disk.old) (D.faults disk.new)) }
    ensures disk { SameDisk D.Disk disk.old disk.new }
{
    rows_taken_before_serve();
    let blocks = &mut ground.place.blocks;
    let was = Before {
        trees: &ground.trees,
        parts: &ground.parts,
        lives: &ground.lives,
        kept: &ground.kept,
        floor: ground.floor,
    };
    match write_body(alloc, disk, blocks, was, engine, snapshot, running, taken) {
        Ok(()) => {}
        Err(error) => return Err(error),
    }
    let Ok(others) = others_of(alloc, engine, &ground.lives, running.tables) else {
        return Err(StoreError::NoMemory);
    };
    taken.others = others;
    let Ok(()) = reserve_for(&mut ground.trees, running.tables) else {
        return Err(StoreError::NoMemory);
    };
    let Ok(()) = reserve_parts(&mut ground.parts, &taken.parts) else {
        return Err(StoreError::NoMemory);
    };
    let Ok(image) = image_of(alloc, engine, running, ground.number, &ground.trees, taken) else {
        return Err(StoreError::NoMemory);
    };
    match finish(disk, blocks, ground.number + 1, image) {
        Ok(addr) => Ok(addr),
        Err(error) => Err(error),
    }
}

// Writes and captures the trees and then the history, which `taken` gets.
fn write_body<D: Disk>(
    alloc: Global,
    disk: &mut D,
    blocks: &mut Blocks,
    was: Before<'_>,
    engine: &Local,
    snapshot: &Snapshot,
    running: &RunningCheckpoint,
    taken: &mut Taken,
) -> Result<(), StoreError>
    requires sight { snapshot.now.sight ≡ sight_at engine.now.hub.txns.run engine.now.hub.txns.next (unended engine.now.hub.txns) }
    requires held { blocks.old.is_held ≡ true }
    requires none { taken.old.trees.items ≡ [] }
    requires unwritten { taken.old.parts.items ≡ [] }
    requires unlisted { taken.old.captured.items ≡ [] }
    requires low { AreLow was.trees.now }
    requires ready { IsTrue (D.honest disk.old) → end_of blocks.old.space ≤ length (D.seen disk.old) }
    ensures takes { IsTrue (D.honest disk.old) → (n : Moment) → IsFinishing engine.now running.now was.entry.floor n → KeepsThese n.world was.entry.kept.now → (old : Option Stored)
        → Half (D.seen disk.old) (D.may_leave disk.old) blocks.old old was.entry.lives.now [] [] [] → AreRoots engine.now.hub.tables.tables was.entry.lives.now engine.now.hub.dir.leaves (known_in was.entry.parts.now) was.entry.trees.now old → AreWritten engine.now.hub.tables.tables was.entry.lives.now engine.now.hub.dir (known_in was.entry.parts.now) was.entry.trees.now → AreSince old was.entry.lives.now engine.now.hub.dir (known_in was.entry.parts.now)
        → FollowsFrom old engine.now.hub.tables.tables was.entry.lives.now engine.now.hub.dir.leaves (known_in was.entry.parts.now) was.entry.trees.now was.entry.floor n.world → AreOnDevice (D.seen disk.old) was.entry.lives.now engine.now.hub.dir.leaves n.world.shelf
        → TakesAll D.Disk old was.entry.lives.now n (take running.now.tables engine.now.hub.tables.tables) engine.now.hub.dir.leaves (known_in was.entry.parts.now) blocks.old blocks.new (placed_by was.entry.trees.now taken.new.trees.items) taken.new.parts.items taken.new.captured.items disk.old disk.new taken.new.history.root taken.new.history.addrs.items result }
    ensures root { OnOk result (taken.new.history.root.level ≤ 60) }
    ensures count { OnOk result (length taken.new.trees.items ≡ running.now.tables) }
    ensures told { OnOk result (AreTold was.entry.trees.now taken.new.trees.items) }
    ensures ready { IsTrue (D.honest disk.old) → OnOk result (end_of blocks.new.space ≤ length (D.seen disk.new)) }
    ensures held { blocks.new.is_held ≡ true }
    ensures fault { IfErr result (λ e. IsOfDisk e → Rose (D.faults disk.old) (D.faults disk.new)) }
    ensures disk { SameDisk D.Disk disk.old disk.new }
{
    let Ok(leaves) = older_of(alloc, engine, was.kept, running) else {
        return Err(StoreError::NoMemory);
    };
    match write_trees(
        alloc,
        disk,
        blocks,
        was,
        engine,
        snapshot,
        running.tables,
        taken,
    ) {
        Ok(()) => {}
        Err(error) => return Err(error),
    }
    match write_history(alloc, disk, blocks, leaves, &mut taken.captured) {
        Ok(place) => {
            taken.history = place;
            Ok(())
        }
        Err(error) => Err(error),
    }
}

// The older versions that a read can want, as the leaves of a history. The error is want of memory.
fn older_of(
    alloc: Global,
    engine: &Local,
    kept: &Kept,
    running: &RunningCheckpoint,
) -> Result<Vec<HistoryLeaf>, NoMemory>
    ensures { IfOk result (λ leaves. (records : List StoredRecord) × AreWritable leaves.items records × ((n : Moment) (floor : AName) → IsFinishing engine.now running.now floor n → KeepsThese n.world kept.now → IsHistoryThen n records)) }
{
    let older = gather(alloc, engine, kept, running)?;
    leaves_of(alloc, &older)
}

// The leaves of tables that were made since the checkpoint started which were written since the one
// before: they stay as they are. The error is want of memory. `O(n log n)` in the leaves of these
// tables.
fn others_of(alloc: Global, engine: &Local, lives: &Lives, tables: u32) -> Result<Lives, NoMemory>
    ensures { IfOk result (λ others. (w : World) → Stands engine.now w → (old : Option Stored) (written : Written) → AreSince old lives.now engine.now.hub.dir written → AreLedTo engine.now.hub.tables.tables lives.now engine.now.hub.dir.leaves → AreOfOthers (take tables engine.now.hub.tables.tables) engine.now.hub.dir.leaves lives.now others) }
{
    let mut others = Lives::new(alloc);
    let count = engine.tables().len() as u32;
    for place in tables..count {
        add_table(engine, lives, place, &mut others)?;
    }
    Ok(others)
}

// Adds those of the table at a place.
fn add_table(engine: &Local, lives: &Lives, place: u32, others: &mut Lives) -> Result<(), NoMemory>
    ensures { OnOk result ((t : ATable) → slice_get engine.now.hub.tables.tables place ≡ Some t → others.new ≡ with_all_live lives.now others.old (leaves_in t.number engine.now.hub.dir.leaves)) }
{
    match engine.tables().table(place) {
        Some(table) => add_lives(engine, lives, table.number, others),
        None => Ok(()),
    }
}

// Adds those of the table of this number.
fn add_lives(engine: &Local, lives: &Lives, table: u32, others: &mut Lives) -> Result<(), NoMemory>
    ensures { OnOk result (others.new ≡ with_all_live lives.now others.old (leaves_in table engine.now.hub.dir.leaves)) }
{
    let mut leaves = engine.leaves().leaves_of(table);
    while let Some(leaf) = leaves.next_leaf() {
        add_live(lives, leaf, others)?;
    }
    Ok(())
}

// Adds that of a leaf, if it was written since.
fn add_live(lives: &Lives, leaf: &Leaf, others: &mut Lives) -> Result<(), NoMemory>
    ensures { OnOk result (others.new ≡ with_live lives.now others.old leaf.now) }
{
    if lives.is_live(leaf) {
        others.hold(leaf.id, leaf.entry.link.addr)
    } else {
        Ok(())
    }
}

// With what the names begin that had not ended as the checkpoint started. Where leaves stay that were
// written since the one before, that of the one before still holds.
fn next_floor(floor: Name, running: &RunningCheckpoint, others: &Lives) -> Name
    ensures none { others.now ≡ [] → result ≡ floor_at running.now.snapshot.sight }
    ensures some { (others.now ≡ [] → ⊥) → result ≡ floor }
{
    if others.is_empty() {
        floor_of(&running.snapshot)
    } else {
        floor
    }
}

// Takes room for a tree of each of so many tables.
fn reserve_for(trees: &mut Vec<TreePlace>, tables: u32) -> Result<(), NoMemory>
    ensures items { trees.new.items ≡ trees.old.items }
    ensures room { OnOk result (tables ≤ vec_capacity trees.new) }
{
    let count = tables as usize;
    trees.reserve(count.saturating_sub(trees.len()))?;
    Ok(())
}

// Makes room for the entries of the leaves that were written. The error is want of memory.
fn reserve_parts(parts: &mut Parts, written: &[LeafPart]) -> Result<(), NoMemory>
    ensures known { (leaf : ℕ) → known_in parts.new leaf ≡ known_in parts.old leaf }
    ensures room { OnOk result (HaveRoom parts.new written.now) }
{
    for part in written {
        parts.reserve(part.leaf)?;
    }
    Ok(())
}

// The image of the record of the checkpoint with these trees and this history.
fn image_of(
    alloc: Global,
    engine: &Local,
    running: &RunningCheckpoint,
    number: u64,
    was: &[TreePlace],
    taken: &Taken,
) -> Result<Vec<u8>, NoMemory>
    requires number { number < 2 ^ 62 - 1 }
    requires run { engine.now.hub.txns.run ≤ number + 1 }
    requires told { AreTold was.now taken.now.trees.items }
    requires root { taken.now.history.root.level ≤ 60 }
    ensures image { (n : Moment) (floor : AName) → IsFinishing engine.now running.now floor n → IfOk result (λ v. IsImageOf n.world.machine n.checkpoint number (take running.now.tables engine.now.hub.tables.tables) (placed_by was.now taken.now.trees.items) taken.now.history.root v.items) }
    ensures some { IfOk result (λ v. 1 ≤ length v.items) }
    ensures most { IfOk result (λ v. length v.items ≤ 2 ^ 18) }
{
    let record = record_of(
        alloc,
        engine,
        running,
        number,
        was,
        &taken.trees,
        taken.history.root,
    )?;
    encode(alloc, &record)
}

// The ground is that of the checkpoint that has what was taken, whose record stands at the address, and
// of this floor. Of the leaves that were written since the one before those of other tables are left.
fn settle(ground: &mut Ground, taken: Taken, addr: Addr, floor: Name)
    requires number { ground.old.number < 2 ^ 62 - 1 }
    requires kept { AreKept ground.old.trees.items taken.trees.items }
    requires few { length ground.old.trees.items ≤ length taken.trees.items }
    requires room { length taken.trees.items ≤ vec_capacity ground.old.trees }
    requires parts_room { HaveRoom ground.old.parts taken.parts.items }
    ensures parts { (leaf : ℕ) → known_in ground.new.parts leaf ≡ with_parts (known_in ground.old.parts) taken.parts.items leaf }
    ensures number { ground.new.number ≡ ground.old.number + 1 }
    ensures trees { ground.new.trees.items ≡ placed_by ground.old.trees.items taken.trees.items }
    ensures stand { ground.new.history.items ≡ taken.history.addrs.items }
    ensures floor { ground.new.floor ≡ floor }
    ensures slot { ground.new.place.slot ≡ Some (slot_at (ground.old.number + 1) addr) }
    ensures lives { ground.new.lives ≡ taken.others }
    ensures history { ground.new.kept ≡ ground.old.kept }
    ensures cells { (old : Option Stored) (captured : List AnAddr) (a : AnAddr) → AreOldBlocks old ground.old.lives (addrs_of ground.old.trees.items ++ (ground.old.history.items ++ addrs_in ground.old.lives)) → ((x : AnAddr) → Member x (addrs_of (kept_by ground.old.trees.items taken.trees.items)) → Member x captured) → AreOwn old ground.old.lives captured → IsFresh old ground.old.lives captured a → AreApartFrom old ground.old.lives captured (addrs_of ground.old.trees.items ++ ground.old.history.items) taken.others → ((u : ℕ) → cell_at ground.old.place.blocks.cells u ≡ done_at old ground.old.lives captured a u) → (u : ℕ) → cell_at ground.new.place.blocks.cells u ≡ settled_at captured taken.others a u }
    ensures end { end_of ground.new.place.blocks.space ≡ end_of ground.old.place.blocks.space }
    ensures units { AreUnits ground.old.place.blocks.cells ground.old.place.blocks.space → AreUnits ground.new.place.blocks.cells ground.new.place.blocks.space }
    ensures held { ground.new.place.blocks.is_held ≡ ground.old.place.blocks.is_held }
{
    let_go(
        &mut ground.place.blocks,
        &ground.trees,
        &taken.trees,
        &ground.history,
        &mut ground.lives,
        &taken.others,
    );
    ground.lives = taken.others;
    put_trees(&mut ground.trees, taken.trees);
    put_parts(&mut ground.parts, taken.parts);
    ground.history = taken.history.addrs;
    ground.floor = floor;
    ground.number += 1;
    ground.place.slot = Some(Slot::new(ground.number, addr));
}

// The leaves that were written have these entries from now on.
fn put_parts(parts: &mut Parts, written: Vec<LeafPart>)
    requires room { HaveRoom parts.old written.items }
    ensures { (leaf : ℕ) → known_in parts.new leaf ≡ with_parts (known_in parts.old) written.items leaf }
{
    for part in written {
        parts.put(part);
    }
}

// The trees that are told take the places of those of before.
fn put_trees(places: &mut Vec<TreePlace>, told: Vec<Option<TreePlace>>)
    requires kept { AreKept places.old.items told.items }
    requires few { length places.old.items ≤ length told.items }
    requires room { length told.items ≤ vec_capacity places.old }
    ensures { places.new.items ≡ placed_by places.old.items told.items }
{
    let mut place = 0;
    for tree in told {
        match tree {
            Some(tree) => put_tree(places, place, tree),
            None => {}
        }
        place += 1;
    }
}

// Puts a tree at its place, or behind the others.
fn put_tree(places: &mut Vec<TreePlace>, place: usize, tree: TreePlace)
    requires within { place ≤ length places.old.items }
    requires room { place < vec_capacity places.old }
    ensures there { place < length places.old.items → places.new.items ≡ slice_set places.old.items place tree }
    ensures behind { place ≡ length places.old.items → places.new.items ≡ places.old.items ++ tree ∷ [] }
    ensures capacity { vec_capacity places.old ≤ vec_capacity places.new }
{
    match places.get_mut(place) {
        Some(there) => *there = tree,
        None => places.push_reserved(tree),
    }
}
