//! Leaves of which an opening may take something out, or whose blocks no checkpoint keeps.

ghost use Rattle.std.specs.Prelude.{◌≡◌, ◌≢◌, ◌⊎◌, ◌==◌, ◌<◌, ◌++◌, ◌∷◌, [], ℕ, List, None, false, length, get_or, if◌then◌else◌, option_map, IfErr, IfOk, OnOk, IsTrue};
ghost use Rattle.std.specs.Option.{option_or};
ghost use Rattle.std.specs.List.{Contains};
ghost use Rattle.disk_model.specs.Crash.{Looked};
ghost use Rattle.engine_world.specs.Leaves.{LeavesOwned};
ghost use Rattle.engine_world.specs.Stands.{Stands};
ghost use Rattle.engine_world.specs.Worlds.{World};
ghost use Rattle.engine.specs.Directories.{HubGoesOn, LeavesGoOn};
ghost use Rattle.engine.specs.Waits.{IsAway, in_none};
ghost use Rattle.tree_dir.specs.declared.leaf.Leaf.{Leaf as ALeaf};
ghost use Rattle.tree_dir.specs.Leaves.{leaf_named};
ghost use Rattle.evict_step.specs.Kept.{list_of};
ghost use Rattle.ckpt_step.specs.Rooms.{known_in};
ghost use Rattle.engine_store.specs.Keeping.{with_kept};
ghost use Rattle.engine_store.specs.Marked.{AreMarked, AreMarkedOf, HasAll, IsFramed, IsLeafKept, IsUnmarked, KeepMarked, LeadsOn, framed_part};
ghost use Rattle.engine_store.specs.Loads.{RefusesLeaf, RefusesSome};

use crate::loading::{link_of, read_leaf, with_moved};
use catalog::Table;
use ckpt_step::{Kept, Parts};
use device_layout::Link;
use device_leaf::is_nowhere;
use disk_model::Disk;
use engine::Local;
use failure::NoMemory;
use inner_page::Entry;
use kept_open::rows_open;
use leaf_load::{is_surely_seen, one_is_loaded};
use leaf_rows::Marks;
use std::alloc::Global;
use tree_dir::{Dir, Leaf};
use wt_code::Refusal;

/// Brings each leaf into a frame of which an opening with these marks may take something out, as the
/// opening keeps it: its link says a name or a stamp that the checkpoint may not have seen. What is kept of
/// it comes with it, so that a key whose row goes shows the newest of these versions. The next
/// checkpoint writes it anew. So with a leaf that has a block but no rows, which the next checkpoint
/// lets go. `O(n)` in the leaves, and `O(bytes)` of those, each read once.
pub(crate) fn bring_marked<D: Disk>(
    alloc: Global,
    disk: &mut D,
    kept: &mut Kept,
    engine: &mut Local,
    marks: Marks,
    ids: &[u64],
) -> Result<(), Refusal>
    requires owned { LeavesOwned engine.old.hub.tables.tables engine.old.hub.dir.leaves }
    ensures stands { IsTrue (D.honest disk.old) → (w : World) → Stands engine.old (with_kept kept.old w) → ((l : ALeaf) → Contains engine.old.hub.dir.leaves l → IsLeafKept (D.seen disk.old) engine.old.hub.dir marks ids.now kept.old w.shelf l) → OnOk result (Stands engine.new (with_kept kept.new w)) }
    ensures unmarked { OnOk result ((l : ALeaf) → Contains engine.new.hub.dir.leaves l → l.frame ≡ None → IsUnmarked marks l) }
    ensures leaves { OnOk result (LeavesGoOn engine.old.hub.dir.leaves engine.new.hub.dir.leaves) }
    ensures goes { HubGoesOn engine.old.hub engine.new.hub }
    ensures sessions { engine.new.sessions ≡ engine.old.sessions }
    ensures err { IfErr result (RefusesSome D.Disk engine.old.hub.dir disk.old disk.new) }
    ensures looked { Looked D.Disk disk.old disk.new }
    ensures home { D.home disk.new ≡ D.home disk.old }
{
    let marked = marked_of(alloc, engine, &marks)?;
    for leaf in &marked {
        match bring_as(alloc, disk, kept, engine, *leaf, marks, ids) {
            Ok(()) => {}
            Err(refusal) => return Err(refusal),
        }
    }
    Ok(())
}

/// Of the leaves of which an opening with these marks may take something out, which are in frames, the
/// entries by which the device's checkpoint has them: they are not in their frames as they lie on the
/// device. The error is want of memory. `O(n)` in the leaves, and `O(log n)` for each of those.
pub(crate) fn keep_marked(alloc: Global, engine: &Local, marks: &Marks) -> Result<Parts, NoMemory>
    ensures { IfOk result (λ parts. KeepMarked engine.now.hub.tables.tables engine.now.hub.dir.leaves marks.now (known_in parts)) }
{
    let marked = marked_of(alloc, engine, marks)?;
    own_parts(alloc, engine.leaves(), &marked)
}

// Of the leaves of these ids that are in frames, their own entries.
fn own_parts(alloc: Global, leaves: &Dir, ids: &[u64]) -> Result<Parts, NoMemory>
    ensures own { IfOk result (λ parts. (id : ℕ) → (known_in parts id ≡ None) ⊎ (known_in parts id ≡ framed_part (leaf_named id leaves.now.leaves))) }
    ensures all { IfOk result (λ parts. (k : ℕ) → k < length ids.now → known_in parts (get_or ids.now k 0) ≡ framed_part (leaf_named (get_or ids.now k 0) leaves.now.leaves)) }
{
    let mut parts = Parts::new(alloc);
    for leaf in ids {
        keep_own(alloc, &mut parts, leaves, *leaf)?;
    }
    Ok(parts)
}

// Keeps the own entry of the leaf of this id, where it is in a frame and its link leads to rows.
fn keep_own(alloc: Global, parts: &mut Parts, leaves: &Dir, leaf: u64) -> Result<(), NoMemory>
    ensures { OnOk result ((id : ℕ) → known_in parts.new id ≡ (if id == leaf then option_or (framed_part (leaf_named leaf leaves.now.leaves)) (known_in parts.old leaf) else known_in parts.old id)) }
{
    match framed_entry(leaves, leaf) {
        None => Ok(()),
        Some(entry) => parts.keep(leaf, one_copy(alloc, entry)?),
    }
}

fn framed_entry(leaves: &Dir, leaf: u64) -> Option<&Entry>
    ensures { option_map (λ e. e.now ∷ []) result ≡ framed_part (leaf_named leaf leaves.now.leaves) }
{
    let found = leaves.leaf(leaf)?;
    if is_in_none(found) || found.entry.link.greatest.id == 0 {
        None
    } else {
        Some(&found.entry)
    }
}

fn one_copy(alloc: Global, entry: &Entry) -> Result<Vec<Entry>, NoMemory>
    ensures { IfOk result (λ v. v.items ≡ entry.now ∷ []) }
{
    let mut entries = Vec::with_capacity(alloc, 1)?;
    entries.push_reserved(Entry {
        key: entry.key.copy()?,
        link: entry.link,
    });
    Ok(entries)
}

// The ids of the leaves of which an opening may take something out. The error is want of memory.
fn marked_of(alloc: Global, engine: &Local, marks: &Marks) -> Result<Vec<u64>, NoMemory>
    ensures { IfOk result (λ v. AreMarked engine.now.hub marks.now v.items) }
{
    let mut marked = Vec::new(alloc);
    for place in 0..engine.tables().len() {
        if let Some(table) = engine.tables().table(place as u32) {
            push_marked(&mut marked, engine.leaves(), number_of(table), marks)?;
        }
    }
    Ok(marked)
}

// Puts behind others the ids of such leaves of a table.
fn push_marked(
    marked: &mut Vec<u64>,
    leaves: &Dir,
    table: u32,
    marks: &Marks,
) -> Result<(), NoMemory>
    ensures kept { OnOk result (HasAll marked.new.items marked.old.items) }
    ensures marked { OnOk result (AreMarkedOf leaves.now.leaves table marks.now marked.new.items) }
{
    let mut left = leaves.leaves_of(table);
    while let Some(leaf) = left.next_leaf() {
        if !is_unmarked(marks, leaf) {
            push(marked, id_of(leaf))?;
        }
    }
    Ok(())
}

fn push(marked: &mut Vec<u64>, leaf: u64) -> Result<(), NoMemory>
    ensures { OnOk result (marked.new.items ≡ marked.old.items ++ leaf ∷ []) }
{
    match marked.push(leaf) {
        Ok(()) => Ok(()),
        Err(_) => Err(NoMemory),
    }
}

fn number_of(table: &Table) -> u32
    ensures { result ≡ table.now.number }
{
    table.number
}

fn id_of(leaf: &Leaf) -> u64
    ensures { result ≡ leaf.now.id }
{
    leaf.id
}

// Whether an opening keeps all rows of a leaf, as its link says, and the next checkpoint too, where the
// leaf is in no frame. `O(1)`.
fn is_unmarked(marks: &Marks, leaf: &Leaf) -> bool
    ensures { IsTrue result → IsUnmarked marks.now leaf.now }
{
    let link = link_of(leaf);
    leads(link) && is_surely_seen(marks, link.greatest, link.durable)
}

// Whether a link leads to rows or nowhere. A block without rows is one that no checkpoint keeps.
fn leads(link: Link) -> bool
    ensures { IsTrue result → LeadsOn link }
{
    link.greatest.id != 0 || is_nowhere(link)
}

// Brings a leaf into a frame as an opening keeps it, with what is kept of it, if it is in none.
fn bring_as<D: Disk>(
    alloc: Global,
    disk: &mut D,
    kept: &mut Kept,
    engine: &mut Local,
    leaf: u64,
    marks: Marks,
    ids: &[u64],
) -> Result<(), Refusal>
    requires owned { LeavesOwned engine.old.hub.tables.tables engine.old.hub.dir.leaves }
    ensures stands { IsTrue (D.honest disk.old) → (w : World) → Stands engine.old (with_kept kept.old w) → ((l : ALeaf) → Contains engine.old.hub.dir.leaves l → l.frame ≡ None → IsLeafKept (D.seen disk.old) engine.old.hub.dir marks ids.now kept.old w.shelf l) → OnOk result (Stands engine.new (with_kept kept.new w)) }
    ensures others { OnOk result ((id : ℕ) → id ≢ leaf → list_of kept.new id ≡ list_of kept.old id) }
    ensures framed { OnOk result (IsFramed engine.new.hub.dir.leaves leaf) }
    ensures leaves { LeavesGoOn engine.old.hub.dir.leaves engine.new.hub.dir.leaves }
    ensures goes { HubGoesOn engine.old.hub engine.new.hub }
    ensures sessions { engine.new.sessions ≡ engine.old.sessions }
    ensures err { IfErr result (RefusesLeaf D.Disk engine.old.hub.dir leaf disk.old disk.new) }
    ensures looked { Looked D.Disk disk.old disk.new }
    ensures home { D.home disk.new ≡ D.home disk.old }
{
    if !is_away(engine.leaves(), leaf) {
        return Ok(());
    }
    one_is_loaded();
    rows_open();
    let read = match read_leaf(alloc, disk, engine.leaves(), leaf, marks, ids) {
        Ok(read) => read,
        Err(refusal) => return Err(refusal),
    };
    let Ok(page) = with_moved(alloc, kept, leaf, read) else {
        return Err(Refusal::NoMemory);
    };
    match engine.fill(leaf, page) {
        Ok(()) => {
            kept.forget(leaf);
            Ok(())
        }
        Err(NoMemory) => Err(Refusal::NoMemory),
    }
}

// Whether a leaf of this id is there, in no frame.
fn is_away(leaves: &Dir, leaf: u64) -> bool
    ensures yes { IsTrue result → IsAway leaves.now.leaves leaf }
    ensures no { result ≡ false → IsFramed leaves.now.leaves leaf }
{
    leaves.stands();
    match leaves.leaf(leaf) {
        None => false,
        Some(found) => is_in_none(found),
    }
}

fn is_in_none(leaf: &Leaf) -> bool
    ensures { result ≡ in_none leaf.now.frame }
{
    leaf.frame.is_none()
}
