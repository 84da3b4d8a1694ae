// The leaves of a table, as a checkpoint captures them.
ghost use Rattle.std.specs.Prelude.{◌≡◌, ◌≤◌, ◌<◌, ◌++◌, ◌∷◌, ℕ, List, Option, Some, [], length, true, slice_get, vec_capacity, vec_len, IfErr, IfOk, IfSome, OnErr, OnOk, IsTrue};
ghost use Rattle.std.specs.List.{AllByRecursion, Contains};
ghost use Rattle.failure.specs.Counts.{Rose};
ghost use Rattle.wt_code.specs.StoreErrors.{IsOfDisk};
ghost use Rattle.disk_model.specs.Crash.{SameDisk};
ghost use Rattle.device_layout.specs.declared.addr.Addr.{Addr as AnAddr};
ghost use Rattle.extent_list.specs.Space.{end_of};
ghost use Rattle.block_mgr.specs.Blocks.{Books};
ghost use Rattle.kv_model.specs.History.{Table};
ghost use Rattle.kv_model.specs.Holds.{Member};
ghost use Rattle.kv_model.specs.Machine.{of_some};
ghost use Rattle.row_page.specs.Rows.{Row, is_below, key_most};
ghost use Rattle.reconcile.specs.Capture.{ChainsFit};
ghost use Rattle.leaf_rows.specs.Rows.{AreFit};
ghost use Rattle.reconcile.specs.Images.{AreImages};
ghost use Rattle.stored.specs.Links.{LinkFits};
ghost use Rattle.stored.specs.Stored.{Stored};
ghost use Rattle.stored.specs.TableTree.{Climbs, Entry as StoredEntry, EntryFits, first_key};
ghost use Rattle.tree_dir.specs.Leaves.{leaves_of};
ghost use Rattle.tree_dir.specs.declared.leaf.Leaf.{Leaf as ALeaf};
ghost use Rattle.wt_code.specs.declared.store_error.StoreError.TheVariants.{NoMemory as WantOfMemory};
ghost use Rattle.tree_write.specs.Drafts.{AreBelow, AreFrom, addrs_to};
ghost use Rattle.tree_write.specs.Keeps.{AreLive, KeepsAll};
ghost use Rattle.tree_write.specs.Steps.{links_in};
ghost use Rattle.ckpt_content.specs.Finished.{tables_then};
ghost use Rattle.frame_capture.specs.Capture.{IsCaptured};
ghost use Rattle.ckpt_step.specs.Drafting.{Drafting, Drafts, WritesLeaf};
ghost use Rattle.ckpt_step.specs.Floors.{AreOnDevice, FollowsFrom};
ghost use Rattle.ckpt_step.specs.Rooms.{known_in};
ghost use Rattle.ckpt_step.specs.Goings.{HasPartsAt, MayGo};
ghost use Rattle.ckpt_step.specs.Lives.{live_addrs};
ghost use Rattle.ckpt_step.specs.Moments.{IsMoment, Moment};
ghost use Rattle.ckpt_step.specs.declared.parts.LeafPart.{LeafPart as APart};

use crate::before::Before;
use crate::clean::{LeafStep, are_live, frame_of, step_of};
use crate::parts::LeafPart;
use crate::taken::Taken;
use block_mgr::Blocks;
use byte_order::order;
use device_layout::Link;
use disk_model::Disk;
use engine::Local;
use failure::NoMemory;
use frame_capture::reconciled_rows_are_captured;
use inner_page::Entry;
use item::Item;
use leaf_frame::LeafFrame;
use limits::KEY_MAX;
use reconcile::{Image, Live};
use snapshot::Snapshot;
use stamp::Name;
use std::alloc::Global;
use tree_dir::Leaf;
use tree_write::TreeDraft;
use wt_code::StoreError;

// Captures the leaves of the table of this number, one after the other, into a draft without leaves.
pub(crate) fn take_leaves<D: Disk>(
    alloc: Global,
    disk: &mut D,
    blocks: &mut Blocks,
    was: Before<'_>,
    engine: &Local,
    snapshot: &Snapshot,
    table: u32,
    draft: &mut TreeDraft,
    taken: &mut Taken,
) -> Result<(), StoreError>
    requires held { blocks.old.is_held ≡ true }
    requires empty { draft.old ≡ [] }
    requires ready { IsTrue (D.honest disk.old) → end_of blocks.old.space ≤ length (D.seen disk.old) }
    ensures drafts { IsTrue (D.honest disk.old) → (n : Moment) → IsMoment engine.now snapshot.now.sight was.entry.floor n → (i : ℕ) (t : Table) → slice_get engine.now.hub.tables.tables i ≡ Some t → t.number ≡ table → Member t (tables_then n.world.machine n.checkpoint)
        → (old : Option Stored) (first : Books) → MayGo (D.seen disk.old) (D.may_leave disk.old) first blocks.old old was.entry.trees.now (live_addrs was.entry.lives.now (leaves_of t.number engine.now.hub.dir.leaves)) i → HasPartsAt old was.entry.lives.now engine.now.hub.dir.leaves (known_in was.entry.parts.now) was.entry.trees.now t i
        → FollowsFrom old engine.now.hub.tables.tables was.entry.lives.now engine.now.hub.dir.leaves (known_in was.entry.parts.now) was.entry.trees.now was.entry.floor n.world → AreOnDevice (D.seen disk.old) was.entry.lives.now engine.now.hub.dir.leaves n.world.shelf
        → Drafts D.Disk old first engine.now.hub.dir.leaves (known_in was.entry.parts.now) n table blocks.old blocks.new taken.old.parts.items taken.new.parts.items taken.old.captured.items taken.new.captured.items disk.old disk.new (leaves_of table engine.now.hub.dir.leaves) draft.new result }
    ensures trees { taken.new.trees ≡ taken.old.trees }
    ensures ready { IsTrue (D.honest disk.old) → OnOk result (end_of blocks.new.space ≤ length (D.seen disk.new)) }
    ensures held { blocks.new.is_held ≡ true }
    ensures fault { IfErr result (λ e. IsOfDisk e → Rose (D.faults disk.old) (D.faults disk.new)) }
    ensures disk { SameDisk D.Disk disk.old disk.new }
{
    let mut leaves = engine.leaves().leaves_of(table);
    while let Some(leaf) = leaves.next_leaf() {
        take_leaf(
            alloc, disk, blocks, was, engine, snapshot, leaf, draft, taken,
        )?;
    }
    Ok(())
}

// Captures a leaf of the directory behind those of its table that are captured: as it stands in the
// checkpoint before, or as it was written since, where it is in no frame or clean, or else its rows.
fn take_leaf<D: Disk>(
    alloc: Global,
    disk: &mut D,
    blocks: &mut Blocks,
    was: Before<'_>,
    engine: &Local,
    snapshot: &Snapshot,
    leaf: &Leaf,
    draft: &mut TreeDraft,
    taken: &mut Taken,
) -> Result<(), StoreError>
    requires held { blocks.old.is_held ≡ true }
    requires there { Contains engine.now.hub.dir.leaves leaf.now }
    requires ready { IsTrue (D.honest disk.old) → end_of blocks.old.space ≤ length (D.seen disk.old) }
    ensures drafts { IsTrue (D.honest disk.old) → (n : Moment) → IsMoment engine.now snapshot.now.sight was.entry.floor n → (i : ℕ) (t : Table) → slice_get engine.now.hub.tables.tables i ≡ Some t → leaf.now.table ≡ t.number → Member t (tables_then n.world.machine n.checkpoint)
        → (old : Option Stored) (first books : Books) (before : D) (more : List APart) (captured : List AnAddr) (front rest : List ALeaf) → MayGo (D.seen before) (D.may_leave before) first books old was.entry.trees.now (live_addrs was.entry.lives.now (leaves_of t.number engine.now.hub.dir.leaves)) i → HasPartsAt old was.entry.lives.now engine.now.hub.dir.leaves (known_in was.entry.parts.now) was.entry.trees.now t i
        → FollowsFrom old engine.now.hub.tables.tables was.entry.lives.now engine.now.hub.dir.leaves (known_in was.entry.parts.now) was.entry.trees.now was.entry.floor n.world → AreOnDevice (D.seen before) was.entry.lives.now engine.now.hub.dir.leaves n.world.shelf → leaves_of t.number engine.now.hub.dir.leaves ≡ front ++ leaf.now ∷ rest
        → Drafting D.Disk old first engine.now.hub.dir.leaves (known_in was.entry.parts.now) n t.number books blocks.old more taken.old.parts.items captured taken.old.captured.items before disk.old front draft.old
        → Drafts D.Disk old first engine.now.hub.dir.leaves (known_in was.entry.parts.now) n t.number books blocks.new more taken.new.parts.items captured taken.new.captured.items before disk.new (front ++ leaf.now ∷ []) draft.new result }
    ensures trees { taken.new.trees ≡ taken.old.trees }
    ensures ready { IsTrue (D.honest disk.old) → OnOk result (end_of blocks.new.space ≤ length (D.seen disk.new)) }
    ensures held { blocks.new.is_held ≡ true }
    ensures fault { IfErr result (λ e. IsOfDisk e → Rose (D.faults disk.old) (D.faults disk.new)) }
    ensures disk { SameDisk D.Disk disk.old disk.new }
{
    match step_of(engine, leaf, was) {
        LeafStep::Keep(part) => {
            if are_live(blocks, part) {
                return keep_leaf(alloc, blocks, part, draft, taken);
            }
            let Some(frame) = frame_of(engine, leaf) else {
                return Err(StoreError::NoMemory);
            };
            write_leaf(
                alloc, disk, blocks, snapshot, leaf, frame, part, draft, taken,
            )
        }
        LeafStep::Write(frame, part) => write_leaf(
            alloc, disk, blocks, snapshot, leaf, frame, part, draft, taken,
        ),
    }
}

// Captures a leaf as it stands, with these entries. The error is want of memory.
fn keep_leaf(
    alloc: Global,
    blocks: &mut Blocks,
    part: &[Entry],
    draft: &mut TreeDraft,
    taken: &mut Taken,
) -> Result<(), StoreError>
    requires live { AreLive blocks.old.cells (addrs_to part.now) }
    requires held { blocks.old.is_held ≡ true }
    ensures keeps { OnOk result (KeepsAll blocks.old blocks.new (addrs_to part.now)) }
    ensures listed { OnOk result (taken.new.captured.items ≡ taken.old.captured.items ++ addrs_to part.now) }
    ensures entries { OnOk result (draft.new ≡ draft.old ++ part.now) }
    ensures same { OnErr result ((blocks.new ≡ blocks.old) × (taken.new.captured.items ≡ taken.old.captured.items)) }
    ensures others { (taken.new.trees ≡ taken.old.trees) × (taken.new.parts ≡ taken.old.parts) }
    ensures err { IfErr result (λ e. e ≡ WantOfMemory) }
    ensures held { blocks.new.is_held ≡ true }
{
    if !may_stand_behind(draft.entries(), part) {
        return Err(StoreError::NoMemory);
    }
    let Ok(part) = copy_of(alloc, part) else {
        return Err(StoreError::NoMemory);
    };
    draft.keep(blocks, part, &mut taken.captured)
}

// Writes and captures the rows of a leaf that is in this frame, over these entries of it.
fn write_leaf<D: Disk>(
    alloc: Global,
    disk: &mut D,
    blocks: &mut Blocks,
    snapshot: &Snapshot,
    leaf: &Leaf,
    frame: &LeafFrame,
    part: &[Entry],
    draft: &mut TreeDraft,
    taken: &mut Taken,
) -> Result<(), StoreError>
    requires fit { ChainsFit frame.now.chains }
    requires held { blocks.old.is_held ≡ true }
    requires ready { IsTrue (D.honest disk.old) → end_of blocks.old.space ≤ length (D.seen disk.old) }
    ensures writes { IsTrue (D.honest disk.old) → WritesLeaf D.Disk snapshot.now.sight frame.now leaf.now part.now blocks.old blocks.new draft.old draft.new taken.old.parts.items taken.new.parts.items taken.old.captured.items taken.new.captured.items disk.old disk.new result }
    ensures trees { taken.new.trees ≡ taken.old.trees }
    ensures ready { IsTrue (D.honest disk.old) → OnOk result (end_of blocks.new.space ≤ length (D.seen disk.new)) }
    ensures held { blocks.new.is_held ≡ true }
    ensures fault { IfErr result (λ e. IsOfDisk e → Rose (D.faults disk.old) (D.faults disk.new)) }
    ensures disk { SameDisk D.Disk disk.old disk.new }
{
    let low = &leaf.entry.key;
    if !may_begin_behind(draft.entries(), low) {
        return Err(StoreError::NoMemory);
    }
    let Ok(images) = images_of(alloc, frame, snapshot) else {
        return Err(StoreError::NoMemory);
    };
    if !stand_from(&images, low) {
        return Err(StoreError::NoMemory);
    }
    let Ok(was) = links_of(alloc, part) else {
        return Err(StoreError::NoMemory);
    };
    let Ok(()) = taken.parts.reserve(1) else {
        return Err(StoreError::NoMemory);
    };
    let before = draft.len();
    match draft.write(alloc, disk, blocks, low, &was, &images, &mut taken.captured) {
        Ok(()) => note_part(alloc, leaf.id, &draft.entries()[before..], taken),
        Err(error) => Err(error),
    }
}

// Notes with which entries a leaf was written, for which there is room. The error is want of memory.
fn note_part(
    alloc: Global,
    leaf: u64,
    entries: &[Entry],
    taken: &mut Taken,
) -> Result<(), StoreError>
    requires room { vec_len taken.old.parts < vec_capacity taken.old.parts }
    ensures noted { OnOk result ((p : APart) × (p.leaf ≡ leaf) × (p.entries.items ≡ entries.now) × (taken.new.parts.items ≡ taken.old.parts.items ++ p ∷ [])) }
    ensures others { (taken.new.trees ≡ taken.old.trees) × (taken.new.captured ≡ taken.old.captured) }
    ensures err { IfErr result (λ e. e ≡ WantOfMemory) }
{
    let Ok(entries) = copy_of(alloc, entries) else {
        return Err(StoreError::NoMemory);
    };
    taken.parts.push_reserved(LeafPart { leaf, entries });
    Ok(())
}

// The images of a leaf in memory: of each key the newest version that the snapshot sees. Everything
// is past, so nothing moves to a history.
pub(crate) fn images_of(
    alloc: Global,
    leaf: &LeafFrame,
    snapshot: &Snapshot,
) -> Result<Vec<Image>, NoMemory>
    requires fit { ChainsFit leaf.now.chains }
    ensures { IfOk result (λ images. (rows : List Row) × IsCaptured snapshot.now.sight leaf.now rows × AreImages images.items rows) }
{
    reconciled_rows_are_captured();
    let floor = Name {
        run: u64::MAX,
        id: u64::MAX,
    };
    let live = Live::Seen(snapshot);
    let made = leaf.reconcile(alloc, live, u64::MAX, floor)?;
    Ok(made.images)
}

// Whether the rows of these images stand from this key on, as those of each leaf do from its low key.
pub(crate) fn stand_from(images: &[Image], low: &Item) -> bool
    ensures { (rows : List Row) → AreImages images.now rows → AreFit rows → IsTrue result → AreFrom low.now rows }
{
    match images.first() {
        None => true,
        Some(first) => !is_below(&first.low, low),
    }
}

fn links_of(alloc: Global, entries: &[Entry]) -> Result<Vec<Link>, NoMemory>
    ensures { IfOk result (λ v. v.items ≡ links_in entries.now) }
{
    Ok(entries.iter().map(|entry| entry.link).collect(alloc)?)
}

// A copy of these entries. The error is want of memory. One allocation for each.
pub(crate) fn copy_of(alloc: Global, entries: &[Entry]) -> Result<Vec<Entry>, NoMemory>
    ensures { IfOk result (λ v. v.items ≡ entries.now) }
{
    let mut copies = Vec::with_capacity(alloc, entries.len())?;
    for entry in entries {
        push_copy(&mut copies, entry)?;
    }
    Ok(copies)
}

fn push_copy(copies: &mut Vec<Entry>, entry: &Entry) -> Result<(), NoMemory>
    ensures { OnOk result (copies.new.items ≡ copies.old.items ++ entry.now ∷ []) }
{
    let copy = Entry {
        key: entry.key.copy()?,
        link: entry.link,
    };
    match copies.push(copy) {
        Ok(()) => Ok(()),
        Err(_) => Err(NoMemory),
    }
}

// Whether a part may stand behind these entries, as each part may behind those of the leaves before its
// own: its keys are not too long, they ascend, and the first is above them.
fn may_stand_behind(entries: &[Entry], part: &[Entry]) -> bool
    requires climbs { Climbs entries.now }
    ensures fit { IsTrue result → AllByRecursion EntryFits part.now }
    ensures climbs { IsTrue result → Climbs part.now }
    ensures above { IsTrue result → IfSome (first_key part.now) (λ key. AreBelow key entries.now) }
{
    match part.first() {
        None => true,
        Some(first) => may_begin_behind(entries, &first.key) && climb(part),
    }
}

// Whether the keys are not too long and ascend.
fn climb(part: &[Entry]) -> bool
    ensures fit { IsTrue result → AllByRecursion EntryFits part.now }
    ensures climbs { IsTrue result → Climbs part.now }
{
    let mut last: Option<&Entry> = None;
    for entry in part {
        if entry.key.as_bytes().len() > KEY_MAX || !is_above(entry, last) {
            return false;
        }
        link_fits(entry.link);
        last = Some(entry);
    }
    true
}

// That each number of a link fits its type is known of every link.
fn link_fits(link: Link)
    ensures { LinkFits link }
{
    let _ = link;
}

// Whether an entry's key is above that of the last one, where there is one.
pub(crate) fn is_above(entry: &Entry, last: Option<&Entry>) -> bool
    ensures { result ≡ of_some true (λ e. is_below e.now.key entry.now.key) last.entry }
{
    match last {
        None => true,
        Some(last) => is_below(&last.key, &entry.key),
    }
}

// Whether a part from this key on may stand behind these entries: the key is not too long, and above
// theirs.
pub(crate) fn may_begin_behind(entries: &[Entry], low: &Item) -> bool
    requires climbs { Climbs entries.now }
    ensures short { IsTrue result → length low.now ≤ key_most }
    ensures above { IsTrue result → AreBelow low.now entries.now }
{
    if low.as_bytes().len() > KEY_MAX {
        return false;
    }
    match entries.last() {
        None => true,
        Some(last) => is_below(&last.key, low),
    }
}

pub(crate) fn is_below(key: &Item, other: &Item) -> bool
    ensures { result ≡ is_below key.now other.now }
{
    order(key.as_bytes(), other.as_bytes()).is_lt()
}
