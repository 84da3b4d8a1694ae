// What the checkpoint before has of leaves, and which of them have still the same rows.
ghost use Rattle.std.specs.Prelude.{◌≡◌, ℕ, List, Option, Some, length, option_map, slice_get, true, false, IfNone, IfSome, IsTrue, MatchOption};
ghost use Rattle.std.specs.List.{Contains};
ghost use Rattle.kv_model.specs.History.{Table};
ghost use Rattle.kv_model.specs.Holds.{Member};
ghost use Rattle.leaf_rows.specs.Rows.{AreFit};
ghost use Rattle.snapshot.specs.Past.{is_below as is_below_of};
ghost use Rattle.snapshot.specs.Sight.{IsSight, Sight};
ghost use Rattle.stamp.specs.declared.Name.{Name as AName};
ghost use Rattle.stored.specs.Stored.{Stored};
ghost use Rattle.tree_dir.specs.Leaves.{leaves_of};
ghost use Rattle.tree_dir.specs.declared.leaf.Leaf.{Leaf as ALeaf};
ghost use Rattle.tree_write.specs.Drafts.{addrs_to};
ghost use Rattle.tree_write.specs.Keeps.{AreLive};
ghost use Rattle.tree_write.specs.Writes.{LeadApart};
ghost use Rattle.checkpoint_core.specs.Stands.{HasStill};
ghost use Rattle.ckpt_step.specs.Trees.{leaves_at};
ghost use Rattle.leaf_frame.specs.Updates.{NoneAbove};
ghost use Rattle.ckpt_content.specs.Finished.{tables_then};
ghost use Rattle.ckpt_step.specs.Floors.{FollowsFrom};
ghost use Rattle.ckpt_step.specs.Rooms.{known_in};
ghost use Rattle.ckpt_step.specs.Goings.{HasPartsAt};
ghost use Rattle.ckpt_step.specs.Lives.{is_live};
ghost use Rattle.ckpt_step.specs.Moments.{IsMoment, Moment};
ghost use Rattle.ckpt_step.specs.Parts.{AreBelowFloor, own_part, part_in};
ghost use Rattle.ckpt_step.specs.Stills.{IsStill};
ghost use Rattle.ckpt_step.specs.Steps.{IsKept, IsLoaded, IsStepOf, IsUnloaded};

use crate::before::Before;
use crate::parts::Parts;
use block_mgr::Blocks;
use engine::Local;
use inner_page::Entry;
use leaf_frame::LeafFrame;
use snapshot::Snapshot;
use stamp::Name;
use std::slice::from_ref;
use tree_dir::Leaf;
use tree_open::TreePlace;

// What a checkpoint does with a leaf, of which the one before has these entries, or to which it was
// written since.
#[derive(Clone, Copy)]
pub(crate) enum LeafStep<'a> {
    // It keeps them: the leaf has still the same rows, or is in no frame.
    Keep(&'a [Entry]),
    // It writes the rows of this frame over them.
    Write(&'a LeafFrame, &'a [Entry]),
}

// The name before which all have ended at a checkpoint with this snapshot: the least of those that
// have not, or else the next one.
pub(crate) fn floor_of(snapshot: &Snapshot) -> Name
    ensures is { result ≡ record { run = snapshot.now.sight.run; id = snapshot.now.sight.min } }
    ensures sight { IsSight snapshot.now.sight }
{
    let view = snapshot.view(0, 0);
    Name {
        run: view.run,
        id: view.min,
    }
}

// Where the tree of the table at a place stands in the checkpoint before, if each leaf of the table is
// kept, and none was written since. `O(n log m)` in the leaves of the table and those written.
pub(crate) fn clean_tree<'a>(engine: &Local, place: u32, was: Before<'a>) -> Option<&'a TreePlace>
    ensures at { IfSome result (λ p. slice_get was.entry.trees.now place ≡ Some p.now) }
    ensures still { (n : Moment) (s : Sight) → IsMoment engine.now s was.entry.floor n → (t : Table) → slice_get engine.now.hub.tables.tables place ≡ Some t → Member t (tables_then n.world.machine n.checkpoint)
        → (old : Option Stored) (bytes : List ℕ) → HasStill old bytes → LeadApart (leaves_at was.entry.trees.now place) → HasPartsAt old was.entry.lives.now engine.now.hub.dir.leaves (known_in was.entry.parts.now) was.entry.trees.now t place → FollowsFrom old engine.now.hub.tables.tables was.entry.lives.now engine.now.hub.dir.leaves (known_in was.entry.parts.now) was.entry.trees.now was.entry.floor n.world → IfSome result (λ p. IsStill old was.entry.lives.now engine.now.hub.dir.leaves (known_in was.entry.parts.now) n t p.now) }
{
    let tree = was.trees.get(place as usize)?;
    let table = engine.tables().table(place)?;
    if keeps_all(engine, table.number, was) {
        Some(tree)
    } else {
        None
    }
}

// Whether a checkpoint keeps each leaf of the table of this number, and none was written since.
fn keeps_all(engine: &Local, table: u32, was: Before<'_>) -> bool
    ensures { IsTrue result → (l : ALeaf) → Contains (leaves_of table engine.now.hub.dir.leaves) l → (is_live was.entry.lives.now l ≡ false) × IsKept engine.now (known_in was.entry.parts.now) was.entry.floor l }
{
    let mut leaves = engine.leaves().leaves_of(table);
    while let Some(leaf) = leaves.next_leaf() {
        if was.lives.is_live(leaf) {
            return false;
        }
        if let LeafStep::Write(_, _) = step_of(engine, leaf, was) {
            return false;
        }
    }
    true
}

// What a checkpoint does with a leaf of the directory. `O(log n)` in the leaves that this engine wrote,
// and `O(1)` for each image.
pub(crate) fn step_of<'a>(engine: &'a Local, leaf: &'a Leaf, was: Before<'a>) -> LeafStep<'a>
    ensures { IsStepOf engine.now (known_in was.entry.parts.now) was.entry.floor leaf.now result }
{
    let part = part_of(was.parts, leaf);
    let entries = match part {
        Some(entries) => entries,
        None => &[],
    };
    let Some(frame) = frame_of(engine, leaf) else {
        return LeafStep::Keep(entries);
    };
    if is_clean(part, frame, was.floor) {
        LeafStep::Keep(entries)
    } else {
        LeafStep::Write(frame, entries)
    }
}

// The entries that the checkpoint before has of a leaf, or the one to which it was written since; none
// where nothing was ever written of it, or no rows.
pub(crate) fn part_of<'a>(parts: &'a Parts, leaf: &'a Leaf) -> Option<&'a [Entry]>
    ensures { option_map (λ es. es.now) result ≡ part_in (known_in parts.now) leaf.now }
{
    match parts.of(leaf.id) {
        Some(entries) => Some(entries),
        None => own_part(&leaf.entry),
    }
}

// The part of a leaf that no checkpoint of this engine wrote.
fn own_part(entry: &Entry) -> Option<&[Entry]>
    ensures { option_map (λ es. es.now) result ≡ own_part entry.now }
{
    if entry.link.greatest.id == 0 {
        None
    } else {
        Some(from_ref(entry))
    }
}

// The leaf in memory, if it is in a frame.
pub(crate) fn frame_of<'a>(engine: &'a Local, leaf: &Leaf) -> Option<&'a LeafFrame>
    ensures some { IfSome result (λ held. IsLoaded engine.now leaf.now held.now) }
    ensures none { IfNone result (IsUnloaded engine.now leaf.now) }
{
    let framed = leaf.frame?;
    let frame = engine.leaf_in(framed.frame)?;
    rows_fit(frame);
    Some(frame)
}

// That its rows fit is known of every leaf.
fn rows_fit(leaf: &LeafFrame)
    ensures { AreFit leaf.now.page }
{
    let _page = leaf.page();
}

// Whether the names of a part and those of its leaf in memory are all below the floor. A leaf of which
// nothing was ever written is not clean.
fn is_clean(part: Option<&[Entry]>, frame: &LeafFrame, floor: Name) -> bool
    ensures part { IsTrue result → MatchOption part.entry ⊥ (λ es. AreBelowFloor floor es.now) }
    ensures held { IsTrue result → (greatest : AName) × NoneAbove greatest frame.now × (is_below_of greatest floor ≡ true) }
{
    match part {
        None => false,
        Some(entries) => are_below(entries, floor) && frame.greatest().is_before(floor),
    }
}

fn are_below(entries: &[Entry], floor: Name) -> bool
    ensures { IsTrue result → AreBelowFloor floor entries.now }
{
    for entry in entries {
        if !entry.link.greatest.is_before(floor) {
            return false;
        }
    }
    true
}

// Whether the live tree has each leaf of these entries. `O(1)` for each.
pub(crate) fn are_live(blocks: &Blocks, entries: &[Entry]) -> bool
    ensures { IsTrue result → AreLive blocks.now.cells (addrs_to entries.now) }
{
    for entry in entries {
        if !blocks.is_live(entry.link.addr) {
            return false;
        }
    }
    true
}
