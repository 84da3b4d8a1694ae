// A leaf without keys that leaves its frame.
ghost use Rattle.std.specs.Prelude.{◌≡◌, ◌≢◌, ℕ, List, [], Option, None, Some, false, length, slice_get, IfOk, IfSome, IsTrue, OnErr};
ghost use Rattle.kv_model.specs.History.{Table};
ghost use Rattle.reconcile.specs.declared.image.Moved.{Moved as AMoved};
ghost use Rattle.tree_dir.specs.Leaves.{leaf_named};
ghost use Rattle.tree_dir.specs.declared.leaf.Leaf.{Leaf as ALeaf};
ghost use Rattle.engine.specs.declared.running_checkpoint.RunningCheckpoint.{RunningCheckpoint as ARunning};
ghost use Rattle.evict_step.specs.Cuts.{AreCut};
ghost use Rattle.ckpt_step.specs.EvictSteps.{HasLeftEmpty, IsRowless};
ghost use Rattle.ckpt_step.specs.Lives.{is_live};
ghost use Rattle.ckpt_step.specs.Parts.{has_rows, part_of};
ghost use Rattle.ckpt_step.specs.Rooms.{known_in};

use crate::clean;
use crate::ground::Ground;
use crate::parts::Parts;
use device_layout::Link;
use engine::Local;
use failure::NoMemory;
use tree_dir::Leaf;

// A leaf of which no key has a version leaves its frame, and leads where it led, where that is to no rows
// and the checkpoint before has none of it: it is read again as a leaf without rows. `Ok(false)` where it
// may not; then, and without memory, nothing changed.
pub(crate) fn leave_empty(
    ground: &mut Ground,
    engine: &mut Local,
    leaf: u64,
) -> Result<bool, NoMemory>
    requires cut { (running : Option ARunning) × (moved : List AMoved) × AreCut engine.old running leaf [] moved }
    ensures left { IfOk result (λ left. IsTrue left → HasLeftEmpty engine.old engine.new ground.old ground.new leaf) }
    ensures not { IfOk result (λ left. left ≡ false → (engine.new ≡ engine.old) × (ground.new ≡ ground.old)) }
    ensures kept { OnErr result ((engine.new ≡ engine.old) × (ground.new ≡ ground.old)) }
    ensures number { ground.new.number ≡ ground.old.number }
    ensures trees { ground.new.trees ≡ ground.old.trees }
    ensures floor { ground.new.floor ≡ ground.old.floor }
    ensures stood { ground.new.history ≡ ground.old.history }
    ensures sessions { length engine.new.sessions ≡ length engine.old.sessions }
    ensures hub { (engine.new.hub.tables ≡ engine.old.hub.tables) × (engine.new.hub.txns ≡ engine.old.hub.txns) }
{
    let Some(link) = empty_link(ground, engine, leaf) else {
        return Ok(false);
    };
    match engine.evict(leaf, link) {
        Ok(true) => {
            ground.parts.forget(leaf);
            ground.kept.forget(leaf);
            Ok(true)
        }
        // It may be evicted, so only memory is wanting.
        Ok(false) | Err(_) => Err(NoMemory),
    }
}

// Where the leaf of this id leads, if it may leave its frame without a block.
fn empty_link(ground: &Ground, engine: &Local, leaf: u64) -> Option<Link>
    ensures { IfSome result (λ link. (l : ALeaf) × (leaf_named leaf engine.now.hub.dir.leaves ≡ Some l) × (link ≡ l.entry.link) × IsRowless ground.now engine.now.hub l) }
{
    let Some(found) = engine.leaves().leaf(leaf) else {
        return None;
    };
    if is_rowless(ground, engine, found) {
        Some(found.entry.link)
    } else {
        None
    }
}

fn is_rowless(ground: &Ground, engine: &Local, leaf: &Leaf) -> bool
    ensures dead { IsTrue result → is_live ground.now.lives leaf.now ≡ false }
    ensures link { IsTrue result → has_rows leaf.now.entry.link ≡ false }
    ensures part { IsTrue result → part_of (known_in ground.now.parts) leaf.now ≡ [] }
    ensures placed { IsTrue result → (i : ℕ) (t : Table) → slice_get engine.now.hub.tables.tables i ≡ Some t → leaf.now.table ≡ t.number → slice_get ground.now.trees.items i ≢ None }
{
    leads_nowhere(leaf)
        && !ground.lives.is_live(leaf)
        && has_no_part(&ground.parts, leaf)
        && has_tree(ground, engine, leaf.table)
}

// Whether the entry of a leaf leads to no rows.
fn leads_nowhere(leaf: &Leaf) -> bool
    ensures { IsTrue result → has_rows leaf.now.entry.link ≡ false }
{
    leaf.entry.link.greatest.id == 0
}

fn has_no_part(parts: &Parts, leaf: &Leaf) -> bool
    ensures { IsTrue result → part_of (known_in parts.now) leaf.now ≡ [] }
{
    match clean::part_of(parts, leaf) {
        None => true,
        Some(entries) => entries.is_empty(),
    }
}

// Whether the checkpoint before has the table of this number, if there is one.
fn has_tree(ground: &Ground, engine: &Local, table: u32) -> bool
    ensures { IsTrue result → (i : ℕ) (t : Table) → slice_get engine.now.hub.tables.tables i ≡ Some t → table ≡ t.number → slice_get ground.now.trees.items i ≢ None }
{
    let Ok(next) = u32::try_from(ground.trees.len()) else {
        return false;
    };
    match engine.tables().table(next) {
        None => true,
        Some(first) => table < first.number,
    }
}
