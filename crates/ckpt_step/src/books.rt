// What a checkpoint does to the books beside its trees.
ghost use Rattle.std.specs.Prelude.{◌≡◌, ◌++◌, List, Option, None, Some, [], true, false, ℕ, slice_get, IsTrue};
ghost use Rattle.extent_list.specs.Space.{end_of};
ghost use Rattle.block_mgr.specs.Cells.{AreUnits, cell_at};
ghost use Rattle.device_layout.specs.declared.addr.Addr.{Addr as AnAddr};
ghost use Rattle.kv_model.specs.Holds.{Member};
ghost use Rattle.stored.specs.Stored.{Stored};
ghost use Rattle.tree_write.specs.Drafts.{addrs_to};
ghost use Rattle.ckpt_step.specs.CutOuts.{LetGo};
ghost use Rattle.ckpt_step.specs.Frees.{without, without_all, without_new, without_news};
ghost use Rattle.ckpt_step.specs.Grounds.{AreLone, start_cell};
ghost use Rattle.ckpt_step.specs.Halves.{AreApartFrom, AreOldBlocks, AreOwn, IsFresh, done_at, half_cell, settled_at};
ghost use Rattle.ckpt_step.specs.Lives.{addrs_in};
ghost use Rattle.ckpt_step.specs.Trees.{addrs_of, kept_by, left_by};

use crate::lives::Lives;
use block_mgr::Blocks;
use device_layout::Addr;
use inner_page::Entry;
use tree_open::TreePlace;

// The running checkpoint is given up, with the blocks that it captured: those that it wrote are free
// again. `O(n log m)` in the blocks and the leaves that were written since the last one, and one pass
// over the units of the device.
pub(crate) fn give_up(blocks: &mut Blocks, captured: &[Addr], lives: &Lives)
    requires held { blocks.old.is_held ≡ true }
    ensures cells { (old : Option Stored) → AreLone old lives.now → AreOwn old lives.now captured.now → ((u : ℕ) → cell_at blocks.old.cells u ≡ half_cell old lives.now captured.now u) → (u : ℕ) → cell_at blocks.new.cells u ≡ start_cell old lives.now u }
    ensures units { AreUnits blocks.old.cells blocks.old.space → AreUnits blocks.new.cells blocks.new.space }
    ensures end { end_of blocks.new.space ≡ end_of blocks.old.space }
    ensures synced { blocks.new.is_synced ≡ blocks.old.is_synced }
    ensures held { blocks.new.is_held ≡ false }
{
    let_go_of_new(blocks, captured, lives);
    blocks.ckpt_drop();
}

// The live tree lets go of the blocks of before that are not in the last checkpoint: of the trees that
// do not stay where they are, of the history, and of the leaves that were written since but these
// others, which are all that is left of them. `O(n log m)` in these blocks and others.
pub(crate) fn let_go(
    blocks: &mut Blocks,
    was: &[TreePlace],
    told: &[Option<TreePlace>],
    history: &[Addr],
    lives: &mut Lives,
    others: &Lives,
)
    ensures cells { (old : Option Stored) (captured : List AnAddr) (a : AnAddr) → AreOldBlocks old lives.old (addrs_of was.now ++ (history.now ++ addrs_in lives.old)) → ((x : AnAddr) → Member x (addrs_of (kept_by was.now told.now)) → Member x captured) → AreOwn old lives.old captured → IsFresh old lives.old captured a → AreApartFrom old lives.old captured (addrs_of was.now ++ history.now) others.now → ((u : ℕ) → cell_at blocks.old.cells u ≡ done_at old lives.old captured a u) → (u : ℕ) → cell_at blocks.new.cells u ≡ settled_at captured others.now a u }
    ensures none { lives.new ≡ [] }
    ensures end { end_of blocks.new.space ≡ end_of blocks.old.space }
    ensures units { AreUnits blocks.old.cells blocks.old.space → AreUnits blocks.new.cells blocks.new.space }
    ensures synced { blocks.new.is_synced ≡ blocks.old.is_synced }
    ensures held { blocks.new.is_held ≡ blocks.old.is_held }
{
    let_go_trees(blocks, was, told);
    let_go_unless_last(blocks, history);
    let_go_lives(blocks, lives, others);
}

// Of the trees, by what the cells are made of.
fn let_go_trees(blocks: &mut Blocks, trees: &[TreePlace], told: &[Option<TreePlace>])
    ensures cells { (u : ℕ) → cell_at blocks.new.cells u ≡ without_all u (cell_at blocks.old.cells u) (addrs_of (left_by trees.now told.now)) }
    ensures end { end_of blocks.new.space ≡ end_of blocks.old.space }
    ensures units { AreUnits blocks.old.cells blocks.old.space → AreUnits blocks.new.cells blocks.new.space }
    ensures synced { blocks.new.is_synced ≡ blocks.old.is_synced }
    ensures held { blocks.new.is_held ≡ blocks.old.is_held }
{
    for place in 0..trees.len() {
        if !stays(told, place) {
            let_go_unless_last(blocks, &trees[place].addrs);
        }
    }
}

// Of the leaves that were written since, but these others.
fn let_go_lives(blocks: &mut Blocks, lives: &mut Lives, others: &Lives)
    ensures cells { (u : ℕ) → cell_at blocks.new.cells u ≡ without_news others.now u (cell_at blocks.old.cells u) (addrs_in lives.old) }
    ensures none { lives.new ≡ [] }
    ensures end { end_of blocks.new.space ≡ end_of blocks.old.space }
    ensures units { AreUnits blocks.old.cells blocks.old.space → AreUnits blocks.new.cells blocks.new.space }
    ensures synced { blocks.new.is_synced ≡ blocks.old.is_synced }
    ensures held { blocks.new.is_held ≡ blocks.old.is_held }
{
    while let Some(lone) = lives.pop() {
        let_go_if_new(blocks, lone.addr, others);
    }
}

// Whether the tree at a place stands where it did.
fn stays(told: &[Option<TreePlace>], place: usize) -> bool
    ensures yes { IsTrue result → slice_get told.now place ≡ Some None }
    ensures no { result ≡ false → slice_get told.now place ≡ Some None → ⊥ }
{
    match told.get(place) {
        Some(tree) => tree.is_none(),
        None => false,
    }
}

// The live tree lets go of these blocks, but of those that the last checkpoint has.
fn let_go_unless_last(blocks: &mut Blocks, addrs: &[Addr])
    ensures cells { (u : ℕ) → cell_at blocks.new.cells u ≡ without_all u (cell_at blocks.old.cells u) addrs.now }
    ensures end { end_of blocks.new.space ≡ end_of blocks.old.space }
    ensures units { AreUnits blocks.old.cells blocks.old.space → AreUnits blocks.new.cells blocks.new.space }
    ensures synced { blocks.new.is_synced ≡ blocks.old.is_synced }
    ensures held { blocks.new.is_held ≡ blocks.old.is_held }
{
    for i in 0..addrs.len() {
        let_go_of(blocks, addrs[i]);
    }
}

// Of the leaves of these entries.
pub(crate) fn let_go_leaves(blocks: &mut Blocks, entries: &[Entry])
    ensures { LetGo blocks.old blocks.new (addrs_to entries.now) }
{
    for i in 0..entries.len() {
        let entry = &entries[i];
        let_go_of(blocks, entry.link.addr);
    }
}

// The live tree lets go of these blocks, but of those that the last checkpoint has and of those of the
// leaves that were written since.
fn let_go_of_new(blocks: &mut Blocks, addrs: &[Addr], lives: &Lives)
    ensures cells { (u : ℕ) → cell_at blocks.new.cells u ≡ without_news lives.now u (cell_at blocks.old.cells u) addrs.now }
    ensures end { end_of blocks.new.space ≡ end_of blocks.old.space }
    ensures units { AreUnits blocks.old.cells blocks.old.space → AreUnits blocks.new.cells blocks.new.space }
    ensures synced { blocks.new.is_synced ≡ blocks.old.is_synced }
    ensures held { blocks.new.is_held ≡ blocks.old.is_held }
{
    for addr in addrs {
        let_go_if_new(blocks, *addr, lives);
    }
}

// The live tree lets go of a block, unless it is that of such a leaf.
fn let_go_if_new(blocks: &mut Blocks, addr: Addr, lives: &Lives)
    ensures cells { (u : ℕ) → cell_at blocks.new.cells u ≡ without_new lives.now u (cell_at blocks.old.cells u) addr }
    ensures end { end_of blocks.new.space ≡ end_of blocks.old.space }
    ensures units { AreUnits blocks.old.cells blocks.old.space → AreUnits blocks.new.cells blocks.new.space }
    ensures synced { blocks.new.is_synced ≡ blocks.old.is_synced }
    ensures held { blocks.new.is_held ≡ blocks.old.is_held }
{
    if !lives.has_at(addr.offset) {
        let_go_of(blocks, addr);
    }
}

// The live tree lets go of a block, where it has one of this place and size and the last checkpoint
// has not.
pub(crate) fn let_go_of(blocks: &mut Blocks, addr: Addr)
    ensures cells { (u : ℕ) → cell_at blocks.new.cells u ≡ without u (cell_at blocks.old.cells u) addr }
    ensures end { end_of blocks.new.space ≡ end_of blocks.old.space }
    ensures units { AreUnits blocks.old.cells blocks.old.space → AreUnits blocks.new.cells blocks.new.space }
    ensures synced { blocks.new.is_synced ≡ blocks.old.is_synced }
    ensures held { blocks.new.is_held ≡ blocks.old.is_held }
{
    if blocks.is_live(addr) && !blocks.is_last(addr) {
        blocks.free(addr);
    }
}
