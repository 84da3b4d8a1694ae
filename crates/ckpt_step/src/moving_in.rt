// Leaves that take the place of one that is written out, while nobody is at work or beside others.
ghost use Rattle.std.specs.Prelude.{◌≡◌, ℕ, List, OnErr, OnOk};
ghost use Rattle.tree_dir.specs.Leaves.{IsDirectory, TakePlace, leaf_named};
ghost use Rattle.engine.specs.Frames.{HasGivenWay};
ghost use Rattle.engine.specs.Partings.{MayPart};
ghost use Rattle.ckpt_step.specs.CutOuts.{HasMoved, HasNotMoved, IsSameBut, LetGo, MayGiveWay, StandsParted, StandsThen};
ghost use Rattle.ckpt_step.specs.Holding.{AreNewAt, addrs_if, gone_if, held_all, named_all, own_of};
ghost use Rattle.ckpt_step.specs.declared.lives.Lone.{Lone as ALone};

use crate::books::{let_go_leaves, let_go_of};
use crate::ground::Ground;
use crate::leaves::copy_of;
use crate::lives::Lives;
use device_layout::Addr;
use engine::Local;
use failure::NoMemory;
use inner_page::Entry;
use std::alloc::Global;
use tree_dir::Dir;

// When a leaf gives way to others.
#[derive(Clone, Copy)]
pub(crate) enum When {
    // While nobody is at work.
    Idle,
    // Whoever is at work.
    AtWork,
}

// The leaf gives way to the leaves of these entries, which lead to new blocks. Without memory these are
// free again, and nothing changed.
pub(crate) fn move_in(
    alloc: Global,
    ground: &mut Ground,
    engine: &mut Local,
    leaf: u64,
    table: u32,
    entries: Vec<Entry>,
    when: When,
) -> Result<(), NoMemory>
    requires may { MayGiveWay when engine.old leaf }
    requires place { TakePlace leaf entries.items engine.old.hub.dir.leaves }
    ensures moved { OnOk result (HasMoved engine.old engine.new ground.old ground.new leaf table entries.items when) }
    ensures kept { OnErr result (HasNotMoved engine.old engine.new ground.old ground.new leaf table entries.items) }
{
    let Ok(kept) = copy_of(alloc, &entries) else {
        let_go_leaves(&mut ground.place.blocks, &entries);
        return Err(NoMemory);
    };
    let own = own_block(&ground.lives, engine.leaves(), leaf);
    match take_place(&mut ground.lives, engine, leaf, table, entries, &kept, when) {
        Ok(()) => {
            ground.parts.forget(leaf);
            free_own(ground, own);
            Ok(())
        }
        Err(error) => {
            let_go_leaves(&mut ground.place.blocks, &kept);
            Err(error)
        }
    }
}

// Where the block of the leaf of this id stands, if it was written since the last checkpoint.
pub(crate) fn own_block(lives: &Lives, leaves: &Dir, leaf: u64) -> Option<Addr>
    ensures { result ≡ own_of lives.now (leaf_named leaf leaves.now.leaves) }
{
    let found = leaves.leaf(leaf)?;
    if lives.is_live(found) {
        Some(found.entry.link.addr)
    } else {
        None
    }
}

// The block at this address, if there is one, is free again.
pub(crate) fn free_own(ground: &mut Ground, own: Option<Addr>)
    ensures lives { ground.new.lives ≡ gone_if ground.old.lives own }
    ensures blocks { LetGo ground.old.place.blocks ground.new.place.blocks (addrs_if own) }
    ensures parts { ground.new.parts ≡ ground.old.parts }
    ensures same { IsSameBut ground.old ground.new }
{
    if let Some(addr) = own {
        ground.lives.drop_at(addr.offset);
        let_go_of(&mut ground.place.blocks, addr);
    }
}

// The leaf gives way, and the blocks of these entries, of which the others are a copy, are those of the
// leaves in its place. Without memory nothing changed.
fn take_place(
    lives: &mut Lives,
    engine: &mut Local,
    leaf: u64,
    table: u32,
    entries: Vec<Entry>,
    kept: &[Entry],
    when: When,
) -> Result<(), NoMemory>
    requires may { MayGiveWay when engine.old leaf }
    requires place { TakePlace leaf entries.items engine.old.hub.dir.leaves }
    ensures given { OnOk result (HasGivenWay engine.old engine.new leaf entries.items) }
    ensures stands { OnOk result (StandsThen engine.old engine.new leaf entries.items when) }
    ensures now { OnOk result (IsDirectory engine.new.hub.dir) }
    ensures lives { OnOk result (lives.new ≡ named_all engine.new.hub.dir table (held_all leaf lives.old kept.now) kept.now) }
    ensures engine { OnErr result (engine.new ≡ engine.old) }
    ensures kept { OnErr result (AreNewAt lives.old kept.now → lives.new ≡ lives.old) }
{
    hold_all(lives, leaf, kept)?;
    match give_way(engine, leaf, entries, when) {
        Ok(()) => {
            name_all(lives, engine.leaves(), table, kept);
            Ok(())
        }
        Err(error) => {
            drop_all(lives, kept);
            Err(error)
        }
    }
}

// The leaf gives way to the leaves of these entries. Without memory nothing changed.
fn give_way(engine: &mut Local, leaf: u64, entries: Vec<Entry>, when: When) -> Result<(), NoMemory>
    requires may { MayGiveWay when engine.old leaf }
    requires place { TakePlace leaf entries.items engine.old.hub.dir.leaves }
    ensures given { OnOk result (HasGivenWay engine.old engine.new leaf entries.items) }
    ensures stands { OnOk result (StandsThen engine.old engine.new leaf entries.items when) }
    ensures kept { OnErr result (engine.new ≡ engine.old) }
{
    match when {
        When::Idle => engine.give_way(leaf, entries),
        When::AtWork => part(engine, leaf, entries),
    }
}

// The leaf, which may part, parts into the leaves of these entries. Without memory nothing changed.
fn part(engine: &mut Local, leaf: u64, entries: Vec<Entry>) -> Result<(), NoMemory>
    requires may { MayPart engine.old leaf }
    requires place { TakePlace leaf entries.items engine.old.hub.dir.leaves }
    ensures given { OnOk result (HasGivenWay engine.old engine.new leaf entries.items) }
    ensures stands { OnOk result (StandsParted engine.old engine.new leaf entries.items) }
    ensures kept { OnErr result (engine.new ≡ engine.old) }
{
    match engine.part(leaf, entries) {
        Ok(true) => Ok(()),
        // It may part, so only memory is wanting.
        Ok(false) | Err(_) => Err(NoMemory),
    }
}

// The block of each of these entries is held for the leaf. Without memory none is.
fn hold_all(lives: &mut Lives, leaf: u64, entries: &[Entry]) -> Result<(), NoMemory>
    ensures held { OnOk result (lives.new ≡ held_all leaf lives.old entries.now) }
    ensures kept { OnErr result (AreNewAt lives.old entries.now → lives.new ≡ lives.old) }
{
    for i in 0..entries.len() {
        let entry = &entries[i];
        match lives.hold(leaf, entry.link.addr) {
            Ok(()) => {}
            Err(error) => {
                drop_all(lives, &entries[..i]);
                return Err(error);
            }
        }
    }
    Ok(())
}

// The blocks of these entries, which are those that were held last, are not held any more.
fn drop_all(lives: &mut Lives, entries: &[Entry])
    ensures { (leaf : ℕ) (before : List ALone) → AreNewAt before entries.now → lives.old ≡ held_all leaf before entries.now → lives.new ≡ before }
{
    let mut left = entries.len();
    while left > 0 {
        left -= 1;
        let entry = &entries[left];
        lives.drop_at(entry.link.addr.offset);
    }
}

// The block of each of these entries is that of the leaf of the table in which its key lies.
fn name_all(lives: &mut Lives, leaves: &Dir, table: u32, entries: &[Entry])
    ensures { lives.new ≡ named_all leaves.now table lives.old entries.now }
{
    for i in 0..entries.len() {
        let entry = &entries[i];
        if let Some(leaf) = leaves.leaf_for(table, entry.key.as_bytes()) {
            lives.name_at(entry.link.addr.offset, leaf);
        }
    }
}
