// Versions of leaves that are in no frame.
ghost use Rattle.std.specs.Prelude.{◌≡◌, ◌++◌, ◌+◌, ◌≤◌, ◌∷◌, ℕ, [], length, vec_capacity, IfOk, OnErr, OnOk};
ghost use Rattle.evict_step.specs.Backs.{AllFit};
ghost use Rattle.evict_step.specs.Kept.{KeepsAt, KeepsMore, alone_in, fresh_of, list_of, lists_in, lying_in};

use crate::fresh::{Fresh, drop_of, put_behind, put_moved, put_over};
use failure::NoMemory;
use reconcile::Moved;
use stamp::Version;
use std::alloc::Global;
use std::collections::BTreeMap;
use std::marker::Model;
use std::mem::replace;
use tree_dir::Dir;

/// Of leaves that are in no frame, by their ids: the older versions that moved when they were evicted,
/// by key in ascending order, and of a key newest first. They are in memory, outside of the frames, and
/// each fits a row of its key. Seen as these lists, each with the id of its leaf.
#[derive(Drop)]
pub struct Kept {
    by_leaf: BTreeMap<u64, Vec<Moved>>,
    // Those that have no place in the lists yet, behind what stands there of their leaves.
    fresh: Vec<Fresh>,
}

impl Model for Kept {
    ghost use Rattle.std.specs.Prelude.{ℕ, List};
    ghost use Rattle.reconcile.specs.declared.image.Moved.{Moved as AMoved};

    ghost Value = { List (ℕ × List AMoved) };

    ghost use Rattle.evict_step.specs.Kept.{AllListsFit, lists_in, with_fresh};

    ghost view = { λ k. with_fresh k.fresh.items (lists_in k.by_leaf.entries) };

    ghost invariant = { λ k. AllListsFit (with_fresh k.fresh.items (lists_in k.by_leaf.entries)) };
}

impl Kept {
    /// Of no leaf. Takes no memory.
    pub fn new(alloc: Global) -> Kept
        ensures { result ≡ [] }
    {
        Kept {
            by_leaf: BTreeMap::new(alloc),
            fresh: Vec::new(alloc),
        }
    }

    /// This is kept of a leaf from now on, and nothing else. Without memory all is as it was. `O(log n)`
    /// in the leaves of which something is kept, and once more `O(bytes)` of what came of leaves that
    /// parted while memory was short.
    pub fn keep(&mut self, alloc: Global, leaf: u64, moved: Vec<Moved>) -> Result<(), NoMemory>
        requires fit { AllFit moved.items }
        ensures kept { OnOk result (KeepsAt self.old self.new leaf moved.items) }
        ensures same { OnErr result (self.new ≡ self.old) }
    {
        if moved.is_empty() {
            self.forget(leaf);
            return Ok(());
        }
        match self.put(leaf, moved) {
            Ok(()) => {
                self.settle(alloc);
                Ok(())
            }
            Err(error) => Err(error),
        }
    }

    /// Nothing is kept of a leaf any more. `O(log n)`, and `O(versions)` that go.
    pub fn forget(&mut self, leaf: u64)
        ensures { KeepsAt self.old self.new leaf [] }
    {
        let _ = self.by_leaf.remove(&leaf);
        drop_of(&mut self.fresh, leaf);
    }

    /// One more version is kept of a leaf, behind the others. Without memory all is as it was. `O(log n)`
    /// in the leaves of which something is kept.
    pub fn push(&mut self, alloc: Global, leaf: u64, one: Moved) -> Result<(), NoMemory>
        requires fit { AllFit (one ∷ []) }
        ensures kept { OnOk result (KeepsMore self.old self.new (alone_in leaf one)) }
        ensures same { OnErr result (self.new ≡ self.old) }
    {
        if self.fresh.is_empty() {
            push_in(alloc, &mut self.by_leaf, leaf, one)
        } else {
            put_behind(&mut self.fresh, leaf, one)
        }
    }

    /// A second list of what is kept of a leaf, none where nothing is. `O(log n)`, and `O(bytes)` of it,
    /// which are copied.
    pub fn copy_of(&self, alloc: Global, leaf: u64) -> Result<Vec<Moved>, NoMemory>
        ensures is { IfOk result (λ moved. moved.items ≡ list_of self.now leaf) }
        ensures fit { IfOk result (λ moved. AllFit moved.items) }
    {
        let mut copies = copy_listed(alloc, &self.by_leaf, leaf)?;
        copy_fresh(&mut copies, &self.fresh, leaf)?;
        Ok(copies)
    }

    /// Room for all that has no place in the lists yet, and for so many versions more. The error is want
    /// of memory. `O(1)`, and the room is `O(n + more)` with n lists and versions without a place.
    pub fn room_for(&self, alloc: Global, more: usize) -> Result<Vec<Fresh>, NoMemory>
        ensures none { IfOk result (λ room. room.items ≡ []) }
        ensures room { IfOk result (λ room. length self.now + more ≤ vec_capacity room) }
    {
        let Some(lists) = self.by_leaf.len().checked_add(self.fresh.len()) else {
            return Err(NoMemory);
        };
        let Some(all) = lists.checked_add(more) else {
            return Err(NoMemory);
        };
        let room = Vec::with_capacity(alloc, all)?;
        Ok(room)
    }

    /// These are kept too from now on, each of the leaf of the table in which its key lies, in room that
    /// was made for them, so that it needs no memory. `O(log n)` comparisons for each with n leaves, and
    /// `O(bytes)` of what has no place in the lists yet.
    pub fn take_in(
        &mut self,
        alloc: Global,
        room: Vec<Fresh>,
        moved: Vec<Moved>,
        leaves: &Dir,
        table: u32,
    )
        requires fit { AllFit moved.items }
        requires none { room.items ≡ [] }
        requires room { length self.old + length moved.items ≤ vec_capacity room }
        ensures { KeepsMore self.old self.new (lying_in leaves.now.leaves table moved.items) }
    {
        self.put_fresh(alloc, room, moved, leaves, table);
        self.settle(alloc);
    }

    fn put_fresh(
        &mut self,
        alloc: Global,
        mut room: Vec<Fresh>,
        moved: Vec<Moved>,
        leaves: &Dir,
        table: u32,
    )
        requires fit { AllFit moved.items }
        requires none { room.items ≡ [] }
        requires room { length self.old + length moved.items ≤ vec_capacity room }
        ensures { KeepsMore self.old self.new (lying_in leaves.now.leaves table moved.items) }
    {
        let before = replace(&mut self.fresh, Vec::new(alloc));
        put_over(&mut room, before);
        put_moved(&mut room, moved, leaves, table);
        self.fresh = room;
    }

    // This is kept of a leaf from now on, and nothing else. The error is want of memory.
    fn put(&mut self, leaf: u64, moved: Vec<Moved>) -> Result<(), NoMemory>
        requires fit { AllFit moved.items }
        ensures kept { OnOk result (KeepsAt self.old self.new leaf moved.items) }
        ensures same { OnErr result (self.new ≡ self.old) }
    {
        match self.by_leaf.insert(leaf, moved) {
            Ok(_) => {
                drop_of(&mut self.fresh, leaf);
                Ok(())
            }
            Err(_) => Err(NoMemory),
        }
    }

    // What has no place in the lists yet gets one, as far as there is memory for it.
    fn settle(&mut self, alloc: Global)
        ensures { (leaf : ℕ) → list_of self.new leaf ≡ list_of self.old leaf }
    {
        self.settle_some(alloc);
        self.free_room(alloc);
    }

    // Room that nothing needs is given back.
    fn free_room(&mut self, alloc: Global)
        ensures { self.new ≡ self.old }
    {
        if !self.fresh.is_empty() {
            return;
        }
        self.fresh = Vec::new(alloc);
    }

    fn settle_some(&mut self, alloc: Global)
        ensures { (leaf : ℕ) → list_of self.new leaf ≡ list_of self.old leaf }
    {
        for _ in 0..self.unsettled() {
            let Some(leaf) = self.first_unsettled() else {
                return;
            };
            let Ok(()) = self.settle_leaf(alloc, leaf) else {
                return;
            };
        }
    }

    // How many versions have no place in the lists yet.
    fn unsettled(&self) -> usize {
        self.fresh.len()
    }

    // A leaf with one of these.
    fn first_unsettled(&self) -> Option<u64> {
        match self.fresh.first() {
            Some(first) => Some(first.leaf),
            None => None,
        }
    }

    // All that is kept of a leaf gets one list. The error is want of memory.
    fn settle_leaf(&mut self, alloc: Global, leaf: u64) -> Result<(), NoMemory>
        ensures { (id : ℕ) → list_of self.new id ≡ list_of self.old id }
    {
        let moved = self.copy_of(alloc, leaf)?;
        self.put(leaf, moved)
    }
}

// One more version is in the list of a leaf. Without memory all lists are as they were.
fn push_in(
    alloc: Global,
    by_leaf: &mut BTreeMap<u64, Vec<Moved>>,
    leaf: u64,
    one: Moved,
) -> Result<(), NoMemory>
    ensures kept { OnOk result (KeepsMore (lists_in by_leaf.old.entries) (lists_in by_leaf.new.entries) (alone_in leaf one)) }
    ensures same { OnErr result (lists_in by_leaf.new.entries ≡ lists_in by_leaf.old.entries) }
{
    match by_leaf.get_mut(&leaf) {
        Some(moved) => push_behind(moved, one),
        None => put_alone(alloc, by_leaf, leaf, one),
    }
}

// A leaf of which the map has nothing has a list of this version.
fn put_alone(
    alloc: Global,
    by_leaf: &mut BTreeMap<u64, Vec<Moved>>,
    leaf: u64,
    one: Moved,
) -> Result<(), NoMemory>
    ensures put { OnOk result (KeepsAt (lists_in by_leaf.old.entries) (lists_in by_leaf.new.entries) leaf (one ∷ [])) }
    ensures same { OnErr result (by_leaf.new.entries ≡ by_leaf.old.entries) }
{
    let mut moved = Vec::new(alloc);
    push_behind(&mut moved, one)?;
    match by_leaf.insert(leaf, moved) {
        Ok(_) => Ok(()),
        Err(_) => Err(NoMemory),
    }
}

fn push_behind(moved: &mut Vec<Moved>, one: Moved) -> Result<(), NoMemory>
    ensures pushed { OnOk result (moved.new.items ≡ moved.old.items ++ one ∷ []) }
    ensures same { OnErr result (moved.new.items ≡ moved.old.items) }
{
    match moved.push(one) {
        Ok(()) => Ok(()),
        Err(_) => Err(NoMemory),
    }
}

// A second list of what the map has of a leaf. The error is want of memory.
fn copy_listed(
    alloc: Global,
    by_leaf: &BTreeMap<u64, Vec<Moved>>,
    leaf: u64,
) -> Result<Vec<Moved>, NoMemory>
    ensures { IfOk result (λ copies. copies.items ≡ list_of (lists_in by_leaf.now.entries) leaf) }
{
    match by_leaf.get(&leaf) {
        Some(moved) => {
            let copies = copy_all(alloc, moved)?;
            Ok(copies)
        }
        None => Ok(Vec::new(alloc)),
    }
}

// Copies of those of a leaf go behind others. The error is want of memory.
fn copy_fresh(copies: &mut Vec<Moved>, fresh: &[Fresh], leaf: u64) -> Result<(), NoMemory>
    ensures { OnOk result (copies.new.items ≡ copies.old.items ++ fresh_of fresh.now leaf) }
{
    for f in fresh {
        if f.leaf == leaf {
            push_copy(copies, &f.one)?;
        }
    }
    Ok(())
}

// A second list of these versions. The error is want of memory.
fn copy_all(alloc: Global, moved: &[Moved]) -> Result<Vec<Moved>, NoMemory>
    ensures { IfOk result (λ v. v.items ≡ moved.now) }
{
    let mut copies = Vec::with_capacity(alloc, moved.len())?;
    for one in moved {
        push_copy(&mut copies, one)?;
    }
    Ok(copies)
}

fn push_copy(copies: &mut Vec<Moved>, one: &Moved) -> Result<(), NoMemory>
    ensures { OnOk result (copies.new.items ≡ copies.old.items ++ one.now ∷ []) }
{
    let copy = Moved {
        key: one.key.copy()?,
        version: Version {
            window: one.version.window,
            change: one.version.change.copy()?,
        },
    };
    match copies.push(copy) {
        Ok(()) => Ok(()),
        Err(_) => Err(NoMemory),
    }
}
