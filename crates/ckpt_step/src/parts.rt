// What a checkpoint has of the leaves of tables.
ghost use Rattle.std.specs.Prelude.{◌≡◌, ◌≢◌, ◌==◌, ℕ, [], None, Some, true, if◌then◌else◌, option_map, OnErr, OnOk};
ghost use Rattle.ckpt_step.specs.Rooms.{has_room, known_in};

use failure::NoMemory;
use inner_page::Entry;
use std::alloc::Global;
use std::collections::BTreeMap;
use std::marker::Model;

/// Of leaves that checkpoints of an engine wrote, by ids: the entries of their images in the last
/// completed one, none for a leaf without rows. Seen as rooms by the leaf's id, each with the entries,
/// if there are any yet.
#[derive(Drop)]
pub struct Parts {
    by_leaf: BTreeMap<u64, Option<Vec<Entry>>>,
}

/// What a running checkpoint wrote of a leaf.
#[derive(Drop)]
pub(crate) struct LeafPart {
    // The leaf's id.
    pub(crate) leaf: u64,
    // The entries of its images, in the order of their keys.
    pub(crate) entries: Vec<Entry>,
}

impl Model for Parts {
    ghost use Rattle.std.specs.Prelude.{ℕ, List, Option};
    ghost use Rattle.stored.specs.TableTree.{Entry as StoredEntry};

    ghost Value = { List (ℕ × Option (List StoredEntry)) };

    ghost use Rattle.ckpt_step.specs.Rooms.{rooms_in};

    ghost view = { λ p. rooms_in p.by_leaf.entries };
}

impl Parts {
    /// Of no leaf. Takes no memory.
    pub fn new(alloc: Global) -> Parts
        ensures { result ≡ [] }
    {
        Parts {
            by_leaf: BTreeMap::new(alloc),
        }
    }

    /// The entries of a leaf. `O(log n)`.
    pub fn of(&self, leaf: u64) -> Option<&[Entry]>
        ensures { option_map (λ es. es.now) result ≡ known_in self.now leaf }
    {
        match self.by_leaf.get(&leaf)? {
            Some(entries) => Some(entries),
            None => None,
        }
    }

    /// These are the entries of a leaf from now on. Without memory they are as they were. `O(log n)`.
    pub fn keep(&mut self, leaf: u64, entries: Vec<Entry>) -> Result<(), NoMemory>
        ensures known { OnOk result ((id : ℕ) → known_in self.new id ≡ (if id == leaf then Some entries.items else known_in self.old id)) }
        ensures kept { OnErr result ((id : ℕ) → known_in self.new id ≡ known_in self.old id) }
    {
        self.reserve(leaf)?;
        self.put(LeafPart { leaf, entries });
        Ok(())
    }

    /// Nothing is kept of a leaf any more. `O(log n)`.
    pub fn forget(&mut self, leaf: u64)
        ensures gone { known_in self.new leaf ≡ None }
        ensures others { (id : ℕ) → id ≢ leaf → known_in self.new id ≡ known_in self.old id }
    {
        let _ = self.by_leaf.remove(&leaf);
    }

    // Room for the entries of a leaf. The error is want of memory. `O(log n)`.
    pub(crate) fn reserve(&mut self, leaf: u64) -> Result<(), NoMemory>
        ensures room { OnOk result (has_room self.new leaf ≡ true) }
        ensures kept { (id : ℕ) → has_room self.old id ≡ true → has_room self.new id ≡ true }
        ensures known { (id : ℕ) → known_in self.new id ≡ known_in self.old id }
    {
        if self.by_leaf.contains_key(&leaf) {
            return Ok(());
        }
        match self.by_leaf.insert(leaf, None) {
            Ok(_) => Ok(()),
            Err(_) => Err(NoMemory),
        }
    }

    // These are the entries of a leaf from now on. `O(log n)`.
    pub(crate) fn put(&mut self, part: LeafPart)
        requires room { has_room self.old part.leaf ≡ true }
        ensures known { (id : ℕ) → known_in self.new id ≡ (if id == part.leaf then Some part.entries.items else known_in self.old id) }
        ensures rooms { (id : ℕ) → has_room self.new id ≡ has_room self.old id }
    {
        // There is room, so no memory is taken.
        let _ = self.by_leaf.insert(part.leaf, Some(part.entries));
    }
}
