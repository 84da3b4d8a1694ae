//! The directory.

ghost use Rattle.std.specs.Prelude.{◌≡◌, ◌≢◌, ℕ, List, option_copied, option_map, OnOk, OnErr};
ghost use Rattle.std.specs.Option.{option_and_then};
ghost use Rattle.std.specs.List.{All};
ghost use Rattle.tree_dir.specs.Leaves.{changed, in_frame, leaf_ahead, leaf_behind, leaf_last, leaf_named, leaf_under, leaves_of, led_to, no_leaves, AreTable, GaveWay, HasTable, IsDirectory, TakePlace};

use crate::adding::add_leaves;
use crate::leaf::{Framed, Leaf};
use crate::neighbours::{id_ahead, id_behind, id_last, id_under};
use crate::places::place_of;
use crate::replacing::replace_in;
use crate::slots::{leaf_by_id, set_frame_in, set_link_in, slot_of};
use crate::walk::TableLeaves;
use device_layout::Link;
use failure::NoMemory;
use inner_page::Entry;
use ordered_groups::OrderedGroups;
use std::alloc::Global;
use std::marker::Model;

// The last number that ids are made of.
const SERIAL_MAX: u64 = (1 << 36) - 1;

/// The leaves of all tables. They are seen as the list of the leaves, in the order of their tables,
/// and of each table in that of their low keys.
#[derive(Drop)]
pub struct Dir {
    // A leaf keeps its slot.
    slots: Vec<Leaf>,
    // The slots in the order of the leaves.
    order: OrderedGroups<u32>,
    // Counted up whenever ids are given.
    serial: u64,
}

impl Model for Dir {
    ghost use Rattle.tree_dir.specs.Leaves.{Directory};

    ghost Value = { Directory };

    ghost use Rattle.std.specs.Prelude.{◌*◌, ◌^◌};
    ghost use Rattle.ordered_groups.specs.Groups.{entries};
    ghost use Rattle.tree_dir.specs.Slots.{leaves_at};
    ghost use Rattle.tree_dir.specs.Sound.{IsSound};

    ghost view = { λ a. record { next = a.serial * 2 ^ 28; leaves = leaves_at a.slots.items (entries a.order) } };

    ghost invariant = { λ a. IsSound a.serial a.slots.items (entries a.order) };
}

impl Dir {
    /// Without tables. Takes no memory.
    pub fn new(alloc: Global) -> Dir
        ensures { result ≡ no_leaves }
    {
        Dir {
            slots: Vec::new(alloc),
            order: OrderedGroups::new(alloc),
            serial: 0,
        }
    }

    /// Its ids are below the next one and no two are the same, its leaves ascend, each table has a
    /// leaf from the empty key on, and there are at most 2^28. For proofs: does nothing.
    pub fn stands(&self)
        ensures { IsDirectory self.now }
    {
        let _ = &self.serial;
    }

    /// The leaf of this id, none where it has given way or never was. `O(1)`.
    pub fn leaf(&self, leaf: u64) -> Option<&Leaf>
        ensures { option_copied result ≡ leaf_named leaf self.now.leaves }
    {
        leaf_by_id(&self.slots, leaf)
    }

    /// The low key of a leaf and the link to its block, none where there is no such leaf. `O(1)`.
    pub fn entry(&self, leaf: u64) -> Option<&Entry>
        ensures { option_copied result ≡ option_map (λ l. l.entry) (leaf_named leaf self.now.leaves) }
    {
        let there = self.leaf(leaf)?;
        Some(&there.entry)
    }

    /// The frame that a leaf is in, none where it is in no frame or there is no such leaf. `O(1)`.
    pub fn frame(&self, leaf: u64) -> Option<Framed>
        ensures { result ≡ option_and_then (λ l. l.frame) (leaf_named leaf self.now.leaves) }
    {
        let there = self.leaf(leaf)?;
        there.frame
    }

    /// The leaf that has a key of a table, none where there is no such table. `O(log n)` comparisons
    /// with n leaves.
    pub fn leaf_for(&self, table: u32, key: &[u8]) -> Option<u64>
        ensures { result ≡ option_map (λ l. l.id) (leaf_under table key.now self.now.leaves) }
    {
        id_under(&self.slots, &self.order, table, key)
    }

    /// The last leaf of a table, none where there is no such table. `O(log n)` comparisons with n
    /// leaves.
    pub fn last_leaf(&self, table: u32) -> Option<u64>
        ensures { result ≡ option_map (λ l. l.id) (leaf_last table self.now.leaves) }
    {
        id_last(&self.slots, &self.order, table)
    }

    /// The next leaf of a leaf's table, none where it is the last or there is no such leaf. `O(log n)`
    /// comparisons with n leaves.
    pub fn next_leaf(&self, leaf: u64) -> Option<u64>
        ensures { result ≡ option_map (λ l. l.id) (leaf_behind leaf self.now.leaves) }
    {
        let slot = slot_of(&self.slots, leaf)?;
        id_behind(&self.slots, &self.order, slot)
    }

    /// The leaf before a leaf in its table, none where it is the first or there is no such leaf.
    /// `O(log n)` comparisons with n leaves.
    pub fn prev_leaf(&self, leaf: u64) -> Option<u64>
        ensures { result ≡ option_map (λ l. l.id) (leaf_ahead leaf self.now.leaves) }
    {
        let slot = slot_of(&self.slots, leaf)?;
        id_ahead(&self.slots, &self.order, slot)
    }

    /// The leaves of a table, in the order of their low keys: none where there is no such table.
    /// `O(log n)` comparisons with n leaves, and `O(1)` for each that is come to.
    pub fn leaves_of(&self, table: u32) -> TableLeaves<'_>
        ensures { result ≡ leaves_of table self.now.leaves }
    {
        let place = match place_of(&self.slots, &self.order, table, b"") {
            Ok(place) => place,
            // Each table has a leaf from the empty key on.
            Err(_) => self.order.end(),
        };
        TableLeaves::over(&self.slots, self.order.walk(place), table)
    }

    /// Says which frame a leaf is in. Nothing where there is no such leaf. `O(1)`.
    pub fn set_frame(&mut self, leaf: u64, frame: Option<Framed>)
        ensures { self.new ≡ record self.old { leaves = changed leaf (in_frame frame) self.old.leaves } }
    {
        set_frame_in(&mut self.slots, leaf, frame);
    }

    /// Says where the block of a leaf stands, once it is written anew with the same keys. The leaf
    /// keeps its id, its low key and its frame. Nothing where there is no such leaf. `O(1)`.
    pub fn set_link(&mut self, leaf: u64, link: Link)
        ensures { self.new ≡ record self.old { leaves = changed leaf (led_to link) self.old.leaves } }
    {
        set_link_in(&mut self.slots, leaf, link);
    }

    /// A table that is not there, with these leaves, in no frame, with new ids. Where memory is
    /// short, there are 2^28 leaves, or ids run out, which is after 2^36 calls of `add_table` and
    /// `replace`, nothing is changed. `O(log n)` comparisons a leaf with n leaves.
    pub fn add_table(&mut self, table: u32, leaves: Vec<Entry>) -> Result<(), NoMemory>
        requires new { All (λ l. l.table ≢ table) self.old.leaves }
        requires leaves { AreTable leaves.items }
        ensures added { OnOk result ((ids : List ℕ) × HasTable self.old self.new table leaves.items ids) }
        ensures kept { OnErr result (self.new ≡ self.old) }
    {
        if self.serial >= SERIAL_MAX {
            return Err(NoMemory);
        }
        add_leaves(&mut self.slots, &mut self.order, table, self.serial, leaves)?;
        self.serial += 1;
        Ok(())
    }

    /// Others take the place of a leaf, the first from its low key on, in no frame. Each has a new
    /// id, and that of the leaf is used no more. Where memory is short, there are 2^28 leaves, or ids
    /// run out, which is after 2^36 calls of `add_table` and `replace`, nothing is changed. `O(log n)`
    /// comparisons for each with n leaves.
    pub fn replace(&mut self, leaf: u64, leaves: Vec<Entry>) -> Result<(), NoMemory>
        requires { TakePlace leaf leaves.items self.old.leaves }
        ensures replaced { OnOk result ((ids : List ℕ) × GaveWay self.old self.new leaf leaves.items ids) }
        ensures kept { OnErr result (self.new ≡ self.old) }
    {
        if self.serial >= SERIAL_MAX {
            return Err(NoMemory);
        }
        let Some(slot) = slot_of(&self.slots, leaf) else {
            return Err(NoMemory);
        };
        replace_in(&mut self.slots, &mut self.order, slot, self.serial, leaves)?;
        self.serial += 1;
        Ok(())
    }
}
