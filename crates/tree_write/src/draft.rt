// The leaves of a tree, part by part.
ghost use Rattle.std.specs.Prelude.{◌≡◌, ◌≤◌, ◌++◌, [], List, Option, length, true, IfErr, IfOk, IfSome, OnErr, OnOk, IsTrue};
ghost use Rattle.std.specs.List.{AllByRecursion};
ghost use Rattle.failure.specs.Counts.{Rose};
ghost use Rattle.wt_code.specs.StoreErrors.{IsOfDisk};
ghost use Rattle.wt_code.specs.declared.store_error.StoreError.TheVariants.{NoMemory as WantOfMemory};
ghost use Rattle.disk_model.specs.Crash.{SameDisk};
ghost use Rattle.device_layout.specs.declared.addr.Addr.{Addr as AnAddr};
ghost use Rattle.device_layout.specs.declared.link.Link.{Link as ALink};
ghost use Rattle.extent_list.specs.Space.{end_of};
ghost use Rattle.block_mgr.specs.Blocks.{Books};
ghost use Rattle.row_page.specs.Rows.{Row, key_most};
ghost use Rattle.leaf_rows.specs.Rows.{AreFit};
ghost use Rattle.reconcile.specs.Images.{AreImages};
ghost use Rattle.stored.specs.Stored.{Stored};
ghost use Rattle.stored.specs.Tree.{join};
ghost use Rattle.stored.specs.TableTree.{Climbs, EntryFits, first_key};
ghost use Rattle.tree_write.specs.Drafts.{AreBelow, AreFrom, AreLiveLeaves, Drafted, DraftWrites, LeavesOf, PartsWrite, StandBelow, addrs_to, aligned, leaf_links};
ghost use Rattle.tree_write.specs.Keeps.{AreLive, KeepsAll};
ghost use Rattle.tree_write.specs.Steps.{keys_of, part_keys};
ghost use Rattle.tree_write.specs.Writes.{IsNoPlace};

use crate::entries::{nowhere, rooted};
use crate::keep::capture_leaves;
use crate::leaves::write_leaves;
use crate::levels::rise;
use block_mgr::Blocks;
use checkpoint_record::Root;
use device_layout::{Addr, Link};
use disk_model::Disk;
use failure::NoMemory;
use inner_page::Entry;
use item::Item;
use reconcile::Image;
use std::alloc::Global;
use std::marker::Model;
use tree_open::TreePlace;
use wt_code::StoreError;

/// The leaves of a table's tree, part by part, as the running checkpoint captures them. Seen as the
/// list of the entries so far.
#[derive(Drop)]
pub struct TreeDraft {
    entries: Vec<Entry>,
}

impl Model for TreeDraft {
    ghost use Rattle.std.specs.Prelude.{List};
    ghost use Rattle.stored.specs.TableTree.{Entry as StoredEntry};

    ghost Value = { List StoredEntry };

    ghost use Rattle.std.specs.List.{AllByRecursion};
    ghost use Rattle.stored.specs.TableTree.{Climbs, EntryFits};

    ghost view = { λ d. d.entries.items };

    ghost invariant = { λ d. Climbs d.entries.items × AllByRecursion EntryFits d.entries.items };
}

impl TreeDraft {
    /// Without leaves. Takes no memory.
    pub fn new(alloc: Global) -> TreeDraft
        ensures { result ≡ [] }
    {
        TreeDraft {
            entries: Vec::new(alloc),
        }
    }

    /// How many leaves it has.
    pub fn len(&self) -> usize
        ensures { result ≡ length self.now }
    {
        self.entries.len()
    }

    /// The entries of its leaves, in the order of their keys. `O(1)`.
    pub fn entries(&self) -> &[Entry]
        ensures is { result.now ≡ self.now }
        ensures fit { AllByRecursion EntryFits result.now }
        ensures climbs { Climbs result.now }
    {
        &self.entries
    }

    /// Captures a part behind the others as it stands in the checkpoint before, with these entries of
    /// its leaves: no block is read or written. `captured` gets the address of each block behind the
    /// others. The error is want of memory, and nothing changes then. `O(1)` a leaf.
    pub fn keep(
        &mut self,
        blocks: &mut Blocks,
        part: Vec<Entry>,
        captured: &mut Vec<Addr>,
    ) -> Result<(), StoreError>
        requires fit { AllByRecursion EntryFits part.items }
        requires climbs { Climbs part.items }
        requires above { IfSome (first_key part.items) (λ key. AreBelow key self.old) }
        requires live { AreLive blocks.old.cells (addrs_to part.items) }
        requires held { blocks.old.is_held ≡ true }
        ensures keeps { OnOk result (KeepsAll blocks.old blocks.new (addrs_to part.items)) }
        ensures listed { OnOk result (captured.new.items ≡ captured.old.items ++ addrs_to part.items) }
        ensures entries { OnOk result (self.new ≡ self.old ++ part.items) }
        ensures same { OnErr result ((self.new ≡ self.old) × (blocks.new ≡ blocks.old) × (captured.new.items ≡ captured.old.items)) }
        ensures err { IfErr result (λ e. e ≡ WantOfMemory) }
        ensures held { blocks.new.is_held ≡ true }
    {
        let Ok(()) = captured.reserve(part.len()) else {
            return Err(StoreError::NoMemory);
        };
        let before = self.entries.len();
        match put_behind(&mut self.entries, part) {
            Ok(()) => {
                capture_leaves(blocks, &self.entries[before..], captured);
                Ok(())
            }
            Err(error) => Err(error),
        }
    }

    /// Writes and captures a part behind the others: the leaves of these images, over the leaves `was`
    /// of the checkpoint before by place within the part. A leaf that stands there at the same place
    /// with the same rows keeps its block (its block is read where the greatest name and the greatest
    /// stamp are the same); any other is written anew. The first entry gets the part's low key, and
    /// each other one the least key of its image. `captured` gets the address of each block as it is
    /// captured, also before an error.
    ///
    /// `NoSpace` comes only where the device has no room for all blocks that are to be written of the
    /// leaves so far and of these. After an error the draft is as it was, but for what is captured.
    /// `O(bytes)` of the images, and of the leaves that are read.
    pub fn write<D: Disk>(
        &mut self,
        alloc: Global,
        disk: &mut D,
        blocks: &mut Blocks,
        low: &Item,
        was: &[Link],
        images: &[Image],
        captured: &mut Vec<Addr>,
    ) -> Result<(), StoreError>
        requires rows { (rows : List Row) × AreImages images.now rows × AreFit rows × AreFrom low.now rows }
        requires short { length low.now ≤ key_most }
        requires below { AreBelow low.now self.old }
        requires held { blocks.old.is_held ≡ true }
        requires ready { IsTrue (D.honest disk.old) → end_of blocks.old.space ≤ length (D.seen disk.old) }
        ensures writes { (rows : List Row) → AreImages images.now rows → IsTrue (D.honest disk.old) → (old : Option Stored) (first books : Books) (before : D) (links : List ALink) (leaves : List (List Row)) (listed : List AnAddr)
            → Drafted D.Disk old first books blocks.old before disk.old links leaves listed self.old → AreLiveLeaves first was.now
            → (of : LeavesOf images.now rows) × (addrs : List AnAddr) × (captured.new.items ≡ captured.old.items ++ addrs) × DraftWrites D.Disk old first books blocks.new before disk.new (links ++ aligned was.now of.leaves) (leaves ++ of.leaves) (listed ++ addrs) self.new result }
        ensures keys { OnOk result (keys_of self.new ≡ keys_of self.old ++ part_keys low.now images.now) }
        ensures same { OnErr result (self.new ≡ self.old) }
        ensures ready { IsTrue (D.honest disk.old) → OnOk result (end_of blocks.new.space ≤ length (D.seen disk.new)) }
        ensures held { blocks.new.is_held ≡ true }
        ensures fault { IfErr result (λ e. IsOfDisk e → Rose (D.faults disk.old) (D.faults disk.new)) }
        ensures disk { SameDisk D.Disk disk.old disk.new }
    {
        match write_leaves(alloc, disk, blocks, low, was, images, captured) {
            Ok(part) => put_behind(&mut self.entries, part),
            Err(error) => Err(error),
        }
    }

    /// Writes and captures the inner pages above the leaves, and gives where the whole tree stands.
    /// The first entry gets the empty key. A tree without leaves stands nowhere. `captured` gets the
    /// address of each block as it is captured, also before an error.
    ///
    /// `NoSpace` comes only where the device has no room for all blocks of the tree that are to be
    /// written. `O(bytes)` of the inner pages.
    pub fn finish<D: Disk>(
        self,
        alloc: Global,
        disk: &mut D,
        blocks: &mut Blocks,
        captured: &mut Vec<Addr>,
    ) -> Result<TreePlace, StoreError>
        requires held { blocks.old.is_held ≡ true }
        requires ready { IsTrue (D.honest disk.old) → end_of blocks.old.space ≤ length (D.seen disk.old) }
        ensures writes { IsTrue (D.honest disk.old) → (old : Option Stored) (first books : Books) (before : D) (links : List ALink) (parts : List (List (List Row))) (listed : List AnAddr)
            → Drafted D.Disk old first books blocks.old before disk.old links (join parts) listed self → StandBelow self parts
            → (addrs : List AnAddr) × (captured.new.items ≡ captured.old.items ++ addrs) × PartsWrite D.Disk old first links parts (join (join parts)) (listed ++ addrs) books blocks.new before disk.new result }
        ensures leaves { IfOk result (λ p. p.leaves.items ≡ leaf_links self) }
        ensures low { IfOk result (λ p. p.root.level ≤ 60) }
        ensures ready { IsTrue (D.honest disk.old) → OnOk result (end_of blocks.new.space ≤ length (D.seen disk.new)) }
        ensures held { blocks.new.is_held ≡ true }
        ensures fault { IfErr result (λ e. IsOfDisk e → Rose (D.faults disk.old) (D.faults disk.new)) }
        ensures disk { SameDisk D.Disk disk.old disk.new }
    {
        let entries = self.entries;
        if entries.is_empty() {
            return match no_tree(alloc) {
                Ok(place) => Ok(place),
                Err(_) => Err(StoreError::NoMemory),
            };
        }
        rise(alloc, disk, blocks, rooted(alloc, entries), captured)
    }
}

// Where the tree of no rows stands: nowhere.
fn no_tree(alloc: Global) -> Result<TreePlace, NoMemory>
    ensures { IfOk result IsNoPlace }
{
    let mut leaves = Vec::new(alloc);
    let Ok(()) = leaves.push(nowhere()) else {
        return Err(NoMemory);
    };
    Ok(TreePlace {
        root: Root {
            level: 0,
            link: nowhere(),
        },
        leaves,
        addrs: Vec::new(alloc),
    })
}

// Puts entries behind others. The error is want of memory, and nothing changes then.
fn put_behind(entries: &mut Vec<Entry>, part: Vec<Entry>) -> Result<(), StoreError>
    ensures put { OnOk result (entries.new.items ≡ entries.old.items ++ part.items) }
    ensures same { OnErr result (entries.new.items ≡ entries.old.items) }
    ensures err { IfErr result (λ e. e ≡ WantOfMemory) }
{
    let mut part = part;
    match entries.append(&mut part) {
        Ok(()) => Ok(()),
        Err(_) => Err(StoreError::NoMemory),
    }
}
