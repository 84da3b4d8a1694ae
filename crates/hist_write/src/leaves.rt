// The leaves of a history.
ghost use Rattle.std.specs.Prelude.{◌≡◌, ◌≤◌, ◌++◌, List, Option, length, true, IfErr, IfOk, OnOk, IsTrue};
ghost use Rattle.std.specs.List.{AllByRecursion};
ghost use Rattle.failure.specs.Counts.{Rose};
ghost use Rattle.wt_code.specs.StoreErrors.{IsOfDisk};
ghost use Rattle.disk_model.specs.Crash.{SameDisk};
ghost use Rattle.device_layout.specs.declared.addr.Addr.{Addr as AnAddr};
ghost use Rattle.extent_list.specs.Space.{end_of};
ghost use Rattle.block_mgr.specs.Blocks.{Books};
ghost use Rattle.stored.specs.Stored.{Stored};
ghost use Rattle.stored.specs.HistoryTree.{HistoryEntryFits, HistoryRecord as StoredRecord};
ghost use Rattle.hist_pages.specs.Leaves.{SpellsRecords};
ghost use Rattle.tree_write.specs.Captures.{MayWrite};
ghost use Rattle.hist_write.specs.Steps.{AreSpelled, LeafWrites, LeavesWrite, leasts_of, marks_of};

use block_mgr::Blocks;
use device_layout::Addr;
use disk_model::Disk;
use hist_pages::HistoryLeaf;
use inner_page::HistoryEntry;
use std::alloc::Global;
use tree_write::{capture, link_to};
use wt_code::StoreError;

// Writes and captures leaves, and gives the entries that lead to them.
pub(crate) fn write_leaves<D: Disk>(
    alloc: Global,
    disk: &mut D,
    blocks: &mut Blocks,
    drafts: Vec<HistoryLeaf>,
    captured: &mut Vec<Addr>,
) -> Result<Vec<HistoryEntry>, StoreError>
    requires leaves { (leaves : List (List StoredRecord)) × AreSpelled drafts.items leaves }
    requires held { blocks.old.is_held ≡ true }
    requires ready { IsTrue (D.honest disk.old) → end_of blocks.old.space ≤ length (D.seen disk.old) }
    ensures fit { IfOk result (λ v. AllByRecursion HistoryEntryFits v.items) }
    ensures marks { IfOk result (λ v. marks_of v.items ≡ leasts_of drafts.items) }
    ensures writes { (leaves : List (List StoredRecord)) → AreSpelled drafts.items leaves → IsTrue (D.honest disk.old) → (old : Option Stored) (first : Books) → MayWrite (D.seen disk.old) (D.may_leave disk.old) blocks.old old
        → (addrs : List AnAddr) × (captured.new.items ≡ captured.old.items ++ addrs) × LeavesWrite D.Disk old first blocks.old blocks.new disk.old disk.new leaves addrs result }
    ensures ready { IsTrue (D.honest disk.old) → OnOk result (end_of blocks.new.space ≤ length (D.seen disk.new)) }
    ensures held { blocks.new.is_held ≡ true }
    ensures fault { IfErr result (λ e. IsOfDisk e → Rose (D.faults disk.old) (D.faults disk.new)) }
    ensures disk { SameDisk D.Disk disk.old disk.new }
{
    let Ok(mut entries) = Vec::with_capacity(alloc, drafts.len()) else {
        return Err(StoreError::NoMemory);
    };
    for draft in drafts {
        match write_leaf(disk, blocks, draft, captured) {
            Ok(entry) => entries.push_reserved(entry),
            Err(error) => return Err(error),
        }
    }
    Ok(entries)
}

// Writes and captures one leaf, lists its address, and gives the entry that leads to it.
fn write_leaf<D: Disk>(
    disk: &mut D,
    blocks: &mut Blocks,
    draft: HistoryLeaf,
    captured: &mut Vec<Addr>,
) -> Result<HistoryEntry, StoreError>
    requires leaf { (records : List StoredRecord) × SpellsRecords draft records }
    requires held { blocks.old.is_held ≡ true }
    requires ready { IsTrue (D.honest disk.old) → end_of blocks.old.space ≤ length (D.seen disk.old) }
    ensures fits { IfOk result (λ e. HistoryEntryFits e) }
    ensures least { IfOk result (λ e. e.least ≡ draft.least) }
    ensures writes { (records : List StoredRecord) → SpellsRecords draft records → IsTrue (D.honest disk.old) → (old : Option Stored) (first : Books) → MayWrite (D.seen disk.old) (D.may_leave disk.old) blocks.old old
        → (addrs : List AnAddr) × (captured.new.items ≡ captured.old.items ++ addrs) × LeafWrites D.Disk old first blocks.old blocks.new disk.old disk.new records addrs result }
    ensures ready { IsTrue (D.honest disk.old) → OnOk result (end_of blocks.new.space ≤ length (D.seen disk.new)) }
    ensures held { blocks.new.is_held ≡ true }
    ensures fault { IfErr result (λ e. IsOfDisk e → Rose (D.faults disk.old) (D.faults disk.new)) }
    ensures disk { SameDisk D.Disk disk.old disk.new }
{
    let Ok(()) = captured.reserve(1) else {
        return Err(StoreError::NoMemory);
    };
    match blocks.write(disk, draft.block) {
        Err(error) => Err(error),
        Ok(addr) => {
            capture(blocks, addr, captured);
            Ok(HistoryEntry {
                least: draft.least,
                link: link_to(addr, draft.greatest, draft.durable),
            })
        }
    }
}
