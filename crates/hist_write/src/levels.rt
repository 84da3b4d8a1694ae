// The inner pages of a history, level by level.
ghost use Rattle.std.specs.Prelude.{◌≡◌, ◌≤◌, ◌*◌, ◌+◌, ◌++◌, ℕ, List, Option, length, true, IfErr, IfOk, OnOk, IsTrue};
ghost use Rattle.std.specs.List.{AllByRecursion};
ghost use Rattle.failure.specs.Counts.{Rose as Rose_count};
ghost use Rattle.wt_code.specs.StoreErrors.{IsOfDisk};
ghost use Rattle.disk_model.specs.Crash.{SameDisk};
ghost use Rattle.device_layout.specs.declared.addr.Addr.{Addr as AnAddr};
ghost use Rattle.extent_list.specs.Space.{end_of};
ghost use Rattle.block_mgr.specs.Blocks.{Books};
ghost use Rattle.stored.specs.Stored.{Stored};
ghost use Rattle.stored.specs.Tree.{Layer};
ghost use Rattle.stored.specs.HistoryTree.{HistoryClimbs, HistoryEntry as StoredEntry, HistoryEntryFits};
ghost use Rattle.hist_pages.specs.Levels.{SpellsPage};
ghost use Rattle.tree_write.specs.Captures.{MayWrite};
ghost use Rattle.hist_write.specs.Steps.{AreDrafts, PageWrites, PagesWrite, LevelWrites, Rises, marks_of, lows_of};

use crate::entries::{put_addrs, top_link};
use crate::writing::HistoryPlace;
use block_mgr::Blocks;
use checkpoint_record::Root;
use device_layout::Addr;
use disk_model::Disk;
use hist_pages::{HistoryPage, cut_level};
use inner_page::HistoryEntry;
use std::alloc::Global;
use tree_write::{capture, link_to};
use wt_code::StoreError;

// Writes and captures the inner pages above the entries of leaves, from the lowest level up, and gives
// where the whole history stands.
pub(crate) fn rise<D: Disk>(
    alloc: Global,
    disk: &mut D,
    blocks: &mut Blocks,
    leaves: Vec<HistoryEntry>,
    captured: &mut Vec<Addr>,
) -> Result<HistoryPlace, StoreError>
    requires fit { AllByRecursion HistoryEntryFits leaves.items }
    requires climbs { HistoryClimbs leaves.items }
    requires some { 1 ≤ length leaves.items }
    requires held { blocks.old.is_held ≡ true }
    requires ready { IsTrue (D.honest disk.old) → end_of blocks.old.space ≤ length (D.seen disk.old) }
    ensures rises { IsTrue (D.honest disk.old) → (old : Option Stored) (first : Books) → MayWrite (D.seen disk.old) (D.may_leave disk.old) blocks.old old
        → (addrs : List AnAddr) × (captured.new.items ≡ captured.old.items ++ addrs) × Rises D.Disk old first blocks.old blocks.new disk.old disk.new leaves.items addrs result }
    ensures low { IfOk result (λ p. p.root.level ≤ 60) }
    ensures ready { IsTrue (D.honest disk.old) → OnOk result (end_of blocks.new.space ≤ length (D.seen disk.new)) }
    ensures held { blocks.new.is_held ≡ true }
    ensures fault { IfErr result (λ e. IsOfDisk e → Rose_count (D.faults disk.old) (D.faults disk.new)) }
    ensures disk { SameDisk D.Disk disk.old disk.new }
{
    let Ok(mut addrs) = put_addrs(alloc, &leaves, &[]) else {
        return Err(StoreError::NoMemory);
    };
    let mut entries = leaves;
    let mut level = 0;
    while entries.len() > 1 {
        level += 1;
        entries = match write_level(alloc, disk, blocks, level, &entries, captured) {
            Ok(above) => above,
            Err(error) => return Err(error),
        };
        addrs = match put_addrs(alloc, &entries, &addrs) {
            Ok(all) => all,
            Err(_) => return Err(StoreError::NoMemory),
        };
    }
    Ok(HistoryPlace {
        root: Root {
            level,
            link: top_link(&entries),
        },
        addrs,
    })
}

// Writes and captures the inner pages of a level above entries, and gives the entries that lead to
// them.
fn write_level<D: Disk>(
    alloc: Global,
    disk: &mut D,
    blocks: &mut Blocks,
    level: u8,
    entries: &[HistoryEntry],
    captured: &mut Vec<Addr>,
) -> Result<Vec<HistoryEntry>, StoreError>
    requires fit { AllByRecursion HistoryEntryFits entries.now }
    requires climbs { HistoryClimbs entries.now }
    requires some { 1 ≤ length entries.now }
    requires low { 1 ≤ level }
    requires high { level ≤ 60 }
    requires held { blocks.old.is_held ≡ true }
    requires ready { IsTrue (D.honest disk.old) → end_of blocks.old.space ≤ length (D.seen disk.old) }
    ensures fit { IfOk result (λ v. AllByRecursion HistoryEntryFits v.items) }
    ensures climbs { IfOk result (λ v. HistoryClimbs v.items) }
    ensures some { IfOk result (λ v. 1 ≤ length v.items) }
    ensures shrinks { IfOk result (λ v. 3 * length v.items ≤ length entries.now + 2) }
    ensures writes { IsTrue (D.honest disk.old) → (old : Option Stored) (first : Books) → MayWrite (D.seen disk.old) (D.may_leave disk.old) blocks.old old
        → (addrs : List AnAddr) × (captured.new.items ≡ captured.old.items ++ addrs) × LevelWrites D.Disk old first blocks.old blocks.new disk.old disk.new level entries.now addrs result }
    ensures ready { IsTrue (D.honest disk.old) → OnOk result (end_of blocks.new.space ≤ length (D.seen disk.new)) }
    ensures held { blocks.new.is_held ≡ true }
    ensures fault { IfErr result (λ e. IsOfDisk e → Rose_count (D.faults disk.old) (D.faults disk.new)) }
    ensures disk { SameDisk D.Disk disk.old disk.new }
{
    match cut_level(alloc, level, entries) {
        Err(_) => Err(StoreError::NoMemory),
        Ok(drafts) => write_pages(alloc, disk, blocks, drafts, captured),
    }
}

// Writes and captures inner pages, and gives the entries that lead to them.
fn write_pages<D: Disk>(
    alloc: Global,
    disk: &mut D,
    blocks: &mut Blocks,
    drafts: Vec<HistoryPage>,
    captured: &mut Vec<Addr>,
) -> Result<Vec<HistoryEntry>, StoreError>
    requires drafts { (level : ℕ) × (pages : Layer StoredEntry) × AreDrafts level drafts.items pages }
    requires held { blocks.old.is_held ≡ true }
    requires ready { IsTrue (D.honest disk.old) → end_of blocks.old.space ≤ length (D.seen disk.old) }
    ensures fit { IfOk result (λ v. AllByRecursion HistoryEntryFits v.items) }
    ensures marks { IfOk result (λ v. marks_of v.items ≡ lows_of drafts.items) }
    ensures writes { (level : ℕ) (pages : Layer StoredEntry) → AreDrafts level drafts.items pages → IsTrue (D.honest disk.old) → (old : Option Stored) (first : Books) → MayWrite (D.seen disk.old) (D.may_leave disk.old) blocks.old old
        → (addrs : List AnAddr) × (captured.new.items ≡ captured.old.items ++ addrs) × PagesWrite D.Disk old first blocks.old blocks.new disk.old disk.new level pages addrs result }
    ensures ready { IsTrue (D.honest disk.old) → OnOk result (end_of blocks.new.space ≤ length (D.seen disk.new)) }
    ensures held { blocks.new.is_held ≡ true }
    ensures fault { IfErr result (λ e. IsOfDisk e → Rose_count (D.faults disk.old) (D.faults disk.new)) }
    ensures disk { SameDisk D.Disk disk.old disk.new }
{
    let Ok(mut entries) = Vec::with_capacity(alloc, drafts.len()) else {
        return Err(StoreError::NoMemory);
    };
    for draft in drafts {
        match write_page(disk, blocks, draft, captured) {
            Ok(entry) => entries.push_reserved(entry),
            Err(error) => return Err(error),
        }
    }
    Ok(entries)
}

// Writes and captures one inner page, lists its address, and gives the entry that leads to it.
fn write_page<D: Disk>(
    disk: &mut D,
    blocks: &mut Blocks,
    draft: HistoryPage,
    captured: &mut Vec<Addr>,
) -> Result<HistoryEntry, StoreError>
    requires page { (level : ℕ) × (es : List StoredEntry) × SpellsPage level draft es }
    requires held { blocks.old.is_held ≡ true }
    requires ready { IsTrue (D.honest disk.old) → end_of blocks.old.space ≤ length (D.seen disk.old) }
    ensures fits { IfOk result (λ e. HistoryEntryFits e) }
    ensures least { IfOk result (λ e. e.least ≡ draft.least) }
    ensures writes { (level : ℕ) (es : List StoredEntry) → SpellsPage level draft es → IsTrue (D.honest disk.old) → (old : Option Stored) (first : Books) → MayWrite (D.seen disk.old) (D.may_leave disk.old) blocks.old old
        → (addrs : List AnAddr) × (captured.new.items ≡ captured.old.items ++ addrs) × PageWrites D.Disk old first blocks.old blocks.new disk.old disk.new level es addrs result }
    ensures ready { IsTrue (D.honest disk.old) → OnOk result (end_of blocks.new.space ≤ length (D.seen disk.new)) }
    ensures held { blocks.new.is_held ≡ true }
    ensures fault { IfErr result (λ e. IsOfDisk e → Rose_count (D.faults disk.old) (D.faults disk.new)) }
    ensures disk { SameDisk D.Disk disk.old disk.new }
{
    let Ok(()) = captured.reserve(1) else {
        return Err(StoreError::NoMemory);
    };
    match blocks.write(disk, draft.image) {
        Err(error) => Err(error),
        Ok(addr) => {
            capture(blocks, addr, captured);
            Ok(HistoryEntry {
                least: draft.least,
                link: link_to(addr, draft.greatest, draft.durable),
            })
        }
    }
}
