//! The levels of the history's tree above its leaves.

ghost use Rattle.std.specs.Prelude.{◌≡◌, ◌+◌, ◌-◌, ◌<◌, ◌≤◌, length, take, drop, IfOk, Some};
ghost use Rattle.std.specs.List.{AllByRecursion};
ghost use Rattle.stored.specs.HistoryTree.{AreHistoryEntries, HistoryClimbs, HistoryEntryFits, first_mark};
ghost use Rattle.hist_pages.specs.Levels.{AreCut, LevelsShrink, SpellsPage, durable_of, greatest_of, page_length};

use crate::page::HistoryPage;
use failure::NoMemory;
use inner_page::{HistoryEntry, RecordMark, encode_history};
use stamp::Name;
use std::alloc::Global;

// The greatest length of a page, in bytes, that of its header, and that of an entry beside its key.
const PAGE_MAX: usize = 4_096;

const HEADER: usize = 16;

const NUMBERS: usize = 70;

/// The entries of a level, cut into the inner pages of this level above it, from 1 to 60, each with
/// as many entries as it has room for. The error is want of memory. `O(bytes)`, and three allocations
/// a page.
pub fn cut_level(
    alloc: Global,
    level: u8,
    entries: &[HistoryEntry],
) -> Result<Vec<HistoryPage>, NoMemory>
    requires fit { AllByRecursion HistoryEntryFits entries.now }
    requires climbs { HistoryClimbs entries.now }
    requires low { 1 ≤ level }
    requires high { level ≤ 60 }
    ensures { IfOk result (λ pages. AreCut level pages.items entries.now) }
{
    let mut pages = Vec::new(alloc);
    let mut rest = entries;
    while !rest.is_empty() {
        let (front, others) = rest.split_at(front_len(rest));
        pages.reserve(1)?;
        pages.push_reserved(draft(alloc, level, front)?);
        rest = others;
    }
    Ok(pages)
}

/// A level has fewer pages than the one below, where that has two or more: a third of them, and one
/// more at most. So no tree comes to 60 levels.
pub fn levels_shrink()
    ensures { LevelsShrink }
{}

// How many entries a page has room for.
fn front_len(entries: &[HistoryEntry]) -> usize
    requires fit { AllByRecursion HistoryEntryFits entries.now }
    requires some { 0 < length entries.now }
    ensures some { 1 ≤ result }
    ensures most { result ≤ length entries.now }
    ensures room { page_length (take result entries.now) ≤ 4096 }
    ensures full { result < length entries.now → 4096 < page_length (take (result + 1) entries.now) }
{
    let mut used = HEADER;
    for (i, entry) in entries.iter().enumerate() {
        let len = entry_len(entry);
        if len > PAGE_MAX - used {
            return i;
        }
        used += len;
    }
    entries.len()
}

fn entry_len(entry: &HistoryEntry) -> usize
    requires { HistoryEntryFits entry.now }
    ensures { result ≡ 70 + length entry.now.least.key }
{
    NUMBERS + entry.least.key.as_bytes().len()
}

fn draft(alloc: Global, level: u8, entries: &[HistoryEntry]) -> Result<HistoryPage, NoMemory>
    requires { AreHistoryEntries level entries.now }
    ensures { IfOk result (λ page. SpellsPage level page entries.now) }
{
    let least = least_of(entries)?;
    let image = encode_history(alloc, level, entries)?;
    Ok(HistoryPage {
        least,
        image,
        greatest: greatest_of(entries),
        durable: durable_of(entries),
    })
}

fn least_of(entries: &[HistoryEntry]) -> Result<RecordMark, NoMemory>
    requires { 0 < length entries.now }
    ensures { IfOk result (λ least. first_mark entries.now ≡ Some least) }
{
    let first = &entries[0];
    copy_of(&first.least)
}

fn copy_of(mark: &RecordMark) -> Result<RecordMark, NoMemory>
    ensures { IfOk result (λ copy. copy ≡ mark.now) }
{
    let key = mark.key.copy()?;
    Ok(RecordMark {
        table: mark.table,
        key,
        commit: mark.commit,
        name: mark.name,
    })
}

fn greatest_of(entries: &[HistoryEntry]) -> Name
    ensures { result ≡ greatest_of entries.now }
{
    let mut greatest = Name { run: 0, id: 0 };
    let mut at = entries.len();
    while at > 0 {
        at -= 1;
        let entry = &entries[at];
        greatest = entry.link.greatest.later(greatest);
    }
    greatest
}

fn durable_of(entries: &[HistoryEntry]) -> u64
    ensures { result ≡ durable_of entries.now }
{
    let mut durable = 0u64;
    let mut at = entries.len();
    while at > 0 {
        at -= 1;
        let entry = &entries[at];
        durable = entry.link.durable.max(durable);
    }
    durable
}
