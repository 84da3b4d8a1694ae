// One leaf that an entry leads to.
ghost use Rattle.std.specs.Prelude.{◌≡◌, ◌↔◌, Some, None, IfOk, IfErr, IsTrue};
ghost use Rattle.failure.specs.Counts.{Rose};
ghost use Rattle.disk_model.specs.Crash.{Looked};
ghost use Rattle.stored.specs.HistoryTree.{Begins, RecordsAscend, first_mark, first_record};
ghost use Rattle.inner_page.specs.Marks.{mark_seen};
ghost use Rattle.tree_open.specs.Damage.{Refused};
ghost use Rattle.hist_open.specs.Leaves.{IsUnder, IsLeafOf, RecordsStay, SpellsLeaf};
ghost use Rattle.hist_open.specs.Damage.{EntrySpoils, RefusesLeaf};

use crate::begins::{is_mark_of, is_start};
use crate::greatest::{greatest_of, latest_of};
use crate::page::spoilt;
use block_mgr::read_block;
use device_leaf::is_nowhere;
use disk_model::Disk;
use inner_page::{HistoryEntry, HistoryRecord, LentMark, decode_records};
use std::alloc::Global;
use wt_code::Refusal;

// The records of the leaf that an entry leads to, behind which these others stand. `O(bytes)`.
pub(crate) fn read_leaf<D: Disk>(
    alloc: Global,
    disk: &mut D,
    entry: &HistoryEntry,
    others: &[HistoryEntry],
) -> Result<Vec<HistoryRecord>, Refusal>
    ensures ok { IsTrue (D.honest disk.old) → IfOk result (λ v. IsUnder (D.seen disk.old) entry.now (first_mark others.now) v.items) }
    ensures err { IfErr result (Refused (Rose (D.faults disk.old) (D.faults disk.new)) (IsTrue (D.honest disk.old)) (EntrySpoils (D.seen disk.old) entry.now (first_mark others.now))) }
    ensures looked { Looked D.Disk disk.old disk.new }
    ensures home { D.home disk.new ≡ D.home disk.old }
{
    let link = entry.link;
    if link.addr.offset == 0 {
        return if is_nowhere(link) && is_start(&entry.least) {
            Ok(Vec::new(alloc))
        } else {
            Err(spoilt(link.addr))
        };
    }
    match read_block(alloc, disk, link.addr) {
        Err(refusal) => Err(refusal),
        Ok(block) => records_in(alloc, entry, others, &block),
    }
}

// The records of a block, where it is that leaf's.
fn records_in(
    alloc: Global,
    entry: &HistoryEntry,
    others: &[HistoryEntry],
    block: &[u8],
) -> Result<Vec<HistoryRecord>, Refusal>
    ensures ok { IfOk result (λ v. SpellsLeaf block.now entry.now (first_mark others.now) v.items) }
    ensures err { IfErr result (RefusesLeaf block.now entry.now (first_mark others.now)) }
{
    let records = match decode_records(alloc, block) {
        Ok(Some(records)) => records,
        Ok(None) => return Err(spoilt(entry.link.addr)),
        Err(_) => return Err(Refusal::NoMemory),
    };
    if suits(entry, others, &records) {
        Ok(records)
    } else {
        Err(spoilt(entry.link.addr))
    }
}

// Whether a leaf's records, which ascend, are the entry's.
fn suits(entry: &HistoryEntry, others: &[HistoryEntry], records: &[HistoryRecord]) -> bool
    requires { RecordsAscend None records.now }
    ensures { IsTrue result ↔ IsLeafOf entry.now (first_mark others.now) records.now }
{
    begins_with(entry, records)
        && stay_before(others, records)
        && greatest_of(records) == entry.link.greatest
        && latest_of(records) == entry.link.durable
}

// Whether the first record is the entry's, or the entry is a root's.
fn begins_with(entry: &HistoryEntry, records: &[HistoryRecord]) -> bool
    ensures { IsTrue result ↔ Begins entry.now (first_record records.now) }
{
    is_start(&entry.least) || is_first(entry, records)
}

fn is_first(entry: &HistoryEntry, records: &[HistoryRecord]) -> bool
    ensures { IsTrue result ↔ (first_record records.now ≡ Some entry.now.least) }
{
    match records.first() {
        Some(first) => is_mark_of(&entry.least, first),
        None => false,
    }
}

// Whether the records are before that of the first of the others.
fn stay_before(others: &[HistoryEntry], records: &[HistoryRecord]) -> bool
    requires { RecordsAscend None records.now }
    ensures { IsTrue result ↔ RecordsStay (first_mark others.now) records.now }
{
    match others.first() {
        Some(next) => end_before(&next.least.lent(), records),
        None => true,
    }
}

// Whether the records, which ascend, are before this one.
fn end_before(next: &LentMark<'_>, records: &[HistoryRecord]) -> bool
    requires { RecordsAscend None records.now }
    ensures { IsTrue result ↔ RecordsStay (Some (mark_seen next.now)) records.now }
{
    match records.last() {
        Some(end) => end.mark().is_before(next),
        None => true,
    }
}
