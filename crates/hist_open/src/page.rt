// One inner page that an entry leads to.
ghost use Rattle.std.specs.Prelude.{◌≡◌, ◌↔◌, Some, IfOk, IfErr, IsTrue};
ghost use Rattle.failure.specs.Counts.{Rose};
ghost use Rattle.disk_model.specs.Crash.{Looked};
ghost use Rattle.stored.specs.HistoryTree.{Begins, HistoryClimbs, first_mark};
ghost use Rattle.inner_page.specs.Marks.{mark_seen};
ghost use Rattle.tree_open.specs.Damage.{Refused};
ghost use Rattle.hist_open.specs.Pages.{PageIs, Suits, IsPageOf, Stays};
ghost use Rattle.hist_open.specs.Damage.{PageSpoils, RefusesPage};

use crate::begins::{is_start, same_mark};
use crate::greatest::{greatest_durable, greatest_name};
use block_mgr::{Addr, read_into};
use disk_model::Disk;
use inner_page::{HistoryEntry, LentMark, decode_history};
use limits::INNER_IMAGE_MAX;
use std::alloc::Global;
use wt_code::Refusal;

// The entries of the inner page of this level that an entry leads to, behind which these others
// stand in its layer. The buffer has any bytes afterwards. `O(bytes)`.
pub(crate) fn read_page<D: Disk>(
    alloc: Global,
    disk: &mut D,
    level: u8,
    entry: &HistoryEntry,
    others: &[HistoryEntry],
    buffer: &mut Vec<u8>,
) -> Result<Vec<HistoryEntry>, Refusal>
    ensures ok { IsTrue (D.honest disk.old) → IfOk result (λ v. PageIs (D.seen disk.old) level entry.now (first_mark others.now) v.items) }
    ensures err { IfErr result (Refused (Rose (D.faults disk.old) (D.faults disk.new)) (IsTrue (D.honest disk.old)) (PageSpoils (D.seen disk.old) level entry.now (first_mark others.now))) }
    ensures looked { Looked D.Disk disk.old disk.new }
    ensures home { D.home disk.new ≡ D.home disk.old }
{
    let addr = entry.link.addr;
    if addr.size as u64 != INNER_IMAGE_MAX {
        return Err(spoilt(addr));
    }
    match read_into(disk, addr, buffer) {
        Err(refusal) => Err(refusal),
        Ok(()) => page_of(alloc, level, entry, others, buffer),
    }
}

// The entries of a block, where it is that page's.
fn page_of(
    alloc: Global,
    level: u8,
    entry: &HistoryEntry,
    others: &[HistoryEntry],
    block: &[u8],
) -> Result<Vec<HistoryEntry>, Refusal>
    ensures ok { IfOk result (λ v. IsPageOf block.now level entry.now (first_mark others.now) v.items) }
    ensures err { IfErr result (RefusesPage block.now level entry.now (first_mark others.now)) }
{
    let page = match decode_history(alloc, block) {
        Ok(Some(page)) => page,
        Ok(None) => return Err(spoilt(entry.link.addr)),
        Err(_) => return Err(Refusal::NoMemory),
    };
    if page.level == level && suits(entry, others, &page.entries) {
        Ok(page.entries)
    } else {
        Err(spoilt(entry.link.addr))
    }
}

// Whether a page's entries, whose records climb, suit the entry that leads to them.
fn suits(entry: &HistoryEntry, others: &[HistoryEntry], page: &[HistoryEntry]) -> bool
    requires { HistoryClimbs page.now }
    ensures { IsTrue result ↔ Suits entry.now (first_mark others.now) page.now }
{
    begins_with(entry, page)
        && stays_before(others, page)
        && greatest_name(page) == entry.link.greatest
        && greatest_durable(page) == entry.link.durable
}

// Whether the first record is the entry's, or the entry is a root's.
fn begins_with(entry: &HistoryEntry, page: &[HistoryEntry]) -> bool
    ensures { IsTrue result ↔ Begins entry.now (first_mark page.now) }
{
    is_start(&entry.least) || is_first(entry, page)
}

fn is_first(entry: &HistoryEntry, page: &[HistoryEntry]) -> bool
    ensures { IsTrue result ↔ (first_mark page.now ≡ Some entry.now.least) }
{
    match page.first() {
        Some(first) => same_mark(&first.least, &entry.least),
        None => false,
    }
}

// Whether the records are before that of the first of the others.
fn stays_before(others: &[HistoryEntry], page: &[HistoryEntry]) -> bool
    requires { HistoryClimbs page.now }
    ensures { IsTrue result ↔ Stays (first_mark others.now) page.now }
{
    match others.first() {
        Some(next) => ends_before(&next.least.lent(), page),
        None => true,
    }
}

// Whether the records, which climb, are before this one.
fn ends_before(next: &LentMark<'_>, page: &[HistoryEntry]) -> bool
    requires { HistoryClimbs page.now }
    ensures { IsTrue result ↔ Stays (Some (mark_seen next.now)) page.now }
{
    match page.last() {
        Some(end) => end.least.lent().is_before(next),
        None => true,
    }
}

// No such page can stand there, or what stands there is another one.
pub(crate) fn spoilt(addr: Addr) -> Refusal
    ensures { result ≡ Refusal.Corrupt addr.offset addr.sum addr.sum }
{
    Refusal::Corrupt {
        offset: addr.offset,
        want: addr.sum,
        found: addr.sum,
    }
}
