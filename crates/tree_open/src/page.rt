// One inner page that an entry leads to.
ghost use Rattle.std.specs.Prelude.{◌≡◌, ◌↔◌, Some, IfOk, IfErr, IsTrue};
ghost use Rattle.failure.specs.Counts.{Rose};
ghost use Rattle.disk_model.specs.Crash.{Looked};
ghost use Rattle.stored.specs.TableTree.{Climbs, first_key};
ghost use Rattle.tree_open.specs.Pages.{PageIs, Suits, IsPageOf, IsFormed, Stays};
ghost use Rattle.tree_open.specs.Damage.{Refused, PageSpoils, RefusesPage};

use crate::greatest::{greatest_durable, greatest_name};
use block_mgr::{Addr, read_into};
use byte_order::order;
use disk_model::Disk;
use inner_page::{Entry, decode};
use limits::INNER_IMAGE_MAX;
use std::alloc::Global;
use wt_code::Refusal;

// The entries of the inner page of this level that an entry leads to, behind which these others
// stand in its layer; whatever the disk, their keys are in order. The buffer has any bytes
// afterwards. `O(bytes)`.
pub(crate) fn read_page<D: Disk>(
    alloc: Global,
    disk: &mut D,
    level: u8,
    entry: &Entry,
    others: &[Entry],
    buffer: &mut Vec<u8>,
) -> Result<Vec<Entry>, Refusal>
    ensures ok { IsTrue (D.honest disk.old) → IfOk result (λ v. PageIs (D.seen disk.old) level entry.now (first_key others.now) v.items) }
    ensures form { IfOk result (λ v. IsFormed entry.now (first_key others.now) v.items) }
    ensures err { IfErr result (Refused (Rose (D.faults disk.old) (D.faults disk.new)) (IsTrue (D.honest disk.old)) (PageSpoils (D.seen disk.old) level entry.now (first_key others.now))) }
    ensures looked { Looked D.Disk disk.old disk.new }
    ensures home { D.home disk.new ≡ D.home disk.old }
{
    let addr = entry.link.addr;
    if addr.size as u64 != INNER_IMAGE_MAX {
        return Err(spoilt(addr));
    }
    match read_into(disk, addr, buffer) {
        Err(refusal) => Err(refusal),
        Ok(()) => page_of(alloc, level, entry, others, buffer),
    }
}

// The entries of a block, where it is that page's.
fn page_of(
    alloc: Global,
    level: u8,
    entry: &Entry,
    others: &[Entry],
    block: &[u8],
) -> Result<Vec<Entry>, Refusal>
    ensures ok { IfOk result (λ v. IsPageOf block.now level entry.now (first_key others.now) v.items) }
    ensures form { IfOk result (λ v. IsFormed entry.now (first_key others.now) v.items) }
    ensures err { IfErr result (RefusesPage block.now level entry.now (first_key others.now)) }
{
    let page = match decode(alloc, block) {
        Ok(Some(page)) => page,
        Ok(None) => return Err(spoilt(entry.link.addr)),
        Err(_) => return Err(Refusal::NoMemory),
    };
    if page.level == level && suits(entry, others, &page.entries) {
        Ok(page.entries)
    } else {
        Err(spoilt(entry.link.addr))
    }
}

// Whether a page's entries, whose keys climb, suit the entry that leads to them.
fn suits(entry: &Entry, others: &[Entry], page: &[Entry]) -> bool
    requires { Climbs page.now }
    ensures { IsTrue result ↔ Suits entry.now (first_key others.now) page.now }
{
    begins_with(entry, page)
        && stays_below(others, page)
        && greatest_name(page) == entry.link.greatest
        && greatest_durable(page) == entry.link.durable
}

// Whether the first key is the entry's.
fn begins_with(entry: &Entry, page: &[Entry]) -> bool
    ensures { IsTrue result ↔ (first_key page.now ≡ Some entry.now.key) }
{
    match page.first() {
        Some(first) => first.key.same(&entry.key),
        None => false,
    }
}

// Whether the keys are below that of the first of the others.
fn stays_below(others: &[Entry], page: &[Entry]) -> bool
    requires { Climbs page.now }
    ensures { IsTrue result ↔ Stays (first_key others.now) page.now }
{
    match others.first() {
        Some(next) => ends_below(next.key.as_bytes(), page),
        None => true,
    }
}

// Whether the keys, which climb, are below this one.
fn ends_below(next: &[u8], page: &[Entry]) -> bool
    requires { Climbs page.now }
    ensures { IsTrue result ↔ Stays (Some next.now) page.now }
{
    match page.last() {
        Some(end) => order(end.key.as_bytes(), next).is_lt(),
        None => true,
    }
}

// No such page can stand there, or what stands there is another one.
fn spoilt(addr: Addr) -> Refusal
    ensures { result ≡ Refusal.Corrupt addr.offset addr.sum addr.sum }
{
    Refusal::Corrupt {
        offset: addr.offset,
        want: addr.sum,
        found: addr.sum,
    }
}
