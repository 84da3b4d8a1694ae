// The leaves of one tree, checked without keeping their rows.
ghost use Rattle.std.specs.Prelude.{◌≡◌, ◌↔◌, ◌+◌, Some, None, length, IfOk, IfErr, IsTrue};
ghost use Rattle.failure.specs.Counts.{Rose};
ghost use Rattle.disk_model.specs.Crash.{Looked};
ghost use Rattle.row_page.specs.Rows.{Ascends};
ghost use Rattle.row_page.specs.Greatest.{names_of, durables_of};
ghost use Rattle.stored.specs.Links.{SaysOf};
ghost use Rattle.stored.specs.TableTree.{first_key};
ghost use Rattle.tree_open.specs.Trees.{leaf_addr};
ghost use Rattle.tree_open.specs.Damage.{Refused};
ghost use Rattle.recover_open.specs.Leaves.{AreUnder, IsFrom, IsUpTo};
ghost use Rattle.recover_open.specs.Damage.{EntrySpoils, LeavesSpoil};
ghost use Rattle.recover_open.specs.Tallies.{IsTallied, HasLeaf, IsLeafOf, SpellsLeaf, RefusesLeaf, IsNextTally};

use crate::record::spoilt;
use block_mgr::read_block;
use byte_order::order;
use device_layout::{Addr, Link};
use device_leaf::is_nowhere;
use disk_model::Disk;
use failure::NoMemory;
use inner_page::Entry;
use row_page::Leaf;
use std::alloc::Global;
use wt_code::Refusal;

/// What leaves have.
#[derive(Clone, Copy, Debug, PartialEq, Eq)]
pub struct Tally {
    /// How many are stored: a leaf without rows stands nowhere.
    pub leaves: u64,
    /// How many rows stand in them, each a version.
    pub versions: u64,
}

/// Checks the leaves that these entries lead to, as a recovery reads them, and counts them. `Corrupt`
/// tells the first one at fault, with the sum that its block should have and the sum that it has, or
/// the same sum twice where that is not at fault. `O(bytes)`, each leaf read once; of its rows none
/// is kept.
pub fn check_leaves<D: Disk>(
    alloc: Global,
    disk: &mut D,
    entries: &[Entry],
) -> Result<Tally, Refusal>
    ensures ok { IsTrue (D.honest disk.old) → IfOk result (IsTallied (D.seen disk.old) entries.now) }
    ensures err { IfErr result (Refused (Rose (D.faults disk.old) (D.faults disk.new)) (IsTrue (D.honest disk.old)) (LeavesSpoil (D.seen disk.old) entries.now)) }
    ensures looked { Looked D.Disk disk.old disk.new }
    ensures home { D.home disk.new ≡ D.home disk.old }
{
    let mut tally = Tally {
        leaves: 0,
        versions: 0,
    };
    for i in 0..entries.len() {
        let entry = &entries[i];
        let rows = match check_leaf(alloc, disk, entry, &entries[i + 1..]) {
            Ok(rows) => rows,
            Err(refusal) => return Err(refusal),
        };
        match counted(tally, entry.link.addr, rows) {
            Ok(more) => tally = more,
            Err(NoMemory) => return Err(Refusal::NoMemory),
        }
    }
    Ok(tally)
}

// One leaf more, which has this address and so many rows. No device has so many that the numbers
// have no room for them: that would be told as want of memory.
fn counted(tally: Tally, addr: Addr, rows: usize) -> Result<Tally, NoMemory>
    ensures { IfOk result (IsNextTally tally addr rows) }
{
    Ok(Tally {
        leaves: added(tally.leaves, stored_at(addr))?,
        versions: added(tally.versions, rows as u64)?,
    })
}

// How many leaves are stored at an address.
fn stored_at(addr: Addr) -> u64
    ensures { result ≡ length (leaf_addr addr) }
{
    if addr.offset == 0 { 0 } else { 1 }
}

fn added(count: u64, more: u64) -> Result<u64, NoMemory>
    ensures { IfOk result (λ n. n ≡ count + more) }
{
    match count.checked_add(more) {
        Some(sum) => Ok(sum),
        None => Err(NoMemory),
    }
}

// The number of rows of the leaf that an entry leads to, behind which these others stand.
fn check_leaf<D: Disk>(
    alloc: Global,
    disk: &mut D,
    entry: &Entry,
    others: &[Entry],
) -> Result<usize, Refusal>
    ensures ok { IsTrue (D.honest disk.old) → IfOk result (HasLeaf (D.seen disk.old) entry.now (first_key others.now)) }
    ensures err { IfErr result (Refused (Rose (D.faults disk.old) (D.faults disk.new)) (IsTrue (D.honest disk.old)) (EntrySpoils (D.seen disk.old) entry.now (first_key others.now))) }
    ensures looked { Looked D.Disk disk.old disk.new }
    ensures home { D.home disk.new ≡ D.home disk.old }
{
    let link = entry.link;
    if link.addr.offset == 0 {
        return if is_nowhere(link) {
            Ok(0)
        } else {
            Err(spoilt(link.addr))
        };
    }
    match read_block(alloc, disk, link.addr) {
        Err(refusal) => Err(refusal),
        Ok(block) => rows_in(alloc, entry, others, block),
    }
}

// The number of rows of a leaf's block.
fn rows_in(alloc: Global, entry: &Entry, others: &[Entry], block: Vec<u8>) -> Result<usize, Refusal>
    ensures ok { IfOk result (SpellsLeaf block.items entry.now (first_key others.now)) }
    ensures err { IfErr result (RefusesLeaf block.items entry.now (first_key others.now)) }
{
    let leaf = match Leaf::of_block(alloc, block) {
        Ok(Some(leaf)) => leaf,
        Ok(None) => return Err(spoilt(entry.link.addr)),
        Err(_) => return Err(Refusal::NoMemory),
    };
    if suits(entry, others, &leaf) {
        Ok(leaf.len())
    } else {
        Err(spoilt(entry.link.addr))
    }
}

// Whether a leaf, whose keys ascend, is the entry's.
fn suits(entry: &Entry, others: &[Entry], leaf: &Leaf) -> bool
    requires { Ascends None leaf.now }
    ensures { IsTrue result ↔ IsLeafOf entry.now (first_key others.now) leaf.now }
{
    is_said(entry.link, leaf) && are_under(entry, others, leaf)
}

// Whether the link says the greatest of the leaf's rows.
fn is_said(link: Link, leaf: &Leaf) -> bool
    ensures { IsTrue result ↔ SaysOf link (names_of leaf.now) (durables_of leaf.now) }
{
    leaf.greatest() == link.greatest && leaf.durable() == link.durable
}

// Whether the keys, which ascend, are between the entry's and that of the first of the others.
fn are_under(entry: &Entry, others: &[Entry], leaf: &Leaf) -> bool
    requires { Ascends None leaf.now }
    ensures { IsTrue result ↔ AreUnder entry.now (first_key others.now) leaf.now }
{
    begin_from(entry.key.as_bytes(), leaf) && stay_below(others, leaf)
}

// Whether no key, of those that ascend, is below this one.
fn begin_from(least: &[u8], leaf: &Leaf) -> bool
    requires { Ascends None leaf.now }
    ensures { IsTrue result ↔ IsFrom least.now leaf.now }
{
    if leaf.is_empty() {
        return true;
    }
    !order(leaf.key(0), least).is_lt()
}

// Whether the keys, which ascend, are below that of the first of the others.
fn stay_below(others: &[Entry], leaf: &Leaf) -> bool
    requires { Ascends None leaf.now }
    ensures { IsTrue result ↔ IsUpTo (first_key others.now) leaf.now }
{
    match others.first() {
        Some(next) => end_below(next.key.as_bytes(), leaf),
        None => true,
    }
}

// Whether the keys, which ascend, are below this one.
fn end_below(next: &[u8], leaf: &Leaf) -> bool
    requires { Ascends None leaf.now }
    ensures { IsTrue result ↔ IsUpTo (Some next.now) leaf.now }
{
    if leaf.is_empty() {
        return true;
    }
    order(leaf.key(leaf.len() - 1), next).is_lt()
}
