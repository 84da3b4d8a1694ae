//! The page that a link leads to, checked.

ghost use Rattle.std.specs.Prelude.{◌≡◌, ◌≢◌, option_map, IfOk, IfErr, IsTrue, None, ◌↔◌};
ghost use Rattle.failure.specs.Counts.{Rose};
ghost use Rattle.disk_model.specs.Crash.{Looked};
ghost use Rattle.row_page.specs.Greatest.{durables_of, names_of};
ghost use Rattle.row_page.specs.Rows.{AreRows, Ascends};
ghost use Rattle.stored.specs.Links.{SaysOf};
ghost use Rattle.tree_open.specs.Damage.{Refused};
ghost use Rattle.recover_open.specs.Leaves.{AreUnder, IsUnder};
ghost use Rattle.recover_open.specs.Damage.{EntrySpoils};
ghost use Rattle.recover_open.specs.Tallies.{IsLeafOf, RefusesLeaf};
ghost use Rattle.leaf_load.specs.Loads.{SpellsRows, entry_of};

use crate::bounds::are_between;
use block_mgr::read_block;
use device_layout::{Addr, Link};
use disk_model::Disk;
use row_page::Leaf;
use std::alloc::Global;
use wt_code::Refusal;

/// The page of a leaf that is stored. `O(bytes)`: its block is read once, and decoded once.
pub(crate) fn read_page<D: Disk>(
    alloc: Global,
    disk: &mut D,
    link: Link,
    low: &[u8],
    high: Option<&[u8]>,
) -> Result<Leaf, Refusal>
    requires { link.addr.offset ≢ 0 }
    ensures ok { let next = option_map (λ k. k.now) high.entry in IsTrue (D.honest disk.old) → IfOk result (IsUnder (D.seen disk.old) (entry_of low.now link) next) }
    ensures keys { let next = option_map (λ k. k.now) high.entry in IfOk result (AreUnder (entry_of low.now link) next) }
    ensures fit { IfOk result AreRows }
    ensures err { let next = option_map (λ k. k.now) high.entry in IfErr result (Refused (Rose (D.faults disk.old) (D.faults disk.new)) (IsTrue (D.honest disk.old)) (EntrySpoils (D.seen disk.old) (entry_of low.now link) next)) }
    ensures looked { Looked D.Disk disk.old disk.new }
    ensures home { D.home disk.new ≡ D.home disk.old }
{
    match read_block(alloc, disk, link.addr) {
        Err(refusal) => Err(refusal),
        Ok(block) => page_in(alloc, link, low, high, block),
    }
}

// The page that a block spells.
fn page_in(
    alloc: Global,
    link: Link,
    low: &[u8],
    high: Option<&[u8]>,
    block: Vec<u8>,
) -> Result<Leaf, Refusal>
    ensures ok { let next = option_map (λ k. k.now) high.entry in IfOk result (SpellsRows block.items (entry_of low.now link) next) }
    ensures err { let next = option_map (λ k. k.now) high.entry in IfErr result (RefusesLeaf block.items (entry_of low.now link) next) }
{
    let leaf = match Leaf::of_block(alloc, block) {
        Ok(Some(leaf)) => leaf,
        Ok(None) => return Err(spoilt(link.addr)),
        Err(_) => return Err(Refusal::NoMemory),
    };
    if suits(link, low, high, &leaf) {
        Ok(leaf)
    } else {
        Err(spoilt(link.addr))
    }
}

// Whether a leaf, whose keys ascend, is the link's, with keys from low up to high.
fn suits(link: Link, low: &[u8], high: Option<&[u8]>, leaf: &Leaf) -> bool
    requires { Ascends None leaf.now }
    ensures { let next = option_map (λ k. k.now) high.entry in IsTrue result ↔ IsLeafOf (entry_of low.now link) next leaf.now }
{
    is_said(link, leaf) && are_between(low, high, leaf)
}

// Whether the link says the greatest of the leaf's rows.
fn is_said(link: Link, leaf: &Leaf) -> bool
    ensures { IsTrue result ↔ SaysOf link (names_of leaf.now) (durables_of leaf.now) }
{
    leaf.greatest() == link.greatest && leaf.durable() == link.durable
}

/// No block can stand there, or what stands there is no leaf, or another one than the link says.
pub(crate) fn spoilt(addr: Addr) -> Refusal
    ensures { result ≡ Refusal.Corrupt addr.offset addr.sum addr.sum }
{
    Refusal::Corrupt {
        offset: addr.offset,
        want: addr.sum,
        found: addr.sum,
    }
}
