// The leaf of a table.
ghost use Rattle.std.specs.Prelude.{◌≡◌, ◌↔◌, IfOk, IfErr, IsTrue};
ghost use Rattle.failure.specs.Counts.{Rose};
ghost use Rattle.disk_model.specs.Crash.{Looked};
ghost use Rattle.stored.specs.Links.{nowhere};
ghost use Rattle.device_leaf.specs.Leaves.{LeafIs, PageIs};
ghost use Rattle.device_leaf.specs.Openings.{LeafRefused, RefusesPage};

use block_mgr::read_block;
use device_layout::{Addr, Link};
use disk_model::Disk;
use leaf_rows::Rows;
use row_page::Leaf;
use std::alloc::Global;
use wt_code::Refusal;

/// The rows of the leaf that a link leads to. `Corrupt` comes only where there is none of its
/// greatest name and durable stamp: with the offset and the sum of its address, and the sum that
/// its block has, or the same sum twice where that is not at fault. `O(bytes)` of the leaf.
pub fn load<D: Disk>(alloc: Global, disk: &mut D, link: Link) -> Result<Rows, Refusal>
    ensures ok { IsTrue (D.honest disk.old) → IfOk result (LeafIs (D.seen disk.old) link) }
    ensures err { IfErr result (LeafRefused (Rose (D.faults disk.old) (D.faults disk.new)) (IsTrue (D.honest disk.old)) (D.seen disk.old) link) }
    ensures looked { Looked D.Disk disk.old disk.new }
    ensures home { D.home disk.new ≡ D.home disk.old }
{
    if link.addr.offset == 0 {
        return if is_nowhere(link) {
            Ok(Rows::new(alloc))
        } else {
            Err(spoilt(link.addr))
        };
    }
    match read_block(alloc, disk, link.addr) {
        Err(refusal) => Err(refusal),
        Ok(block) => rows_of(alloc, link, block),
    }
}

// The rows of a leaf's block, of which the link says the greatest.
fn rows_of(alloc: Global, link: Link, block: Vec<u8>) -> Result<Rows, Refusal>
    ensures ok { IfOk result (λ rows. PageIs block.items link rows) }
    ensures err { IfErr result (RefusesPage block.items link) }
{
    let leaf = match Leaf::of_block(alloc, block) {
        Ok(Some(leaf)) => leaf,
        Ok(None) => return Err(spoilt(link.addr)),
        Err(_) => return Err(Refusal::NoMemory),
    };
    if leaf.greatest() == link.greatest && leaf.durable() == link.durable {
        match Rows::of_leaf(alloc, &leaf) {
            Ok(rows) => Ok(rows),
            Err(_) => Err(Refusal::NoMemory),
        }
    } else {
        Err(spoilt(link.addr))
    }
}

/// Whether a link leads to one empty leaf that is not stored.
pub fn is_nowhere(link: Link) -> bool
    ensures { IsTrue result ↔ (link ≡ nowhere) }
{
    let is_place = link.addr.offset != 0 || link.addr.size != 0 || link.addr.sum != 0;
    let is_name = link.greatest.run != 0 || link.greatest.id != 0;
    !is_place && !is_name && link.durable == 0
}

// No block can stand there, or what stands there is no leaf, or another one than the link says.
fn spoilt(addr: Addr) -> Refusal
    ensures { result ≡ Refusal.Corrupt addr.offset addr.sum addr.sum }
{
    Refusal::Corrupt {
        offset: addr.offset,
        want: addr.sum,
        found: addr.sum,
    }
}
