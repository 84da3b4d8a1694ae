// The inner pages of a tree, layer by layer.
ghost use Rattle.std.specs.Prelude.{◌≡◌, ◌≤◌, [], ◌∷◌, length, IfOk, IfErr, IsTrue};
ghost use Rattle.failure.specs.Counts.{Rose};
ghost use Rattle.disk_model.specs.Crash.{Looked};
ghost use Rattle.stored.specs.TableTree.{Climbs, root_entry};
ghost use Rattle.tree_open.specs.Trees.{InnerIs};
ghost use Rattle.tree_open.specs.Damage.{Refused, InnerSpoils};

use crate::layer::read_layer;
use crate::place::{Upper, append_pages};
use checkpoint_record::Root;
use device_layout::Link;
use disk_model::Disk;
use inner_page::Entry;
use item::Item;
use std::alloc::Global;
use wt_code::Refusal;

/// The entries of the leaves of the tree that a root leads to, in the order of their keys, and where
/// its inner pages stand: the root's own entry alone where its level is 0, and then nothing is read.
/// Whatever the disk, the keys ascend, and there is one at least. `Corrupt` comes only
/// where the device has no such tree: with the offset and the sum of the address of the first page
/// at fault, and the sum that its block has, or the same sum twice where that is not at fault. A
/// page is also at fault whose keys are not all below the next page's. `DiskFault` comes only where
/// the disk has counted a fault, and the last refusal there is, is want of memory. `O(bytes)` of
/// the inner pages, each read once.
pub fn read_tree<D: Disk>(alloc: Global, disk: &mut D, root: Root) -> Result<Upper, Refusal>
    ensures ok { IsTrue (D.honest disk.old) → IfOk result (λ u. InnerIs (D.seen disk.old) root u.entries.items u.addrs.items) }
    ensures climbs { IfOk result (λ u. Climbs u.entries.items) }
    ensures some { IfOk result (λ u. 1 ≤ length u.entries.items) }
    ensures err { IfErr result (Refused (Rose (D.faults disk.old) (D.faults disk.new)) (IsTrue (D.honest disk.old)) (InnerSpoils (D.seen disk.old) root)) }
    ensures looked { Looked D.Disk disk.old disk.new }
    ensures home { D.home disk.new ≡ D.home disk.old }
{
    let mut buffer = Vec::new(alloc);
    let mut entries = match root_alone(alloc, root.link) {
        Ok(entries) => entries,
        Err(refusal) => return Err(refusal),
    };
    let mut addrs = Vec::new(alloc);
    let mut level = root.level;
    while level > 0 {
        append_pages(&mut addrs, &entries)?;
        entries = match read_layer(alloc, disk, level, &entries, &mut buffer) {
            Ok(below) => below,
            Err(refusal) => return Err(refusal),
        };
        level -= 1;
    }
    Ok(Upper { entries, addrs })
}

// The entry that a root is: any key may stand below it.
fn root_alone(alloc: Global, link: Link) -> Result<Vec<Entry>, Refusal>
    ensures ok { IfOk result (λ v. v.items ≡ root_entry link ∷ []) }
    ensures err { IfErr result (λ r. r ≡ Refusal.NoMemory) }
{
    let mut entries = Vec::new(alloc);
    let key = Item::new(Vec::new(alloc));
    match entries.push(Entry { key, link }) {
        Ok(()) => Ok(entries),
        Err(_) => Err(Refusal::NoMemory),
    }
}
