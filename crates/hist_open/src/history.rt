// The whole history.
ghost use Rattle.std.specs.Prelude.{◌≡◌, IfOk, IfErr, IsTrue};
ghost use Rattle.failure.specs.Counts.{Rose};
ghost use Rattle.disk_model.specs.Crash.{Looked};
ghost use Rattle.tree_open.specs.Damage.{Refused};
ghost use Rattle.hist_open.specs.Trees.{IsRead};
ghost use Rattle.hist_open.specs.Damage.{HistorySpoils};

use crate::leaves::read_leaves;
use crate::page::spoilt;
use crate::place::append_leaves;
use crate::upper::read_upper;
use checkpoint_record::Root;
use device_layout::Addr;
use disk_model::Disk;
use inner_page::{HistoryRecord, names_differ};
use std::alloc::Global;
use wt_code::Refusal;

/// The history of a device.
#[derive(Drop)]
pub struct History {
    /// Its records, ascending by table, key, commit stamp, and name.
    pub records: Vec<HistoryRecord>,
    /// Where its blocks stand: the inner pages, from the root down, and then the leaves.
    pub addrs: Vec<Addr>,
}

/// The history that a root leads to, and where its blocks stand: no records and no blocks where the
/// root leads nowhere. `Corrupt` comes only where the device has no such history: with the offset and
/// the sum of the address of the first block at fault, from the root down, and the sum that the block
/// has, or the same sum twice where that is not at fault; with the root's address where a version of a
/// key stands in two leaves. `DiskFault` comes only where the disk has counted a fault, and the last
/// refusal there is, is want of memory. `O(bytes)` of the history, each block read once.
pub fn read_history<D: Disk>(alloc: Global, disk: &mut D, root: Root) -> Result<History, Refusal>
    ensures ok { IsTrue (D.honest disk.old) → IfOk result (IsRead (D.seen disk.old) root) }
    ensures err { IfErr result (Refused (Rose (D.faults disk.old) (D.faults disk.new)) (IsTrue (D.honest disk.old)) (HistorySpoils (D.seen disk.old) root)) }
    ensures looked { Looked D.Disk disk.old disk.new }
    ensures home { D.home disk.new ≡ D.home disk.old }
{
    let upper = match read_upper(alloc, disk, root) {
        Ok(upper) => upper,
        Err(refusal) => return Err(refusal),
    };
    let records = match read_leaves(alloc, disk, &upper.entries) {
        Ok(records) => records,
        Err(refusal) => return Err(refusal),
    };
    if !names_differ(&records) {
        return Err(spoilt(root.link.addr));
    }
    let mut addrs = upper.addrs;
    append_leaves(&mut addrs, &upper.entries)?;
    Ok(History { records, addrs })
}
