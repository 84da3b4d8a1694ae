//! The load of a leaf.

ghost use Rattle.std.specs.Prelude.{◌≡◌, [], option_map, IfOk, IfErr, IsTrue};
ghost use Rattle.failure.specs.Counts.{Rose};
ghost use Rattle.disk_model.specs.Crash.{Looked};
ghost use Rattle.leaf_rows.specs.Rows.{AreFit};
ghost use Rattle.tree_open.specs.Damage.{Refused};
ghost use Rattle.recover_open.specs.Leaves.{AreUnder};
ghost use Rattle.recover_open.specs.Damage.{EntrySpoils};
ghost use Rattle.leaf_load.specs.Loads.{IsLoaded, entry_of};

use crate::kept::keep_seen;
use crate::page::{read_page, spoilt};
use device_layout::Link;
use device_leaf::is_nowhere;
use disk_model::Disk;
use failure::NoMemory;
use leaf_frame::LeafFrame;
use leaf_rows::Marks;
use std::alloc::Global;
use wt_code::Refusal;

/// The leaf that a link leads to, as an opening keeps it: a page under no chains. Its keys are from
/// `low` up to `high`, where there is one; the marks are those of the checkpoint, and the ids those
/// that had not ended then. A link that is nowhere leads to a leaf that holds nothing. `Corrupt` comes
/// only where the device has no such leaf: with the sum that its block should have and the sum that
/// it has, or the same sum twice where that is not at fault. `O(bytes)`: the block is read once, and
/// is kept as the page where nothing is taken out.
pub fn load_leaf<D: Disk>(
    alloc: Global,
    disk: &mut D,
    link: Link,
    low: &[u8],
    high: Option<&[u8]>,
    marks: Marks,
    ids: &[u64],
) -> Result<LeafFrame, Refusal>
    ensures ok { let next = option_map (λ k. k.now) high.entry in IsTrue (D.honest disk.old) → IfOk result (IsLoaded (D.seen disk.old) (entry_of low.now link) next marks ids.now) }
    ensures keys { let next = option_map (λ k. k.now) high.entry in IfOk result (λ leaf. AreUnder (entry_of low.now link) next leaf.page) }
    ensures fit { IfOk result (λ leaf. AreFit leaf.page) }
    ensures bare { IfOk result (λ leaf. leaf.chains ≡ []) }
    ensures err { let next = option_map (λ k. k.now) high.entry in IfErr result (Refused (Rose (D.faults disk.old) (D.faults disk.new)) (IsTrue (D.honest disk.old)) (EntrySpoils (D.seen disk.old) (entry_of low.now link) next)) }
    ensures looked { Looked D.Disk disk.old disk.new }
    ensures home { D.home disk.new ≡ D.home disk.old }
{
    if link.addr.offset == 0 {
        return if is_nowhere(link) {
            Ok(LeafFrame::new(alloc))
        } else {
            Err(spoilt(link.addr))
        };
    }
    let page = match read_page(alloc, disk, link, low, high) {
        Ok(page) => page,
        Err(refusal) => return Err(refusal),
    };
    match keep_seen(alloc, page, marks, ids) {
        Ok(kept) => Ok(LeafFrame::of_page(alloc, kept)),
        Err(NoMemory) => Err(Refusal::NoMemory),
    }
}
