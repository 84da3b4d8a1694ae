// What a device has of its last completed checkpoint, but for the leaves.
ghost use Rattle.std.specs.Prelude.{◌≡◌, length, IfOk, IfErr, IsTrue};
ghost use Rattle.failure.specs.Counts.{Rose};
ghost use Rattle.disk_model.specs.Crash.{Looked};
ghost use Rattle.device_leaf.specs.Damage.{IsChosen};
ghost use Rattle.recover_open.specs.Surveys.{CanSurvey, HasAbove, IsOfDisk, IsSurveyed, InFormAbove, RefusesSurvey, IsBlankSurvey, IsPutTogether};

use crate::books::books;
use crate::record::{record_at, tables_of};
use crate::uppers::read_uppers;
use block_mgr::Blocks;
use checkpoint_record::Record;
use device_leaf::Place;
use disk_model::Disk;
use std::alloc::Global;
use tree_open::Upper;
use turtle::{Slot, choose};
use wt_code::Refusal;

/// What the last completed checkpoint has above the leaves.
#[derive(Drop)]
pub struct Above {
    /// Its record.
    pub record: Record,
    /// By table, in the record's order: what its tree has above its leaves.
    pub uppers: Vec<Upper>,
}

/// What a survey finds.
#[derive(Drop)]
pub struct Surveyed {
    /// Where it stands.
    pub place: Place,
    /// None where no checkpoint was completed.
    pub above: Option<Above>,
}

/// Finds the last completed checkpoint, and where all its blocks stand, and changes nothing: no leaf
/// is read. `O(bytes)` of the record and the inner pages, each read once, and `O(n)` in the blocks.
///
/// `75 limit image` comes only where the checkpoint has a history. `Corrupt` tells damage that the
/// device has (`IsDamage`), never of a leaf: what can be surveyed is refused for a fault of the disk
/// or want of memory alone. It tells the offset of a slot, with no sums, or of the block of the record or of
/// an inner page, with the sum that it should have and the sum that it has, or the same sum twice
/// where that is not at fault. A block that cannot be in use beside those before it is told with its
/// sum twice, in the order of the record and then the trees by table, the inner pages of each from
/// the root down before its leaves.
pub fn survey<D: Disk>(alloc: Global, disk: &mut D) -> Result<Surveyed, Refusal>
    ensures ok { IsTrue (D.honest disk.old) → IfOk result (IsSurveyed (D.seen disk.old)) }
    ensures form { IfOk result (λ o. InFormAbove o.above) }
    ensures err { IfErr result (RefusesSurvey D.Disk (IsTrue (D.honest disk.old)) disk.old disk.new) }
    ensures sole { IsTrue (D.honest disk.old) → CanSurvey (D.seen disk.old) → IfErr result IsOfDisk }
    ensures looked { Looked D.Disk disk.old disk.new }
    ensures home { D.home disk.new ≡ D.home disk.old }
{
    match choose(disk) {
        Err(refusal) => Err(refusal),
        Ok(None) => Ok(blank(alloc)),
        Ok(Some(slot)) => survey_at(alloc, disk, slot),
    }
}

// Where no checkpoint was completed.
pub(crate) fn blank(alloc: Global) -> Surveyed
    ensures { IsBlankSurvey result }
{
    let blocks = Blocks::new(alloc);
    Surveyed {
        place: Place { slot: None, blocks },
        above: None,
    }
}

// The checkpoint whose record a slot names.
fn survey_at<D: Disk>(alloc: Global, disk: &mut D, slot: Slot) -> Result<Surveyed, Refusal>
    ensures ok { IsTrue (D.honest disk.old) → IsChosen (D.seen disk.old) slot → IfOk result (IsSurveyed (D.seen disk.old)) }
    ensures form { IfOk result (λ o. InFormAbove o.above) }
    ensures err { IfErr result (RefusesSurvey D.Disk (IsTrue (D.honest disk.old) × IsChosen (D.seen disk.old) slot) disk.old disk.new) }
    ensures sole { IsTrue (D.honest disk.old) → HasAbove (D.seen disk.old) slot → IfErr result IsOfDisk }
    ensures looked { Looked D.Disk disk.old disk.new }
    ensures home { D.home disk.new ≡ D.home disk.old }
{
    let found = match record_at(alloc, disk, slot) {
        Ok(found) => found,
        Err(refusal) => return Err(refusal),
    };
    let tables = tables_of(&found);
    let uppers = match read_uppers(alloc, disk, tables) {
        Ok(uppers) => uppers,
        Err(refusal) => return Err(refusal),
    };
    let len = match length(disk) {
        Ok(len) => len,
        Err(refusal) => return Err(refusal),
    };
    let blocks = match books(alloc, slot, &uppers, len) {
        Ok(blocks) => blocks,
        Err(refusal) => return Err(refusal),
    };
    Ok(put_together(slot, found, uppers, blocks))
}

pub(crate) fn length<D: Disk>(disk: &mut D) -> Result<u64, Refusal>
    ensures len { IsTrue (D.honest disk.old) → IfOk result (λ n. n ≡ length (D.seen disk.old)) }
    ensures err { IfErr result (λ r. (r ≡ Refusal.DiskFault) × Rose (D.faults disk.old) (D.faults disk.new)) }
    ensures looked { Looked D.Disk disk.old disk.new }
    ensures home { D.home disk.new ≡ D.home disk.old }
{
    match disk.len() {
        Ok(len) => Ok(len),
        Err(_) => Err(Refusal::DiskFault),
    }
}

fn put_together(slot: Slot, found: Record, uppers: Vec<Upper>, blocks: Blocks) -> Surveyed
    ensures { IsPutTogether slot found uppers.items blocks result }
{
    Surveyed {
        place: Place {
            slot: Some(slot),
            blocks,
        },
        above: Some(Above {
            record: found,
            uppers,
        }),
    }
}
