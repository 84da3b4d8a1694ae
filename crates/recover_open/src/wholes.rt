// What a device has of its last completed checkpoint and its history, but for the leaves of the tables.
ghost use Rattle.std.specs.Prelude.{◌≡◌, IfOk, IfErr, IsTrue};
ghost use Rattle.failure.specs.Counts.{Rose};
ghost use Rattle.disk_model.specs.Crash.{Looked};
ghost use Rattle.device_leaf.specs.Damage.{IsChosen};
ghost use Rattle.tree_open.specs.Damage.{Refused};
ghost use Rattle.recover_open.specs.Surveys.{IsOfDisk};
ghost use Rattle.recover_open.specs.Wholes.{IsSurveyedWhole, InFormWhole, IsWholeDamage, CanSurveyWhole, HasWhole, IsJoined};

use crate::books::whole_books;
use crate::record::{any_record_at, history_of, tables_of};
use crate::surveying::{blank, length};
use crate::uppers::read_uppers;
use block_mgr::Blocks;
use checkpoint_record::Record;
use device_leaf::Place;
use disk_model::Disk;
use hist_open::{History, read_history};
use std::alloc::Global;
use tree_open::Upper;
use turtle::{Slot, choose};
use wt_code::Refusal;

/// What the last completed checkpoint has above the leaves of its tables, and its history.
#[derive(Drop)]
pub struct Whole {
    /// Its record.
    pub record: Record,
    /// By table, in the record's order: what its tree has above its leaves.
    pub uppers: Vec<Upper>,
    /// Its history.
    pub history: History,
}

/// What a whole survey finds.
#[derive(Drop)]
pub struct SurveyedWhole {
    /// Where it stands.
    pub place: Place,
    /// None where no checkpoint was completed.
    pub whole: Option<Whole>,
}

/// Finds the last completed checkpoint, its history, and where all its blocks stand, and changes
/// nothing: no leaf of a table is read. `O(bytes)` of the record, the inner pages and the history,
/// each read once, and `O(n)` in the blocks.
///
/// `Corrupt` tells damage that the device has (`IsWholeDamage`), never of a leaf of a table: what can be
/// surveyed is refused for a fault of the disk or want of memory alone. It tells the offset of a slot,
/// with no sums, or of the block of the record, of an inner page or of the history, with the sum that
/// it should have and the sum that it has, or the same sum twice where that is not at fault. A block
/// that cannot be in use beside those before it is told with its sum twice, in the order of the
/// record, the trees by table, the inner pages of each from the root down before its leaves, and the
/// history likewise.
pub fn survey_whole<D: Disk>(alloc: Global, disk: &mut D) -> Result<SurveyedWhole, Refusal>
    ensures ok { IsTrue (D.honest disk.old) → IfOk result (IsSurveyedWhole (D.seen disk.old)) }
    ensures form { IfOk result (λ o. InFormWhole o.whole) }
    ensures err { IfErr result (Refused (Rose (D.faults disk.old) (D.faults disk.new)) (IsTrue (D.honest disk.old)) (IsWholeDamage (D.seen disk.old))) }
    ensures sole { IsTrue (D.honest disk.old) → CanSurveyWhole (D.seen disk.old) → IfErr result IsOfDisk }
    ensures looked { Looked D.Disk disk.old disk.new }
    ensures home { D.home disk.new ≡ D.home disk.old }
{
    match choose(disk) {
        Err(refusal) => Err(refusal),
        Ok(None) => Ok(SurveyedWhole {
            place: blank(alloc).place,
            whole: None,
        }),
        Ok(Some(slot)) => whole_at(alloc, disk, slot),
    }
}

// The checkpoint whose record a slot names.
fn whole_at<D: Disk>(alloc: Global, disk: &mut D, slot: Slot) -> Result<SurveyedWhole, Refusal>
    ensures ok { IsTrue (D.honest disk.old) → IsChosen (D.seen disk.old) slot → IfOk result (IsSurveyedWhole (D.seen disk.old)) }
    ensures form { IfOk result (λ o. InFormWhole o.whole) }
    ensures err { IfErr result (Refused (Rose (D.faults disk.old) (D.faults disk.new)) (IsTrue (D.honest disk.old) × IsChosen (D.seen disk.old) slot) (IsWholeDamage (D.seen disk.old))) }
    ensures sole { IsTrue (D.honest disk.old) → HasWhole (D.seen disk.old) slot → IfErr result IsOfDisk }
    ensures looked { Looked D.Disk disk.old disk.new }
    ensures home { D.home disk.new ≡ D.home disk.old }
{
    let found = match any_record_at(alloc, disk, slot) {
        Ok(found) => found,
        Err(refusal) => return Err(refusal),
    };
    let tables = tables_of(&found);
    let uppers = match read_uppers(alloc, disk, tables) {
        Ok(uppers) => uppers,
        Err(refusal) => return Err(refusal),
    };
    let history = match read_history(alloc, disk, history_of(&found)) {
        Ok(history) => history,
        Err(refusal) => return Err(refusal),
    };
    let len = match length(disk) {
        Ok(len) => len,
        Err(refusal) => return Err(refusal),
    };
    let blocks = match whole_books(alloc, slot, &uppers, &history.addrs, len) {
        Ok(blocks) => blocks,
        Err(refusal) => return Err(refusal),
    };
    Ok(joined(slot, found, uppers, history, blocks))
}

fn joined(
    slot: Slot,
    found: Record,
    uppers: Vec<Upper>,
    history: History,
    blocks: Blocks,
) -> SurveyedWhole
    ensures { IsJoined slot found uppers.items history blocks result }
{
    SurveyedWhole {
        place: Place {
            slot: Some(slot),
            blocks,
        },
        whole: Some(Whole {
            record: found,
            uppers,
            history,
        }),
    }
}
