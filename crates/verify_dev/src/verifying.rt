// A device, read through.
ghost use Rattle.std.specs.Prelude.{◌≡◌, IfOk, IfErr, IfSome, IsTrue};
ghost use Rattle.failure.specs.Counts.{Rose};
ghost use Rattle.disk_model.specs.Crash.{Looked};
ghost use Rattle.stored.specs.Records.{IsRecord};
ghost use Rattle.tree_open.specs.Damage.{Refused};
ghost use Rattle.recover_open.specs.Wholes.{WholeInForm, IsWholeDamage};
ghost use Rattle.verify_dev.specs.Reports.{IsVerified, IsExamined, IsSurveyOf};

use crate::leaves::{check_all, with_records};
use crate::report::{Report, report_of, zero};
use checkpoint_record::Record;
use disk_model::Disk;
use failure::NoMemory;
use recover_open::{SurveyedWhole, Whole, survey_whole};
use std::alloc::Global;
use wt_code::Refusal;

/// What is found of a device that was read through.
#[derive(Drop)]
pub struct Examined {
    /// The record of its last completed checkpoint, None where there is none.
    pub record: Option<Record>,
    /// What that checkpoint has.
    pub report: Report,
}

/// Reads all that the last completed checkpoint of a device has, and counts it. Ok says that it is
/// there, and that the device reads as a content. Nothing is written. `O(bytes)`, each block read
/// once.
///
/// `Corrupt` tells damage that the device has (`IsWholeDamage`), as `recover_open` tells it and in its
/// order: what a whole survey tells first, then the first leaf of a table at fault. `DiskFault` comes only where the disk has counted a fault, and the
/// last refusal there is, is want of memory.
pub fn verify<D: Disk>(alloc: Global, disk: &mut D) -> Result<Report, Refusal>
    ensures ok { IsTrue (D.honest disk.old) → IfOk result (IsVerified (D.seen disk.old)) }
    ensures err { IfErr result (Refused (Rose (D.faults disk.old) (D.faults disk.new)) (IsTrue (D.honest disk.old)) (IsWholeDamage (D.seen disk.old))) }
    ensures looked { Looked D.Disk disk.old disk.new }
    ensures home { D.home disk.new ≡ D.home disk.old }
{
    match examine(alloc, disk) {
        Ok(found) => Ok(found.report),
        Err(refusal) => Err(refusal),
    }
}

/// The same, with the record of the checkpoint.
pub fn examine<D: Disk>(alloc: Global, disk: &mut D) -> Result<Examined, Refusal>
    ensures ok { IsTrue (D.honest disk.old) → IfOk result (IsExamined (D.seen disk.old)) }
    ensures form { IfOk result (λ o. IfSome o.record (λ r. IsRecord r)) }
    ensures err { IfErr result (Refused (Rose (D.faults disk.old) (D.faults disk.new)) (IsTrue (D.honest disk.old)) (IsWholeDamage (D.seen disk.old))) }
    ensures looked { Looked D.Disk disk.old disk.new }
    ensures home { D.home disk.new ≡ D.home disk.old }
{
    let SurveyedWhole { place: _, whole } = match survey_whole(alloc, disk) {
        Ok(found) => found,
        Err(refusal) => return Err(refusal),
    };
    match whole {
        Some(whole) => examine_from(alloc, disk, whole),
        None => Ok(Examined {
            record: None,
            report: zero(),
        }),
    }
}

// The checkpoint that was surveyed, with its leaves.
fn examine_from<D: Disk>(alloc: Global, disk: &mut D, whole: Whole) -> Result<Examined, Refusal>
    requires { WholeInForm whole }
    ensures ok { IsTrue (D.honest disk.old) → IsSurveyOf (D.seen disk.old) whole → IfOk result (IsExamined (D.seen disk.old)) }
    ensures form { IfOk result (λ o. IfSome o.record (λ r. IsRecord r)) }
    ensures err { IfErr result (Refused (Rose (D.faults disk.old) (D.faults disk.new)) (IsTrue (D.honest disk.old) × IsSurveyOf (D.seen disk.old) whole) (IsWholeDamage (D.seen disk.old))) }
    ensures looked { Looked D.Disk disk.old disk.new }
    ensures home { D.home disk.new ≡ D.home disk.old }
{
    let Whole {
        record: found,
        uppers,
        history,
    } = whole;
    let tally = match check_all(alloc, disk, &uppers) {
        Ok(tally) => tally,
        Err(refusal) => return Err(refusal),
    };
    let counted = match with_records(tally, &history.records) {
        Ok(counted) => counted,
        Err(NoMemory) => return Err(Refusal::NoMemory),
    };
    let report = report_of(&found, counted);
    Ok(Examined {
        record: Some(found),
        report,
    })
}
