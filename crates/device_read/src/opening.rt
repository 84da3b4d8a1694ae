//! How a reader is opened.

ghost use Rattle.std.specs.Prelude.{◌≡◌, ◌+◌, ◌^◌, ◌<◌, length, false, IfOk, IfErr, IsTrue, OnOk};
ghost use Rattle.limits.specs.declared.TheConstants.{TABLES_MAX};
ghost use Rattle.disk_model.specs.Crash.{Looked};
ghost use Rattle.stored.specs.Stored.{IsOn, Stored};
ghost use Rattle.recover_open.specs.Bare.{marks_of};
ghost use Rattle.recover_open.specs.Wholes.{WholeInForm};
ghost use Rattle.device_read.specs.Readers.{HoldsNothing, IsReaderOf, held_of};
ghost use Rattle.device_read.specs.Refusals.{HasNumbers, LacksNumbers, RefusesOpen};
ghost use Rattle.device_read.specs.Steps.{CanOpen, HasNumbersAbove, RefusesNumbers, RefusesSurveyed};

use crate::newest::newest_kept;
use crate::reader::Reader;
use checkpoint_record::{Record, Snapshot, TableRoot};
use disk_model::Disk;
use failure::NoMemory;
use hist_open::History;
use leaf_rows::Marks;
use limits::{NUMBER_MAX, TABLES_MAX};
use recover_open::{SurveyedWhole, Whole, survey_whole};
use std::alloc::Global;
use wt_code::{Limit, Refusal};

/// A reader of the last completed checkpoint of a device, of no tables where there is none. No leaf of a
/// table is read, and nothing is written. Refused as `recover_open::survey_whole` says, as
/// `75 limit checkpoints` where no run may follow the one that made the checkpoint, and as
/// `75 limit tables` where the record's next number leaves none for as many tables as an engine may
/// have. Where the device has all that stands above its leaves, and its history, damage is no reason.
/// `O(bytes)` of the record, the inner pages and the history, each read once, and `O(n)` in the blocks
/// and in the records.
pub fn open<D: Disk>(alloc: Global, disk: &mut D) -> Result<Reader, Refusal>
    ensures ok { IsTrue (D.honest disk.old) → IfOk result (IsReaderOf (D.seen disk.old)) }
    ensures numbers { IsTrue (D.honest disk.old) → OnOk result ((s : Stored) → IsOn (D.seen disk.old) s → HasNumbers s.kept) }
    ensures surveyed { IsTrue (D.honest disk.old) → OnOk result (HasNumbersAbove (D.seen disk.old)) }
    ensures err { IfErr result (RefusesOpen D.Disk (IsTrue (D.honest disk.old)) disk.old disk.new) }
    ensures sole { IsTrue (D.honest disk.old) → CanOpen (D.seen disk.old) → IfErr result (RefusesSurveyed (D.seen disk.old)) }
    ensures looked { Looked D.Disk disk.old disk.new }
    ensures home { D.home disk.new ≡ D.home disk.old }
{
    let SurveyedWhole { place: _, whole } = match survey_whole(alloc, disk) {
        Ok(found) => found,
        Err(refusal) => return Err(refusal),
    };
    match whole {
        Some(whole) => match check_numbers(&whole.record) {
            Ok(()) => match reader_of(alloc, whole) {
                Ok(reader) => Ok(reader),
                Err(NoMemory) => Err(Refusal::NoMemory),
            },
            Err(refusal) => Err(refusal),
        },
        None => Ok(nothing(alloc)),
    }
}

// Whether an engine could begin with this record.
fn check_numbers(found: &Record) -> Result<(), Refusal>
    ensures ok { OnOk result (HasNumbers found.now) }
    ensures err { IfErr result (RefusesNumbers found.now) }
{
    if found.run >= NUMBER_MAX {
        return Err(Refusal::Limit(Limit::Checkpoints));
    }
    if has_numbers(found) {
        Ok(())
    } else {
        Err(Refusal::Limit(Limit::Tables))
    }
}

// Whether the next number leaves some for as many tables as an engine may have.
fn has_numbers(found: &Record) -> bool
    ensures yes { IsTrue result → found.now.next_table + TABLES_MAX < 2 ^ 32 + length found.now.tables }
    ensures no { result ≡ false → LacksNumbers found.now }
{
    let next = next_table_of(found) as u64;
    let count = tables_of(found).len() as u64;
    next + (TABLES_MAX as u64) < (1 << 32) + count
}

fn next_table_of(found: &Record) -> u32
    ensures { result ≡ found.now.next_table }
{
    found.next_table
}

fn tables_of(found: &Record) -> &[TableRoot]
    ensures { result.now ≡ found.now.tables }
{
    &found.tables
}

// Where no checkpoint was completed.
fn nothing(alloc: Global) -> Reader
    ensures { HoldsNothing result }
{
    Reader {
        tables: Vec::new(alloc),
        uppers: Vec::new(alloc),
        marks: Marks {
            run: 0,
            oldest: 0,
            stable: 0,
            min: 0,
            max: 0,
        },
        ids: Vec::new(alloc),
        newest: Vec::new(alloc),
    }
}

// The error is want of memory.
fn reader_of(alloc: Global, whole: Whole) -> Result<Reader, NoMemory>
    requires { WholeInForm whole }
    ensures { IfOk result (λ r. r ≡ held_of whole) }
{
    let Whole {
        record: found,
        uppers,
        history,
    } = whole;
    let History { records, addrs: _ } = history;
    let marks = marks_of(&found);
    let Record {
        tables,
        snapshot,
        ..
    } = found;
    let Snapshot { ids, .. } = snapshot;
    let newest = newest_kept(alloc, records, &marks, &ids)?;
    Ok(Reader {
        tables,
        uppers,
        marks,
        ids,
        newest,
    })
}

fn marks_of(found: &Record) -> Marks
    ensures { result ≡ marks_of found.now }
{
    let snapshot = &found.snapshot;
    Marks {
        run: found.run,
        oldest: found.oldest,
        stable: found.stable,
        min: snapshot.min,
        max: snapshot.max,
    }
}
