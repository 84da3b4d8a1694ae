//! The engine on a checkpoint that was surveyed.

ghost use Rattle.std.specs.Prelude.{◌≡◌, ℕ, ◌+◌, ◌^◌, ◌<◌, List, length, false, IfErr, IfOk, IsTrue};
ghost use Rattle.limits.specs.declared.TheConstants.{TABLES_MAX};
ghost use Rattle.disk_model.specs.Crash.{Looked};
ghost use Rattle.kv_model.specs.Content.{Content, IsLayered};
ghost use Rattle.stored.specs.Stored.{Reads};
ghost use Rattle.device_leaf.specs.Openings.{last_number};
ghost use Rattle.recover_open.specs.Bare.{marks_of};
ghost use Rattle.recover_open.specs.Wholes.{SurveysWhole, WholeInForm};
ghost use Rattle.engine_store.specs.Found.{IsFound, RefusesBegin};
ghost use Rattle.engine_store.specs.Opened.{IsOutset, IsReady, LacksNumbers, SpoilsAreThere};

use crate::by_place::trees_by_place;
use crate::eviction::Clock;
use crate::frames::Frames;
use crate::marked::{bring_marked, keep_marked};
use crate::places::trees_over;
use crate::store::Store;
use crate::tables::with_entries;
use checkpoint_record::{Record, TableRoot, records_are_recorded};
use ckpt_step::{Ground, Lives};
use device_leaf::Place;
use disk_model::Disk;
use engine_start::{bare_leaves_start, leaves_have_cells, start};
use hist_open::History;
use kept_open::{keep_history, read_histories_fit, rows_open};
use leaf_rows::Marks;
use limits::{NUMBER_MAX, TABLES_MAX};
use recover_open::Whole;
use stamp::Name;
use std::alloc::Global;
use stored::what_is_read_is_regular;
use wt_code::{Limit, Refusal};

/// An engine on what was surveyed, and what the next checkpoint stands on. Its leaves are in no frame,
/// but for those of which an opening may take something out. Refused where no run may follow that of
/// the record, where its next number leaves none for as many tables as an engine may have, for want of
/// memory, and as those leaves are.
pub(crate) fn store_above<D: Disk>(
    alloc: Global,
    disk: &mut D,
    place: Place,
    whole: Whole,
    frames: Frames,
) -> Result<Store, Refusal>
    requires { WholeInForm whole }
    ensures found { IsTrue (D.honest disk.old) → SurveysWhole (D.seen disk.old) place whole → (content : Content) → Reads (D.seen disk.old) content → IsLayered content → IfOk result (IsFound (D.seen disk.old)) }
    ensures spoils { IsTrue (D.honest disk.old) → SurveysWhole (D.seen disk.old) place whole → IfOk result (SpoilsAreThere (D.seen disk.old)) }
    ensures outset { IfOk result (λ s. IsOutset s.engine.hub) }
    ensures ready { IfOk result IsReady }
    ensures frames { IfOk result (λ s. s.frames ≡ frames) }
    ensures sessions { IfOk result (λ s. length s.engine.sessions ≡ 0) }
    ensures err { IfErr result (RefusesBegin D.Disk whole disk.old disk.new) }
    ensures looked { Looked D.Disk disk.old disk.new }
    ensures home { D.home disk.new ≡ D.home disk.old }
{
    if run_of(&whole.record) >= NUMBER_MAX {
        return Err(Refusal::Limit(Limit::Checkpoints));
    }
    if !has_numbers(&whole.record) {
        return Err(Refusal::Limit(Limit::Tables));
    }
    records_are_recorded();
    what_is_read_is_regular();
    read_histories_fit();
    leaves_have_cells();
    bare_leaves_start();
    rows_open();
    let Whole {
        record,
        uppers,
        history,
    } = whole;
    let marks = marks_of(&record);
    let number = number_of(&record);
    let next_table = next_table_of(&record);
    let trees = trees_over(alloc, tables_of(&record), &uppers)?;
    let trees = trees_by_place(alloc, tables_of(&record), trees)?;
    let (tables, ids) = into_parts(record);
    let tables = with_entries(alloc, tables, uppers)?;
    let mut engine = start(alloc, marks, next_table, tables)?;
    let History { records, addrs } = history;
    let mut kept = keep_history(alloc, records, &marks, &ids, engine.leaves())?;
    match bring_marked(alloc, disk, &mut kept, &mut engine, marks, &ids) {
        Ok(()) => {
            // What holds of the leaves of every engine holds of these.
            engine.leaves();
            let parts = keep_marked(alloc, &engine, &marks)?;
            Ok(Store {
                engine,
                ground: Ground {
                    place,
                    number,
                    trees,
                    parts,
                    lives: Lives::new(alloc),
                    history: addrs,
                    kept,
                    floor: Name { run: 0, id: 0 },
                },
                running: None,
                frames,
                clock: Clock::new(),
            })
        }
        Err(refusal) => Err(refusal),
    }
}

// Whether the next number leaves some for as many tables as an engine may have.
fn has_numbers(found: &Record) -> bool
    ensures yes { IsTrue result → found.now.next_table + TABLES_MAX < 2 ^ 32 + length found.now.tables }
    ensures no { result ≡ false → LacksNumbers found.now }
{
    let next = next_table_of(found) as u64;
    let count = tables_of(found).len() as u64;
    next + (TABLES_MAX as u64) < (1 << 32) + count
}

fn marks_of(found: &Record) -> Marks
    ensures { result ≡ marks_of found.now }
{
    let snapshot = &found.snapshot;
    Marks {
        run: found.run,
        oldest: found.oldest,
        stable: found.stable,
        min: snapshot.min,
        max: snapshot.max,
    }
}

fn run_of(found: &Record) -> u64
    ensures { result ≡ found.now.run }
{
    found.run
}

fn number_of(found: &Record) -> u64
    ensures { result ≡ found.now.sequence }
{
    found.sequence
}

fn next_table_of(found: &Record) -> u32
    ensures { result ≡ found.now.next_table }
{
    found.next_table
}

fn tables_of(found: &Record) -> &[TableRoot]
    ensures { result.now ≡ found.now.tables }
{
    &found.tables
}

// Its tables, and the ids that had not ended when the checkpoint started.
fn into_parts(found: Record) -> (Vec<TableRoot>, Vec<u64>)
    ensures tables { result.0.items ≡ found.tables }
    ensures ids { result.1.items ≡ found.snapshot.ids }
{
    (found.tables, found.snapshot.ids)
}
