//! The older versions of all leaves.

ghost use Rattle.std.specs.Prelude.{◌≡◌, List, Some, length, true, IfOk, OnOk};
ghost use Rattle.kv_model.specs.History.{Table, has_table};
ghost use Rattle.kv_model.specs.Machine.{Checkpoint};
ghost use Rattle.kv_model.specs.Reconciling.{PrefixHasEnded};
ghost use Rattle.tree_dir.specs.Leaves.{leaves_of};
ghost use Rattle.engine_world.specs.Stands.{Stands};
ghost use Rattle.engine_world.specs.Worlds.{World};
ghost use Rattle.engine.specs.Running.{IsRunning};
ghost use Rattle.evict_step.specs.Kept.{KeepsThese};
ghost use Rattle.hist_store.specs.Versions.{versions_of};
ghost use Rattle.hist_pages.specs.Records.{Fits};
ghost use Rattle.ckpt_content.specs.Finished.{tables_then};
ghost use Rattle.hist_gather.specs.Added.{AreAmong, AreKnown, HasMore, IsAmong};
ghost use Rattle.hist_gather.specs.Sources.{HaveTaken, IsTaken, OfLeaves, OfPlace, OfPlaces, ended_sight};

use crate::adding::add_all;
use crate::leaf::older_of;
use crate::source::Source;
use engine::{Local, RunningCheckpoint};
use evict_step::Kept;
use failure::NoMemory;
use hist_store::Hist;
use kv_model::{adds_hold, captures_are_held, leaves_are_held};
use reconcile::keys_are_reconciled;
use std::alloc::Global;
use txn_table::ended_are_seen;

/// The older versions that the running checkpoint writes as the history, if it is finished now, of the
/// tables that stood as it started: of leaves that are in frames what lies below the newest version of
/// each key whose transaction has ended, and is in reach; of any other what is kept of it. Nothing is
/// changed. The error is want of memory. `O(n)` in the leaves, `O(rows + updates + bytes)` of those in
/// frames that have updates, and `O(log k)` comparisons for each of these versions, which are copied,
/// with k keys that have some.
pub fn gather(
    alloc: Global,
    engine: &Local,
    kept: &Kept,
    running: &RunningCheckpoint,
) -> Result<Hist, NoMemory>
    ensures taken { IfOk result (λ slots. (w : World) (c : Checkpoint) → Stands engine.now w → KeepsThese w kept.now → w.machine.checkpoint ≡ Some c → IsRunning w.machine c running.now → HaveTaken w c engine.now (λ table key. versions_of table key slots)) }
    ensures known { IfOk result (λ slots. (w : World) (c : Checkpoint) → Stands engine.now w → w.machine.checkpoint ≡ Some c → IsRunning w.machine c running.now → AreKnown (tables_then w.machine c) slots) }
    ensures fit { IfOk result (λ slots. Fits slots) }
{
    ended_are_seen();
    let snapshot = engine.checkpoint_snapshot(alloc)?;
    let from = Source {
        engine,
        kept,
        snapshot: &snapshot,
        horizon: engine.horizon(Some(running)),
    };
    gather_from(alloc, from, running.tables)
}

// The same of the first tables, with a snapshot that sees what has ended, and with what is out of reach.
// It calls the laws on which this rests.
fn gather_from(alloc: Global, from: Source<'_>, tables: u32) -> Result<Hist, NoMemory>
    ensures taken { IfOk result (λ slots. (w : World) (c : Checkpoint) → Stands from.entry.engine.now w → KeepsThese w from.entry.kept.now → w.machine.checkpoint ≡ Some c → PrefixHasEnded w.machine c → tables ≡ length (tables_then w.machine c) → from.entry.snapshot.now.sight ≡ ended_sight from.entry.engine.now → IsTaken w.machine from.entry.snapshot.now.sight from.entry.horizon → HaveTaken w c from.entry.engine.now (λ table key. versions_of table key slots)) }
    ensures known { IfOk result (λ slots. (known : List Table) → AreAmong from.entry.engine.now.hub.tables.tables tables known → AreKnown known slots) }
    ensures fit { IfOk result (λ slots. Fits slots) }
{
    keys_are_reconciled();
    captures_are_held();
    leaves_are_held();
    adds_hold();
    let mut history = Hist::new(alloc);
    add_tables(alloc, from, tables, &mut history)?;
    Ok(history)
}

// Adds the older versions of the leaves of each of the first tables.
fn add_tables(
    alloc: Global,
    from: Source<'_>,
    tables: u32,
    history: &mut Hist,
) -> Result<(), NoMemory>
    ensures more { OnOk result (HasMore (OfPlaces from.entry tables) history.old history.new) }
    ensures known { OnOk result ((known : List Table) → AreAmong from.entry.engine.now.hub.tables.tables tables known → AreKnown known history.old → AreKnown known history.new) }
    ensures fit { OnOk result (Fits history.old → Fits history.new) }
{
    for place in 0..tables {
        add_table(alloc, from, place, history)?;
    }
    Ok(())
}

// Adds those of the leaves of the table at a place.
fn add_table(
    alloc: Global,
    from: Source<'_>,
    place: u32,
    history: &mut Hist,
) -> Result<(), NoMemory>
    ensures more { OnOk result (HasMore (OfPlace from.entry place) history.old history.new) }
    ensures known { OnOk result ((known : List Table) → IsAmong from.entry.engine.now.hub.tables.tables place known → AreKnown known history.old → AreKnown known history.new) }
    ensures fit { OnOk result (Fits history.old → Fits history.new) }
{
    match from.engine.tables().table(place) {
        None => Ok(()),
        Some(table) => add_leaves(alloc, from, table.number, history),
    }
}

// Adds those of the leaves of the table of this number.
fn add_leaves(
    alloc: Global,
    from: Source<'_>,
    table: u32,
    history: &mut Hist,
) -> Result<(), NoMemory>
    ensures more { OnOk result (HasMore (OfLeaves from.entry table (leaves_of table from.entry.engine.now.hub.dir.leaves)) history.old history.new) }
    ensures known { OnOk result ((tables : List Table) → has_table tables table ≡ true → AreKnown tables history.old → AreKnown tables history.new) }
    ensures fit { OnOk result (Fits history.old → Fits history.new) }
{
    let mut leaves = from.engine.leaves().leaves_of(table);
    while let Some(leaf) = leaves.next_leaf() {
        let older = older_of(alloc, from, leaf)?;
        add_all(alloc, table, older, history)?;
    }
    Ok(())
}
