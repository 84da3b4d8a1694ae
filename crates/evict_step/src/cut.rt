//! What a leaf is cut into.

ghost use Rattle.std.specs.Prelude.{◌≡◌, None, MatchOption, option_copied, option_map, IfOk, IfSome};
ghost use Rattle.reconcile.specs.Capture.{ChainsFit};
ghost use Rattle.evict_step.specs.Cuts.{AllOfEnded, IsCutOf, IsCutOut, IsOfUnended, TellsUnended, held_in};

use crate::held::unresolved_in;
use engine::{Local, RunningCheckpoint, Stays};
use failure::NoMemory;
use leaf_frame::LeafFrame;
use reconcile::{Live, Made, keys_are_reconciled};
use std::alloc::Global;
use txn_table::ended_are_seen;

/// What a leaf is cut into.
#[derive(Drop)]
pub enum CutOut {
    /// It may not be evicted at this moment.
    Stays(Stays),
    /// It holds a version of the transaction of this id, which has not ended: the least such that has
    /// an update in it.
    Unresolved(u64),
    /// The images of its rows, in the order of their keys, none where no key is held; and the older
    /// versions that may still be wanted, which move to the history.
    Images(Made),
}

/// Cuts the leaf of this id into the images that are written where it is evicted: the newest version
/// of each key, a removal too; and into the older versions that move to the history, those too that the
/// checkpoint can want that runs, if one does. Nothing is changed. The error is want of memory.
/// `O(rows + updates + bytes)`, and `O(n log n)` in the sessions.
pub fn cut_out(
    alloc: Global,
    engine: &Local,
    running: Option<&RunningCheckpoint>,
    leaf: u64,
) -> Result<CutOut, NoMemory>
    ensures { IfOk result (λ out. IsCutOut engine.now (option_copied running.entry) leaf out) }
{
    keys_are_reconciled();
    if let Some(why) = engine.why_it_stays(leaf) {
        return Ok(CutOut::Stays(why));
    }
    match frame_of(engine, leaf) {
        None => Ok(CutOut::Stays(Stays::Away)),
        Some(frame) => cut(alloc, engine, running, frame),
    }
}

/// The least id of a transaction that has not ended and has an update in the leaf of this id, which is in
/// a frame; where none has, one that has a row there; else none. The error is want of memory.
/// `O(rows + updates)`, and `O(n log n)` in the sessions.
pub fn unended_in(alloc: Global, engine: &Local, leaf: u64) -> Result<Option<u64>, NoMemory>
    ensures { IfOk result (λ told. TellsUnended engine.now leaf told) }
{
    match frame_of(engine, leaf) {
        None => Ok(None),
        Some(frame) => unended_at(alloc, engine, frame),
    }
}

// The same of a leaf in a frame.
fn unended_at(alloc: Global, engine: &Local, leaf: &LeafFrame) -> Result<Option<u64>, NoMemory>
    ensures { IfOk result (λ told. MatchOption told (AllOfEnded engine.now leaf.now) (IsOfUnended engine.now leaf.now)) }
{
    ended_are_seen();
    let live = engine.checkpoint_snapshot(alloc)?;
    Ok(unresolved_in(leaf, &live))
}

// The leaf of this id in its frame.
fn frame_of(engine: &Local, leaf: u64) -> Option<&LeafFrame>
    ensures is { option_map (λ l. l.now) result ≡ held_in engine.now leaf }
    ensures fit { IfSome result (λ l. ChainsFit l.now.chains) }
{
    let framed = engine.leaves().frame(leaf)?;
    engine.leaf_in(framed.frame)
}

// Cuts a leaf that is in a frame of this engine.
fn cut(
    alloc: Global,
    engine: &Local,
    running: Option<&RunningCheckpoint>,
    leaf: &LeafFrame,
) -> Result<CutOut, NoMemory>
    requires fit { ChainsFit leaf.now.chains }
    ensures { IfOk result (λ out. IsCutOf engine.now (option_copied running.entry) leaf.now out) }
{
    ended_are_seen();
    let live = engine.checkpoint_snapshot(alloc)?;
    if let Some(id) = unresolved_in(leaf, &live) {
        return Ok(CutOut::Unresolved(id));
    }
    let horizon = engine.horizon(running);
    // Its rows fit, so each that moves does.
    let _page = leaf.page();
    let made = leaf.reconcile(alloc, Live::All, horizon.pin, horizon.floor)?;
    Ok(CutOut::Images(made))
}
