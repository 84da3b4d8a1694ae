// The events on the piece of a frame.

ghost use Rattle.std.specs.Prelude.{◌≡◌};
ghost use Rattle.snapshot.specs.Sight.{IsSight, sight_of};
ghost use Rattle.call_steps.specs.FrameEvents.{FrameMade, LookMade, starts_at, edits, prev_in, with_prev, ordered};
ghost use Rattle.call_steps.specs.Leaves.{durable_of};
ghost use Rattle.call_steps.specs.State.{at_stage, leaving_in};
ghost use Rattle.call_steps.specs.Stages.{marks, stamps_then, undoes, after_stamps};
ghost use Rattle.kv_model.specs.Refusals.{or_stamp, stamp_of};

use crate::edit::Edit;
use crate::frame::FramePiece;
use crate::leaves::{edit_leaf, leaf_prev, leaf_start};
use crate::stage::{
    CommitStamps, KeyCall, Stage, Target, after_orders, after_stamps, marks, orders, stamps_then,
    undoes,
};
use crate::state::SessionState;
use crate::words::frame_at;
use stamp::{Name, View};
use std::alloc::Global;
use txn_table::Phase;
use wt_code::{Answer, Refusal};

/// The session's next event, which is on the piece of a frame; the view is its transaction's. A
/// look costs `O(log n)` comparisons with n keys and rows of the leaf, and a copy of the value that
/// it reads; what was written in a leaf is passed in `O(k)`, with k of its keys, and before a commit
/// in `O(log n)` more for each that has one update.
pub fn frame_event(alloc: Global, piece: &mut FramePiece, view: &View<'_>, state: &mut SessionState)
    requires { IsSight (sight_of view.now) }
    ensures { FrameMade view.now piece.old state.old piece.new state.new }
{
    match state.stage() {
        Stage::Look(call, target) => look(alloc, piece, view, state, call, target),
        Stage::Mark(stamp, left) => mark(piece, view, state, stamp, left),
        Stage::Order(stamps, left) => order(piece, state, stamps, left),
        Stage::Stamp(stamps, left) => stamp(piece, view, state, stamps, left),
        Stage::Undo(left) => undo(piece, view, state, left),
        _ => {}
    }
}

fn look(
    alloc: Global,
    piece: &mut FramePiece,
    view: &View<'_>,
    state: &mut SessionState,
    call: KeyCall,
    target: Target,
)
    requires { IsSight (sight_of view.now) }
    ensures { LookMade piece.old.frame call view.now target piece.old state.old piece.new state.new }
{
    match &mut piece.frame {
        None => state.answer(call, target, Answer::Refused(Refusal::Again { seen: 0 })),
        Some(frame) => state.look(alloc, &mut frame.leaf, view, call, target),
    }
}

fn mark(piece: &mut FramePiece, view: &View<'_>, state: &mut SessionState, stamp: u64, left: usize)
    ensures piece { piece.new ≡ edits view.now (Edit.Mark stamp) state.old left piece.old }
    ensures state { state.new ≡ at_stage (marks stamp (starts_at state.old left)) state.old }
{
    edit(piece, view, state, Edit::Mark(stamp), left);
    let start = starts_at(state, left);
    state.go_to(marks(stamp, start));
}

fn order(piece: &FramePiece, state: &mut SessionState, stamps: CommitStamps, left: usize)
    ensures { state.new ≡ ordered (with_prev stamps (prev_in piece.now.frame state.old left stamps.prev)) (starts_at state.old left) state.old }
{
    let prev = prev_in(piece, state, left, stamps.prev);
    let stamps = CommitStamps { prev, ..stamps };
    let start = starts_at(state, left);
    let after = after_orders(state.phase(), stamps, state.written.len());
    state.go_to(orders(stamps, start, after));
}

fn stamp(
    piece: &mut FramePiece,
    view: &View<'_>,
    state: &mut SessionState,
    stamps: CommitStamps,
    left: usize,
)
    ensures piece { piece.new ≡ edits view.now (Edit.Stamp (stamp_of stamps.commit) (durable_of state.old.phase stamps)) state.old left piece.old }
    ensures state { state.new ≡ at_stage (stamps_then stamps (starts_at state.old left) (after_stamps state.old.phase stamps)) state.old }
{
    let commit = stamps.commit.unwrap_or(0);
    let durable = durable_of(state.phase(), stamps);
    edit(piece, view, state, Edit::Stamp(commit, durable), left);
    let start = starts_at(state, left);
    let after = after_stamps(state.phase(), stamps);
    state.go_to(stamps_then(stamps, start, after));
}

fn undo(piece: &mut FramePiece, view: &View<'_>, state: &mut SessionState, left: usize)
    ensures piece { piece.new ≡ edits view.now Edit.Undo state.old left piece.old }
    ensures state { state.new ≡ at_stage (undoes (starts_at state.old left)) (leaving_in state.old.phase state.old) }
{
    edit(piece, view, state, Edit::Undo, left);
    let start = starts_at(state, left);
    state.begin_leaving();
    state.go_to(undoes(start));
}

// Edits what the transaction wrote in the leaf that ends the first `left` keys.
#[inline(always)]
fn edit(piece: &mut FramePiece, view: &View<'_>, state: &SessionState, edit: Edit, left: usize)
    ensures { piece.new ≡ edits view.now edit state.now left piece.old }
{
    let name = Name {
        run: view.run,
        id: view.own,
    };
    let keys = state.written.as_slice();
    if let Some(frame) = &mut piece.frame {
        edit_leaf(
            &mut frame.leaf,
            keys,
            frame_at(keys, left),
            left,
            name,
            edit,
        );
    }
}

// Where the keys of that leaf begin.
fn starts_at(state: &SessionState, left: usize) -> usize
    ensures { result ≡ starts_at state.now left }
{
    let keys = state.written.as_slice();
    leaf_start(keys, frame_at(keys, left), left)
}

// The greatest durable stamp below what the transaction wrote in that leaf, or the one from before.
fn prev_in(piece: &FramePiece, state: &SessionState, left: usize, prev: u64) -> u64
    ensures { result ≡ prev_in piece.now.frame state.now left prev }
{
    let keys = state.written.as_slice();
    match &piece.frame {
        None => prev,
        Some(frame) => leaf_prev(&frame.leaf, keys, frame_at(keys, left), left, prev),
    }
}

// The durable stamp of a commit: a transaction that is not prepared gives none.
fn durable_of(phase: Phase, stamps: CommitStamps) -> u64
    ensures { result ≡ durable_of phase stamps }
{
    let commit = stamps.commit.unwrap_or(0);
    match phase {
        Phase::Running => commit,
        _ => or_stamp(stamps.durable.unwrap_or(0), commit),
    }
}

fn or_stamp(stamp: u64, other: u64) -> u64
    ensures { result ≡ or_stamp stamp other }
{
    match stamp {
        0 => other,
        _ => stamp,
    }
}
