// What a session's next event is on, and the events on words.

ghost use Rattle.std.specs.Prelude.{◌≡◌, ◌+◌, None};
ghost use Rattle.call_steps.specs.Written.{frame_at};
ghost use Rattle.call_steps.specs.Stages.{cursor_in};
ghost use Rattle.call_steps.specs.State.{changed_at, unpinned, placed};
ghost use Rattle.call_steps.specs.Words.{unless_running, reset_word, missed_word, next_of, kept_out, unframed, validated, loaded, ends, landed, cleared, missed, reset, reset_or_refused, unpins, unpins_on, stored};

use crate::cursor::{Cursor, Position};
use crate::next::Next;
use crate::reply::Reply;
use crate::stage::{KeyCall, Stage, Target, Wanted};
use crate::state::{SessionState, first_pinned};
use crate::written::WrittenKey;
use std::alloc::Global;
use txn_table::Phase;
use wt_code::{Answer, Invalid, Refusal};

/// Why a call is refused in a phase, unless the transaction runs.
pub fn unless_running(phase: Phase) -> Option<Invalid>
    ensures { result ≡ unless_running phase }
{
    match phase {
        Phase::Idle => Some(Invalid::NoTxn),
        Phase::Running => None,
        Phase::Failed | Phase::Leaving => Some(Invalid::FailedTxn),
        Phase::Prepared(_) | Phase::Resolving => Some(Invalid::Prepared),
    }
}

impl SessionState {
    /// What its next event is on. `O(1)`.
    pub fn next(&self) -> Next
        ensures { result ≡ next_of self.now }
    {
        match self.stage {
            Stage::Rest => Next::Nothing,
            Stage::Begin(_)
            | Stage::Find(_)
            | Stage::Pass(_, _)
            | Stage::History(_, _)
            | Stage::Release(_)
            | Stage::Decide(_)
            | Stage::Resolve
            | Stage::Done => Next::Hub,
            Stage::Fill(_, wanted) => Next::Fill(wanted.leaf),
            Stage::Publish(_, target) => Next::Store(self.word, mark_of(target)),
            Stage::Validate(_, target) => Next::Load(target.frame),
            Stage::Look(_, target) => Next::Frame(target.frame),
            Stage::ClearCursor(call, _) => Next::Store(self.missed_word(call), 0),
            Stage::Clear(_, _) => Next::Store(self.word, 0),
            Stage::Reset(cursor) => Next::Store(self.reset_word(cursor), 0),
            Stage::Mark(_, left)
            | Stage::Order(_, left)
            | Stage::Stamp(_, left)
            | Stage::Undo(left) => Next::Frame(frame_at(self.written.as_slice(), left)),
            Stage::Unpin(cursor) => Next::Store(self.cursor_word(cursor), 0),
        }
    }

    // The word that a cursor's call clears first.
    fn missed_word(&self, call: KeyCall) -> u32
        ensures { result ≡ missed_word self.now (cursor_in call) }
    {
        match call.cursor() {
            None => self.word,
            Some(cursor) => self.cursor_word(cursor),
        }
    }

    // The word of a cursor that is reset; the call's, which is clear, where that is refused.
    fn reset_word(&self, cursor: u32) -> u32
        ensures { result ≡ reset_word self.now cursor }
    {
        match unless_running(self.phase) {
            None => self.cursor_word(cursor),
            Some(_) => self.word,
        }
    }

    /// The state word that was to be loaded was this. `O(1)`.
    pub fn loaded(&mut self, seen: u64)
        ensures { self.new ≡ loaded seen self.old }
    {
        match self.stage {
            Stage::Validate(call, target) => self.validated(call, target, seen),
            _ => {}
        }
    }

    fn validated(&mut self, call: KeyCall, target: Target, seen: u64)
        ensures { self.new ≡ validated call target seen self.old }
    {
        if seen == target.word {
            self.stage = Stage::Look(call, target);
        } else {
            self.clear(call, target, Answer::Refused(Refusal::Again { seen }));
        }
    }

    /// The leaf that the call waits for cannot be had: the call is refused so. Nothing is changed where
    /// it waits for none. `O(1)`.
    pub fn keep_out(&mut self, refusal: Refusal)
        ensures { self.new ≡ kept_out refusal self.old }
    {
        match self.stage {
            Stage::Fill(call, wanted) => {
                self.clear(call, unframed(wanted), Answer::Refused(refusal));
            }
            _ => {}
        }
    }

    /// The hazard word that was to be stored is stored. `O(1)`.
    pub fn stored(&mut self, alloc: Global) -> Reply
        ensures { (result, self.new) ≡ stored self.old }
    {
        match self.stage {
            Stage::Publish(call, target) => {
                self.stage = Stage::Validate(call, target);
                Reply::More
            }
            Stage::ClearCursor(call, target) => {
                self.missed(call, target);
                Reply::More
            }
            Stage::Clear(call, target) => self.cleared(alloc, call, target),
            Stage::Reset(cursor) => self.reset_or_refused(cursor),
            Stage::Unpin(cursor) => self.unpin(cursor),
            _ => Reply::More,
        }
    }

    fn missed(&mut self, call: KeyCall, target: Target)
        ensures { self.new ≡ missed call target self.old }
    {
        if let Some(cursor) = call.cursor() {
            unpin(self.cursors.as_mut_slice(), cursor);
        }
        self.stage = Stage::Clear(call, target);
    }

    fn cleared(&mut self, alloc: Global, call: KeyCall, target: Target) -> Reply
        ensures { (result, self.new) ≡ cleared call target self.old }
    {
        if let Some(cursor) = call.cursor() {
            self.land_cursor(alloc, cursor, target);
        }
        self.end_call()
    }

    // The cursor goes where the answer takes it.
    fn land_cursor(&mut self, alloc: Global, cursor: u32, target: Target)
        ensures { self.new ≡ landed cursor target self.old.answer self.old }
    {
        match &self.answer {
            Answer::Value(_) | Answer::Row(_, _) => {
                let key = self.key.take(alloc);
                let position = Position {
                    table: target.table,
                    key,
                };
                place(self.cursors.as_mut_slice(), cursor, Some(position));
            }
            Answer::Refused(Refusal::NotFound) => {
                place(self.cursors.as_mut_slice(), cursor, None);
            }
            _ => {}
        }
    }

    fn end_call(&mut self) -> Reply
        ensures { (result, self.new) ≡ ends self.old }
    {
        let answer = self.take_answer();
        self.stage = Stage::Rest;
        Reply::Answer(answer)
    }

    fn reset_or_refused(&mut self, cursor: u32) -> Reply
        ensures { (result, self.new) ≡ reset_or_refused cursor self.old }
    {
        match unless_running(self.phase) {
            None => self.reset(cursor),
            Some(reason) => self.refuse(Refusal::Invalid(reason)),
        }
    }

    fn reset(&mut self, cursor: u32) -> Reply
        ensures { (result, self.new) ≡ reset cursor self.old }
    {
        self.stage = Stage::Rest;
        reset(self.cursors.as_mut_slice(), cursor);
        Reply::Answer(Answer::Done)
    }

    fn unpin(&mut self, cursor: u32) -> Reply
        ensures { (result, self.new) ≡ unpins cursor self.old }
    {
        unpin(self.cursors.as_mut_slice(), cursor);
        self.unpin_next()
    }

    fn unpin_next(&mut self) -> Reply
        ensures { (result, self.new) ≡ unpins_on self.old }
    {
        match first_pinned(self.cursors.as_slice()) {
            None => self.end_call(),
            Some(cursor) => {
                self.stage = Stage::Unpin(cursor);
                Reply::More
            }
        }
    }
}

// What would name the leaf's frame names none.
fn unframed(wanted: Wanted) -> Target
    ensures { result ≡ unframed wanted }
{
    Target {
        table: wanted.table,
        leaf: wanted.leaf,
        frame: 0,
        word: 0,
    }
}

fn mark_of(target: Target) -> u64
    ensures { result ≡ target.frame + 1 }
{
    u64::from(target.frame) + 1
}

// The frame of the last of the first `left` keys.
pub(crate) fn frame_at(keys: &[WrittenKey], left: usize) -> u32
    ensures { result ≡ frame_at keys.now left }
{
    if left == 0 {
        return 0;
    }
    match keys.get(left - 1) {
        None => 0,
        Some(key) => key.frame,
    }
}

fn unpin(cursors: &mut [Cursor], cursor: u32)
    ensures { cursors.new ≡ changed_at cursors.old cursor unpinned }
{
    let at = cursor as usize;
    if at < cursors.len() {
        cursors[at].pinned = None;
    }
}

/// The cursor stands there, or nowhere.
fn place(cursors: &mut [Cursor], cursor: u32, position: Option<Position>)
    ensures { cursors.new ≡ changed_at cursors.old cursor (placed position) }
{
    let at = cursor as usize;
    if at < cursors.len() {
        cursors[at].position = position;
    }
}

fn reset(cursors: &mut [Cursor], cursor: u32)
    ensures { cursors.new ≡ changed_at cursors.old cursor (λ k. placed None (unpinned k)) }
{
    let at = cursor as usize;
    if at < cursors.len() {
        let cursor = &mut cursors[at];
        cursor.pinned = None;
        cursor.position = None;
    }
}
