// What a session keeps of its transaction and of its call.

ghost use Rattle.std.specs.Prelude.{◌≡◌, ◌∷◌, [], length, map, None, IfOk};
ghost use Rattle.call_steps.specs.Stages.{stamps_then, undoes};
ghost use Rattle.call_steps.specs.State.{opened, at_stage, refuses, clears, lands, misses, moves, answered, forgotten, finished, without_answer, changed_at, cursor_word, takes_word, fresh_cursor, placed, leaving_in, leaves, is_pinned, is_pinned_at, first_pinned};

use crate::cursor::Cursor;
use crate::reply::Reply;
use crate::stage::{CommitStamps, KeyCall, Stage, Target, stamps_then, undoes};
use crate::text::CallText;
use crate::written::WrittenKey;
use failure::NoMemory;
use item::Item;
use std::alloc::Global;
use std::marker::Model;
use std::mem::replace;
use txn_table::Phase;
use wt_code::{Answer, Refusal};

/// A session: the phase of its transaction, the call in hand, and what the transaction wrote.
#[derive(Drop)]
pub struct SessionState {
    pub(crate) phase: Phase,
    pub(crate) stage: Stage,
    pub(crate) name: CallText,
    pub(crate) key: CallText,
    pub(crate) value: Item,
    pub(crate) answer: Answer<Item>,
    pub(crate) written: Vec<WrittenKey>,
    pub(crate) cursors: Vec<Cursor>,
    pub(crate) word: u32,
}

impl Model for SessionState {
    ghost use Rattle.call_steps.specs.State.{State};
    ghost use Rattle.call_steps.specs.Texts.{text_of};

    ghost Value = { State };

    ghost view = { λ s. record { phase = s.phase; stage = s.stage; name = text_of s.name.given s.name.copied.items; key = text_of s.key.given s.key.copied.items; value = s.value; answer = s.answer; written = s.written.items; cursors = s.cursors.items; word = s.word } };
}

impl SessionState {
    /// A session without a transaction, a call or a positioned cursor.
    pub fn new(alloc: Global) -> Result<SessionState, NoMemory>
        ensures { IfOk result (λ s. s ≡ opened) }
    {
        let cursors = new_cursors(alloc)?;
        Ok(SessionState {
            phase: Phase::Idle,
            stage: Stage::Rest,
            name: CallText::new(alloc),
            key: CallText::new(alloc),
            value: Item::new(Vec::new(alloc)),
            answer: Answer::Done,
            written: Vec::new(alloc),
            cursors,
            word: 4,
        })
    }

    /// How far its call is.
    pub fn stage(&self) -> Stage
        ensures { result ≡ self.now.stage }
    {
        self.stage
    }

    /// How far its transaction is.
    pub fn phase(&self) -> Phase
        ensures { result ≡ self.now.phase }
    {
        self.phase
    }

    /// The lowest cursor that stands on a leaf: its hazard word names the frame. `O(1)`.
    pub fn pinned_cursor(&self) -> Option<u32>
        ensures { result ≡ first_pinned self.now.cursors }
    {
        first_pinned(&self.cursors)
    }

    /// The keys that its transaction wrote, each once, by their places. `O(1)`.
    pub fn written(&self) -> &[WrittenKey]
        ensures { result.now ≡ self.now.written }
    {
        self.written.as_slice()
    }

    pub(crate) fn go_to(&mut self, stage: Stage)
        ensures { self.new ≡ at_stage stage self.old }
    {
        self.stage = stage;
    }

    // The call is refused, with nothing to clear.
    pub(crate) fn refuse(&mut self, refusal: Refusal) -> Reply
        ensures { (result, self.new) ≡ refuses refusal self.old }
    {
        self.stage = Stage::Rest;
        Reply::Answer(Answer::Refused(refusal))
    }

    // A look at the leaf or the history answers.
    #[inline(always)]
    pub(crate) fn answer(&mut self, call: KeyCall, target: Target, answer: Answer<Item>)
        ensures { self.new ≡ answered call target answer self.old }
    {
        match call.cursor() {
            None => self.clear(call, target, answer),
            Some(cursor) => self.move_cursor(cursor, call, target, answer),
        }
    }

    #[inline(always)]
    pub(crate) fn clear(&mut self, call: KeyCall, target: Target, answer: Answer<Item>)
        ensures { self.new ≡ clears call target answer self.old }
    {
        self.stage = Stage::Clear(call, target);
        self.answer = answer;
    }

    fn move_cursor(&mut self, cursor: u32, call: KeyCall, target: Target, answer: Answer<Item>)
        ensures { self.new ≡ moves cursor call target answer self.old }
    {
        match answer {
            Answer::Value(value) => self.land(cursor, call, target, Answer::Value(value)),
            Answer::Row(key, value) => self.land(cursor, call, target, Answer::Row(key, value)),
            Answer::Refused(Refusal::NotFound) => self.miss(call, target),
            other => self.clear(call, target, other),
        }
    }

    #[inline(always)]
    fn land(&mut self, cursor: u32, call: KeyCall, target: Target, answer: Answer<Item>)
        ensures { self.new ≡ lands cursor call target answer self.old }
    {
        let word = self.cursor_word(cursor);
        give_word(self.cursors.as_mut_slice(), cursor, self.word, target);
        self.word = word;
        self.clear(call, target, answer);
    }

    fn miss(&mut self, call: KeyCall, target: Target)
        ensures { self.new ≡ misses call target (Answer.Refused Refusal.NotFound) self.old }
    {
        self.stage = Stage::ClearCursor(call, target);
        self.answer = Answer::Refused(Refusal::NotFound);
    }

    // The hazard word of a cursor, or the call's where the cursor is not there.
    pub(crate) fn cursor_word(&self, cursor: u32) -> u32
        ensures { result ≡ cursor_word self.now cursor }
    {
        match self.cursors.get(cursor as usize) {
            None => self.word,
            Some(cursor) => cursor.word,
        }
    }

    // The transaction has ended with this answer.
    #[inline(always)]
    pub(crate) fn finish(&mut self, answer: Answer<Item>) -> Reply
        ensures { (result, self.new) ≡ finished answer self.old }
    {
        let pinned = first_pinned(self.cursors.as_slice());
        self.forget();
        match pinned {
            None => {
                self.stage = Stage::Rest;
                Reply::Answer(answer)
            }
            Some(cursor) => {
                self.stage = Stage::Unpin(cursor);
                self.answer = answer;
                Reply::More
            }
        }
    }

    // A transaction begins.
    pub(crate) fn begin(&mut self)
        ensures { self.new ≡ at_stage Stage.Rest (record self.old { phase = Phase.Running }) }
    {
        self.phase = Phase::Running;
        self.stage = Stage::Rest;
    }

    // The transaction is prepared.
    pub(crate) fn prepare(&mut self, stamp: u64)
        ensures { self.new ≡ at_stage Stage.Rest (record self.old { phase = Phase.Prepared stamp }) }
    {
        self.phase = Phase::Prepared(stamp);
        self.stage = Stage::Rest;
    }

    // The commit of a prepared transaction is decided: what it wrote is to be stamped.
    pub(crate) fn stamp_all(&mut self, stamps: CommitStamps)
        ensures { self.new ≡ record self.old { phase = Phase.Resolving; stage = stamps_then stamps (length self.old.written) Stage.Done; answer = Answer.Done } }
    {
        self.phase = Phase::Resolving;
        self.stage = stamps_then(stamps, self.written.len(), Stage::Done);
        self.answer = Answer::Done;
    }

    // The rollback of a prepared transaction is decided: what it wrote is to be taken out.
    pub(crate) fn undo_all(&mut self)
        ensures { self.new ≡ record self.old { phase = Phase.Resolving; stage = undoes (length self.old.written); answer = Answer.Done } }
    {
        self.phase = Phase::Resolving;
        self.stage = undoes(self.written.len());
        self.answer = Answer::Done;
    }

    // The transaction is rolled back with this answer: what it wrote is to be taken out.
    pub(crate) fn leave(&mut self, answer: Answer<Item>)
        ensures { self.new ≡ leaves answer self.old }
    {
        self.phase = Phase::Leaving;
        self.stage = undoes(self.written.len());
        self.answer = answer;
    }

    // The first undo of a transaction that is not prepared begins its rollback.
    pub(crate) fn begin_leaving(&mut self)
        ensures { self.new ≡ leaving_in self.old.phase self.old }
    {
        match self.phase {
            Phase::Running | Phase::Failed => {
                self.phase = Phase::Leaving;
                self.answer = Answer::Done;
            }
            _ => {}
        }
    }

    fn forget(&mut self)
        ensures { self.new ≡ forgotten self.old }
    {
        self.phase = Phase::Idle;
        self.written.clear();
        unplace(self.cursors.as_mut_slice());
    }

    // The answer that was decided, taken out.
    pub(crate) fn take_answer(&mut self) -> Answer<Item>
        ensures answer { result ≡ self.old.answer }
        ensures rest { self.new ≡ without_answer self.old }
    {
        replace(&mut self.answer, Answer::Done)
    }
}

fn new_cursors(alloc: Global) -> Result<Vec<Cursor>, NoMemory>
    ensures { IfOk result (λ v. v.items ≡ fresh_cursor 0 ∷ (fresh_cursor 1 ∷ (fresh_cursor 2 ∷ (fresh_cursor 3 ∷ [])))) }
{
    let mut cursors = Vec::with_capacity(alloc, 4)?;
    cursors.push_reserved(new_cursor(0));
    cursors.push_reserved(new_cursor(1));
    cursors.push_reserved(new_cursor(2));
    cursors.push_reserved(new_cursor(3));
    Ok(cursors)
}

fn new_cursor(word: u32) -> Cursor
    ensures { result ≡ fresh_cursor word }
{
    Cursor {
        word,
        pinned: None,
        position: None,
    }
}

// The cursor takes over the call's word, which names the frame of this leaf.
fn give_word(cursors: &mut [Cursor], cursor: u32, word: u32, target: Target)
    ensures { cursors.new ≡ changed_at cursors.old cursor (takes_word word target) }
{
    let at = cursor as usize;
    if at < cursors.len() {
        let cursor = &mut cursors[at];
        cursor.word = word;
        cursor.pinned = Some(target);
    }
}

fn unplace(cursors: &mut [Cursor])
    ensures { cursors.new ≡ map (placed None) cursors.old }
{
    for cursor in cursors.iter_mut() {
        lift(cursor);
    }
}

// It stands nowhere. Most stand nowhere already.
#[inline(always)]
fn lift(cursor: &mut Cursor)
    ensures { cursor.new ≡ placed None cursor.old }
{
    if let Some(_) = &cursor.position {
        cursor.position = None;
    }
}

/// The first pinned one of the four cursors.
pub(crate) fn first_pinned(cursors: &[Cursor]) -> Option<u32>
    ensures { result ≡ first_pinned cursors.now }
{
    if is_pinned_at(cursors, 0) {
        return Some(0);
    }
    if is_pinned_at(cursors, 1) {
        return Some(1);
    }
    if is_pinned_at(cursors, 2) {
        return Some(2);
    }
    if is_pinned_at(cursors, 3) {
        return Some(3);
    }
    None
}

fn is_pinned_at(cursors: &[Cursor], cursor: usize) -> bool
    ensures { result ≡ is_pinned_at cursors.now cursor }
{
    match cursors.get(cursor) {
        None => false,
        Some(cursor) => is_pinned(cursor),
    }
}

fn is_pinned(cursor: &Cursor) -> bool
    ensures { result ≡ is_pinned cursor.now }
{
    match cursor.pinned {
        None => false,
        Some(_) => true,
    }
}
