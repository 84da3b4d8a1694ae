// Leaves that are evicted by steps, whose frames are locked meanwhile, and calls that are turned away
// from such a frame.

ghost use Rattle.std.specs.Prelude.{◌≡◌, ◌≢◌, ◌<◌, ◌≤◌, ◌+◌, ◌*◌, ◌^◌, ℕ, None, Some, false, length, nat_lt, option_and_then, slice_get, slice_set, IfNone, IfSome, IsTrue};
ghost use Rattle.limits.specs.declared.TheConstants.{SESSIONS_MAX};
ghost use Rattle.call_steps.specs.declared.stage.Target.{Target as ATarget};
ghost use Rattle.call_steps.specs.Tables.{target_in};
ghost use Rattle.tree_dir.specs.Leaves.{leaf_named};
ghost use Rattle.kv_model.specs.Decisions.{is_there};
ghost use Rattle.engine_world.specs.Stands.{Stands};
ghost use Rattle.engine_world.specs.Steps.{MayGo, MayKeepOut};
ghost use Rattle.engine_world.specs.Worlds.{World};
ghost use Rattle.engine.specs.Directories.{HubGoesOn};
ghost use Rattle.engine.specs.Goings.{LeavesFewer};
ghost use Rattle.engine.specs.Sound.{IsSound, Keeps};
ghost use Rattle.engine.specs.Told.{KeepOwn, TellsFrom, answer_in};
ghost use Rattle.engine.specs.Turning.{IsComing, IsTurned, LocksFrame, LocksIn, SeesLock, coming_for, coming_in, evicting_by, found_in, found_on, locked_in, staged, target_of, words_of};
ghost use Rattle.engine.specs.Waits.{turns_in, waits_in};

use crate::local::Local;
use crate::parts::Parts;
use call_steps::{Reply, SessionState, Stage, Target, filled};
use call_turns::{answers_are_own, calls_end, calls_run, seats_stay};
use item::Item;
use std::alloc::Global;
use tree_dir::Dir;
use wt_code::{Answer, Refusal};

/// An eviction of the leaf of a key that goes by steps.
#[derive(Drop)]
pub struct Evicting {
    /// The table's name.
    pub table: Item,
    /// The key, as the table stores it.
    pub key: Item,
    /// How far it is.
    pub stage: EvictStage,
}

/// The next step of an eviction.
#[derive(Clone, Copy, Debug, PartialEq, Eq)]
pub enum EvictStage {
    /// Find the leaf and its frame.
    Find,
    /// Lock the frame.
    Lock(Target),
    /// Look whether this hazard word names the frame, which is locked at this step and those behind.
    Scan(Target, u32),
    /// See whether the engine is up.
    Ask(Target),
    /// See whether the leaf may be evicted.
    Cut(Target),
    /// Write it, and put it out of its frame.
    Write(Target),
}

impl EvictStage {
    /// The leaf that it has found.
    pub fn found(self) -> Option<Target>
        ensures { result ≡ found_in self }
    {
        match self {
            EvictStage::Find => None,
            EvictStage::Lock(target)
            | EvictStage::Scan(target, _)
            | EvictStage::Ask(target)
            | EvictStage::Cut(target)
            | EvictStage::Write(target) => Some(target),
        }
    }

    /// The leaf whose frame it has locked.
    pub fn locked(self) -> Option<Target>
        ensures { result ≡ locked_in self }
    {
        match self {
            EvictStage::Find | EvictStage::Lock(_) => None,
            EvictStage::Scan(target, _)
            | EvictStage::Ask(target)
            | EvictStage::Cut(target)
            | EvictStage::Write(target) => Some(target),
        }
    }
}

/// The first of the evictions but this one that has locked the frame which had this state word. `O(n)`
/// in them.
pub fn locker(evicting: &[Option<Evicting>], but: usize, frame: u32, word: u64) -> Option<usize>
    ensures none { result ≡ None → (number : ℕ) → number ≢ but → LocksFrame evicting.now number frame word → ⊥ }
    ensures some { IfSome result (λ number. (number ≢ but) × LocksFrame evicting.now number frame word) }
{
    for (at, one) in evicting.iter().enumerate() {
        if at != but && locks(one, frame, word) {
            return Some(at);
        }
    }
    None
}

/// Whether an actor has an eviction that is not finished. `O(n)`.
pub fn are_any(evicting: &[Option<Evicting>]) -> bool
    ensures { result ≡ false → (number : ℕ) → evicting_by evicting.now number ≡ None }
{
    for (at, one) in evicting.iter().enumerate() {
        if is_one(one) {
            return true;
        }
    }
    false
}

fn is_one(one: &Option<Evicting>) -> bool
    ensures { result ≡ is_there one.now }
{
    match one {
        None => false,
        Some(_) => true,
    }
}

/// Whether the actor of this number has one. `O(1)`.
pub fn is_evicting(evicting: &[Option<Evicting>], number: u32) -> bool
    ensures { result ≡ is_there (evicting_by evicting.now number) }
{
    match evicting.get(number as usize) {
        None => false,
        Some(one) => is_one(one),
    }
}

/// The eviction of the actor of this number, where it has one. `O(1)`.
pub fn evicting_of(evicting: &[Option<Evicting>], number: u32) -> Option<&Evicting>
    ensures none { IfNone result (evicting_by evicting.now number ≡ None) }
    ensures some { IfSome result (λ x. evicting_by evicting.now number ≡ Some x.now) }
{
    match evicting.get(number as usize) {
        None => None,
        Some(one) => match one {
            None => None,
            Some(one) => Some(one),
        },
    }
}

/// The frame of the first of the evictions that has found its leaf. `O(n)`.
pub fn first_found(evicting: &[Option<Evicting>]) -> Option<u32>
    ensures none { result ≡ None → (number : ℕ) → found_on (evicting_by evicting.now number) ≡ None }
    ensures some { IfSome result (λ frame. (number : ℕ) × (target : ATarget) × (found_on (evicting_by evicting.now number) ≡ Some target) × (target.frame ≡ frame)) }
{
    for (at, one) in evicting.iter().enumerate() {
        match found_on(one) {
            None => {}
            Some(target) => return Some(target.frame),
        }
    }
    None
}

fn found_on(one: &Option<Evicting>) -> Option<Target>
    ensures { result ≡ found_on one.now }
{
    match one {
        None => None,
        Some(one) => one.stage.found(),
    }
}

/// The eviction of an actor is this one from now on, or none.
pub fn put_evicting(evicting: &mut [Option<Evicting>], number: u32, one: Option<Evicting>)
    ensures { evicting.new ≡ slice_set evicting.old number one }
{
    let at = number as usize;
    if at < evicting.len() {
        evicting[at] = one;
    }
}

/// The eviction of an actor is at this stage from now on.
pub fn put_stage(evicting: &mut [Option<Evicting>], number: u32, stage: EvictStage)
    ensures { evicting.new ≡ staged evicting.old number stage }
{
    let at = number as usize;
    if at < evicting.len() {
        if let Some(one) = &mut evicting[at] {
            one.stage = stage;
        }
    }
}

fn locks(one: &Option<Evicting>, frame: u32, word: u64) -> bool
    ensures yes { IsTrue result → LocksIn one.now frame word }
    ensures no { result ≡ false → LocksIn one.now frame word → ⊥ }
{
    match one {
        None => false,
        Some(one) => match one.stage.locked() {
            None => false,
            Some(target) => target.frame == frame && target.word == word,
        },
    }
}

// What is read in place of this state word of a frame, where an eviction has locked it.
fn seen_at(evicting: &[Option<Evicting>], frame: u32, word: u64) -> Option<u64>
    ensures some { IfSome result (SeesLock evicting.now frame word) }
    ensures none { result ≡ None → (seen : ℕ) → SeesLock evicting.now frame word seen → ⊥ }
{
    match locker(evicting, evicting.len(), frame, word) {
        None => None,
        Some(_) => word.checked_add(1),
    }
}

// The leaf at which a call looks next whether its frame has it still.
fn coming_to(state: &SessionState) -> Option<Target>
    ensures { result ≡ coming_in state.now.stage }
{
    match state.stage() {
        Stage::Validate(_, target) => Some(target),
        _ => None,
    }
}

impl Local {
    /// The state word that the next step of a session's call reads of the frame to which it has come,
    /// where an eviction has locked it. None where it goes on. `O(n)` in the evictions.
    pub fn turned(&self, session: u32, evicting: &[Option<Evicting>]) -> Option<u64>
        ensures some { IfSome result (IsTurned self.now session evicting.now) }
        ensures none { result ≡ None → (seen : ℕ) → IsTurned self.now session evicting.now seen → ⊥ }
    {
        self.parts.turned(session, evicting)
    }

    /// One step of a session's call, which reads another state word than that which it had found: the
    /// call is refused so, and goes on to its end. `O(1)`.
    pub fn turn_away(&mut self, session: u32, seen: u64)
        requires open { session < length self.old.sessions }
        requires coming { IsComing self.old session seen }
        ensures steps { (w : World) → Stands self.old w → (later : World) × MayKeepOut w session (Refusal.Again seen) later × Stands self.new later }
        ensures told { answer_in self.new session ≡ Answer.Refused (Refusal.Again seen) }
        ensures fewer { turns_in self.new session < turns_in self.old session }
        ensures sessions { length self.new.sessions ≡ length self.old.sessions }
        ensures goes { HubGoesOn self.old.hub self.new.hub }
        ensures own { KeepOwn self.old self.new }
    {
        self.parts.turn_away(session, seen)
    }

    /// One step of a session's call that is ready; where it is not the last, fewer are left.
    pub fn go_once(&mut self, alloc: Global, session: u32) -> Reply
        requires open { session < length self.old.sessions }
        requires ready { waits_in self.old session ≡ None }
        ensures step { (w : World) → Stands self.old w → (later : World) × MayGo w session result later × Stands self.new later }
        ensures fewer { LeavesFewer self.old self.new session result }
        ensures sessions { length self.new.sessions ≡ length self.old.sessions }
        ensures goes { HubGoesOn self.old.hub self.new.hub }
        ensures own { KeepOwn self.old self.new }
        ensures tells { TellsFrom (answer_in self.old session) result }
    {
        self.parts.go(alloc, session)
    }

    /// Where the leaf of this id is; none where it is in no frame, or not there. `O(1)`.
    pub fn target(&self, leaf: u64) -> Option<Target>
        ensures { result ≡ target_of self.now leaf }
    {
        target_of(self.leaves(), leaf)
    }

    /// Whether this hazard word is that of an open session. Each has five. `O(1)`.
    pub fn has_word(&self, word: u32) -> bool
        ensures is { result ≡ nat_lt word (words_of self.now) }
        ensures fits { IsTrue result → word + 1 < 2 ^ 32 }
    {
        self.parts.has_word(word)
    }

    /// Whether this hazard word names the frame. `O(1)`.
    pub fn names(&self, word: u32, frame: u32) -> bool
        ensures yes { IsTrue result → slice_get self.now.hazards word ≡ Some (frame + 1) }
        ensures no { result ≡ false → slice_get self.now.hazards word ≢ Some (frame + 1) }
    {
        self.parts.names(word, frame)
    }
}

fn target_of(leaves: &Dir, leaf: u64) -> Option<Target>
    ensures { result ≡ option_and_then target_in (leaf_named leaf leaves.now.leaves) }
{
    match leaves.leaf(leaf) {
        None => None,
        Some(found) => match found.frame {
            None => None,
            Some(framed) => Some(Target {
                table: found.table,
                leaf: found.id,
                frame: framed.frame,
                word: filled(framed.generation),
            }),
        },
    }
}

impl Parts {
    fn turned(&self, session: u32, evicting: &[Option<Evicting>]) -> Option<u64>
        ensures some { IfSome result (IsTurned self.now session evicting.now) }
        ensures none { result ≡ None → (seen : ℕ) → IsTurned self.now session evicting.now seen → ⊥ }
    {
        match self.coming(session) {
            None => None,
            Some(target) => seen_at(evicting, target.frame, target.word),
        }
    }

    // The leaf at which a session's call looks next whether its frame has it still.
    fn coming(&self, session: u32) -> Option<Target>
        ensures { result ≡ coming_for self.now session }
    {
        let state = self.sessions.get(session as usize)?;
        coming_to(state)
    }

    fn turn_away(&mut self, session: u32, seen: u64)
        requires open { session < length self.old.sessions }
        requires coming { IsComing self.old session seen }
        ensures steps { (w : World) → Stands self.old w → (later : World) × MayKeepOut w session (Refusal.Again seen) later × Stands self.new later }
        ensures told { answer_in self.new session ≡ Answer.Refused (Refusal.Again seen) }
        ensures fewer { turns_in self.new session < turns_in self.old session }
        ensures kept { Keeps self.old self.new }
    {
        calls_end();
        seats_stay();
        calls_run();
        answers_are_own();
        self.sessions[session as usize].loaded(seen);
    }

    fn has_word(&self, word: u32) -> bool
        requires { IsSound self.now }
        ensures is { result ≡ nat_lt word (words_of self.now) }
        ensures fits { IsTrue result → word + 1 < 2 ^ 32 }
    {
        is_within(word, self.hub.txns.sessions())
    }

    fn names(&self, word: u32, frame: u32) -> bool
        ensures yes { IsTrue result → slice_get self.now.hazards word ≡ Some (frame + 1) }
        ensures no { result ≡ false → slice_get self.now.hazards word ≢ Some (frame + 1) }
    {
        names_at(self.hazards.as_slice(), word, frame)
    }
}

// Whether it is one of the hazard words of so many sessions.
fn is_within(word: u32, sessions: u32) -> bool
    requires { sessions ≤ SESSIONS_MAX }
    ensures is { result ≡ nat_lt word (5 * sessions) }
    ensures fits { IsTrue result → word + 1 < 2 ^ 32 }
{
    word < 5 * sessions
}

fn names_at(words: &[u64], word: u32, frame: u32) -> bool
    ensures yes { IsTrue result → slice_get words.now word ≡ Some (frame + 1) }
    ensures no { result ≡ false → slice_get words.now word ≢ Some (frame + 1) }
{
    match words.get(word as usize) {
        None => false,
        Some(named) => *named == u64::from(frame) + 1,
    }
}
