//! The table of transactions.

ghost use Rattle.std.specs.Prelude.{[], replicate, vec_capacity, ◌≡◌, ◌<◌, ◌≤◌, ◌⊎◌, ◌^◌, ℕ, true, false, length, IfOk, OnOk, OnErr, IfErr, IfSome, option_map, option_copied, IsNone, ◌↔◌};
ghost use Rattle.snapshot.specs.Sight.{Ascends, IsSight, Sight, sight_at, sight_of};
ghost use Rattle.std.specs.List.{remove};
ghost use Rattle.kv_model.specs.Refusals.{stamp_of};
ghost use Rattle.txn_table.specs.SessionData.{is_busy, is_resolving, is_unreleased, opened, unended_id};
ghost use Rattle.txn_table.specs.Tabled.{
  begun,
  counted,
  drawn,
  ended,
  first_in,
  fresh,
  floor_of,
  in_phase,
  lower_of,
  min_of,
  one_more,
  phase_of,
  pin_of,
  read_of,
  registered,
  released_in,
  session_of,
  sight_in,
  taken_from,
  unended,
  without,
};

use crate::phase::Phase;
use crate::session::Session;
use crate::written_leaf::WrittenLeaf;
use failure::NoMemory;
use limits::{NUMBER_MAX, SESSIONS_MAX};
use snapshot::Snapshot;
use stamp::{Name, View};
use std::alloc::Global;
use std::marker::Model;
use wt_code::{Limit, Refusal};

/// The sessions of an engine and their transactions. A session that is named is open.
#[derive(Drop)]
pub struct Txns {
    run: u64,
    // The next id.
    next: u64,
    // The ids that are drawn and not released, ascending. With room for one of each session.
    running: Vec<u64>,
    // By session. With room for as many as there may be.
    sessions: Vec<Session>,
    // Those that can still be opened.
    spare: Vec<Session>,
}

impl Model for Txns {
    ghost use Rattle.std.specs.Prelude.{◌≤◌, ◌^◌, length, vec_capacity};
    ghost use Rattle.txn_table.specs.Tabled.{Table, IsStocked};

    ghost Value = { Table };

    ghost view = { λ t. record { run = t.run; next = t.next; running = t.running.items; sessions = t.sessions.items } };

    ghost invariant = { λ t.
        IsStocked (record { run = t.run; next = t.next; running = t.running.items; sessions = t.sessions.items })
        (vec_capacity t.running) (vec_capacity t.sessions) t.spare.items };
}

impl Txns {
    /// The table of a run, with this many sessions open, none of which has a transaction. Takes the
    /// memory of `SESSIONS_MAX` sessions and of their running ids: of the other calls `register`
    /// alone may want memory.
    pub fn new(alloc: Global, run: u64, sessions: u32) -> Result<Txns, NoMemory>
        requires { sessions ≤ SESSIONS_MAX }
        ensures { IfOk result (λ t. t ≡ fresh run sessions) }
    {
        let running = Vec::with_capacity(alloc, SESSIONS_MAX)?;
        let open = new_sessions(alloc, run, sessions as usize)?;
        let spare = new_sessions(alloc, run, SESSIONS_MAX - sessions as usize)?;
        Ok(Txns {
            run,
            next: 1,
            running,
            sessions: open,
            spare,
        })
    }

    /// Opens a session, and gives its number. Refused exactly where `SESSIONS_MAX` are open. Takes
    /// no memory. `O(1)`.
    pub fn open_session(&mut self) -> Result<u32, Refusal>
        ensures ok { OnOk result ((length self.old.sessions < SESSIONS_MAX) × (self.new ≡ one_more self.old)) }
        ensures number { IfOk result (λ session. session ≡ length self.old.sessions) }
        ensures kept { OnErr result (self.new ≡ self.old) }
        ensures refused { IfErr result (λ e. (e ≡ Refusal.Limit Limit.Sessions) × (SESSIONS_MAX ≤ length self.old.sessions)) }
    {
        let session = self.sessions.len() as u32;
        match self.spare.pop() {
            None => Err(Refusal::Limit(Limit::Sessions)),
            Some(state) => {
                self.sessions.push_reserved(state);
                Ok(session)
            }
        }
    }

    /// How many sessions are open.
    pub fn sessions(&self) -> u32
        ensures count { result ≡ length self.now.sessions }
        ensures few { result ≤ SESSIONS_MAX }
    {
        self.sessions.len() as u32
    }

    /// The run, which is that of each id.
    pub fn run(&self) -> u64
        ensures { result ≡ self.now.run }
    {
        self.run
    }

    /// The next id.
    pub fn next_id(&self) -> u64
        ensures { result ≡ self.now.next }
    {
        self.next
    }

    /// The lowest session with a transaction. `O(n)` in the sessions.
    pub fn active(&self) -> Option<u32>
        ensures { result ≡ first_in is_busy 0 self.now.sessions }
    {
        for session in 0..self.sessions.len() {
            if self.sessions[session].is_busy() {
                return Some(session as u32);
            }
        }
        None
    }

    /// The lowest session whose transaction is resolving. `O(n)` in the sessions.
    pub fn resolving(&self) -> Option<u32>
        ensures { result ≡ first_in is_resolving 0 self.now.sessions }
    {
        for session in 0..self.sessions.len() {
            if self.sessions[session].is_resolving() {
                return Some(session as u32);
            }
        }
        None
    }

    /// Begins a transaction at this read stamp, with a snapshot of now. Takes no memory. One copy
    /// of the running ids.
    pub fn begin(&mut self, session: u32, read: Option<u64>)
        requires open { session < length self.old.sessions }
        requires idle { phase_of self.old session ≡ Phase.Idle }
        ensures { self.new ≡ begun self.old session (stamp_of read) }
    {
        let state = &mut self.sessions[session as usize];
        state.begin(self.run, self.next, &self.running, read.unwrap_or(0));
    }

    /// Draws the id of a transaction that has none. Refused exactly where the next id is past
    /// `NUMBER_MAX`. Takes no memory. `O(1)`.
    pub fn draw_id(&mut self, session: u32) -> Result<u64, Refusal>
        requires open { session < length self.old.sessions }
        requires running { phase_of self.old session ≡ Phase.Running }
        requires undrawn { (session_of self.old session).id ≡ 0 }
        ensures ok { OnOk result ((self.old.next ≤ NUMBER_MAX) × (self.new ≡ drawn self.old session)) }
        ensures id { IfOk result (λ id. id ≡ self.old.next) }
        ensures kept { OnErr result (self.new ≡ self.old) }
        ensures refused { IfErr result (λ e. (e ≡ Refusal.Limit Limit.Ids) × (NUMBER_MAX < self.old.next)) }
    {
        let id = self.next;
        if id > NUMBER_MAX {
            return Err(Refusal::Limit(Limit::Ids));
        }
        self.running.push_reserved(id);
        self.next = id + 1;
        let state = &mut self.sessions[session as usize];
        state.set_id(id);
        Ok(id)
    }

    /// Adds a leaf to those that the session's transaction wrote. May want memory.
    pub fn register(&mut self, session: u32, leaf: WrittenLeaf) -> Result<(), NoMemory>
        requires open { session < length self.old.sessions }
        ensures ok { OnOk result (self.new ≡ registered self.old session leaf) }
        ensures err { OnErr result (self.new ≡ self.old) }
    {
        let state = &mut self.sessions[session as usize];
        state.add_written(leaf)
    }

    /// A write met a conflict: the transaction can only be rolled back.
    pub fn fail(&mut self, session: u32)
        requires open { session < length self.old.sessions }
        requires running { phase_of self.old session ≡ Phase.Running }
        ensures { self.new ≡ in_phase self.old session Phase.Failed }
    {
        let state = &mut self.sessions[session as usize];
        state.set_phase(Phase::Failed);
    }

    /// Prepares the transaction at this stamp: later snapshots see it. Takes no memory.
    /// `O(log n)` in the running ids, and one move of those above.
    pub fn prepare(&mut self, session: u32, stamp: u64)
        requires open { session < length self.old.sessions }
        requires running { phase_of self.old session ≡ Phase.Running }
        ensures { self.new ≡ released_in self.old session (Phase.Prepared stamp) }
    {
        self.release_to(session, Phase::Prepared(stamp));
    }

    /// The commit or the rollback of a prepared transaction is decided. Takes no memory. `O(1)`.
    pub fn resolve(&mut self, session: u32)
        requires open { session < length self.old.sessions }
        requires prepared { (stamp : ℕ) × (phase_of self.old session ≡ Phase.Prepared stamp) }
        ensures { self.new ≡ in_phase self.old session Phase.Resolving }
    {
        let state = &mut self.sessions[session as usize];
        state.set_phase(Phase::Resolving);
    }

    /// A transaction that is not prepared is rolled back, or its commit refused. Takes no memory.
    /// `O(1)`.
    pub fn leave(&mut self, session: u32)
        requires open { session < length self.old.sessions }
        requires unprepared { (phase_of self.old session ≡ Phase.Running) ⊎ (phase_of self.old session ≡ Phase.Failed) }
        ensures { self.new ≡ in_phase self.old session Phase.Leaving }
    {
        let state = &mut self.sessions[session as usize];
        state.set_phase(Phase::Leaving);
    }

    /// Commits a transaction that is not prepared: later snapshots see it, and the session has
    /// none. Takes no memory. Cost as of `prepare`.
    pub fn release(&mut self, session: u32)
        requires open { session < length self.old.sessions }
        requires running { phase_of self.old session ≡ Phase.Running }
        ensures { self.new ≡ released_in self.old session Phase.Idle }
    {
        self.release_to(session, Phase::Idle);
    }

    /// Ends a transaction that is resolving, or one that was rolled back before it was prepared, in
    /// whichever phase the table knows it. Takes no memory. Cost as of `prepare`.
    pub fn done(&mut self, session: u32)
        requires open { session < length self.old.sessions }
        requires ending { (phase_of self.old session ≡ Phase.Resolving) ⊎ (is_unreleased (phase_of self.old session) ≡ true) }
        ensures { self.new ≡ ended self.old session }
    {
        let state = &mut self.sessions[session as usize];
        match state.phase() {
            Phase::Resolving => state.set_phase(Phase::Idle),
            _ => self.release_to(session, Phase::Idle),
        }
    }

    #[inline(always)]
    fn release_to(&mut self, session: u32, phase: Phase)
        requires open { session < length self.old.sessions }
        requires unreleased { is_unreleased (phase_of self.old session) ≡ true }
        requires released { is_unreleased phase ≡ false }
        ensures { self.new ≡ released_in self.old session phase }
    {
        let state = &mut self.sessions[session as usize];
        let id = state.id();
        state.set_phase(phase);
        take_out(&mut self.running, id);
    }

    /// The stamp below which no version is wanted that a newer one covers: the least of oldest,
    /// the oldest that the running checkpoint recorded, and the active read stamps. `O(n)` in the
    /// sessions.
    pub fn pin_stamp(&self, oldest: u64, ckpt_oldest: Option<u64>) -> u64
        ensures { result ≡ pin_of self.now oldest ckpt_oldest }
    {
        let mut pin = lower(oldest, ckpt_oldest);
        for state in self.sessions.iter() {
            pin = lower(pin, read_stamp(state));
        }
        pin
    }

    /// A name of this run: each active snapshot, and the checkpoint's, sees what is committed
    /// under a name below it. Its id is the least `min` of these snapshots, or the next id.
    /// `O(n)` in the sessions.
    pub fn floor(&self, ckpt: Option<&Snapshot>) -> Name
        ensures { result ≡ floor_of self.now (sight_in (option_copied ckpt.entry)) }
    {
        let mut id = lower(self.next, min_of(ckpt));
        for state in self.sessions.iter() {
            id = lower(id, snapshot_min(state));
        }
        Name { run: self.run, id }
    }

    /// Takes the snapshot of a checkpoint anew: of now, with each drawn id of a transaction that has
    /// not ended, prepared and resolving ones too. Takes no memory. `O(n log n)` in the sessions,
    /// and one move of the ids above each.
    pub fn checkpoint_snapshot(&self, snapshot: &mut Snapshot)
        requires room { SESSIONS_MAX ≤ snapshot.old.room }
        ensures sight { snapshot.new.sight ≡ sight_at self.now.run self.now.next (unended self.now) }
        ensures few { length snapshot.new.sight.list ≤ SESSIONS_MAX }
        ensures room { snapshot.old.room ≤ snapshot.new.room }
    {
        snapshot.fill(self.run, self.next, &[]);
        for state in self.sessions.iter() {
            count_unended(snapshot, unended_id(state));
        }
    }

    /// How far the session's transaction is.
    pub fn phase(&self, session: u32) -> Phase
        requires open { session < length self.now.sessions }
        ensures { result ≡ phase_of self.now session }
    {
        self.sessions[session as usize].phase()
    }

    /// The snapshot of the session's transaction, lent with its id and its read stamp, 0 for none
    /// of either; `None` where it has no transaction.
    pub fn view(&self, session: u32) -> Option<View<'_>>
        requires open { session < length self.now.sessions }
        ensures none { IsNone result ↔ (phase_of self.now session ≡ Phase.Idle) }
        ensures sight { IfSome result (λ v. sight_of v ≡ (session_of self.now session).sight) }
        ensures own { IfSome result (λ v. v.own ≡ (session_of self.now session).id) }
        ensures read { IfSome result (λ v. v.read ≡ (session_of self.now session).read) }
        ensures lent { IfSome result (λ v. IsSight (sight_of v)) }
        ensures few { IfSome result (λ v. length v.list.now ≤ SESSIONS_MAX) }
    {
        let state = &self.sessions[session as usize];
        match state.phase() {
            Phase::Idle => None,
            _ => Some(state.view()),
        }
    }

    /// The id of the session's transaction, 0 while it has none.
    pub fn id(&self, session: u32) -> u64
        requires open { session < length self.now.sessions }
        ensures { result ≡ (session_of self.now session).id }
    {
        self.sessions[session as usize].id()
    }

    /// The leaves that the session has registered since it began last, or since they were taken.
    pub fn written(&self, session: u32) -> &[WrittenLeaf]
        requires open { session < length self.now.sessions }
        ensures { result.now ≡ (session_of self.now session).written }
    {
        self.sessions[session as usize].written()
    }

    /// Hands out the leaves that the session has registered, so that their memory is given back by
    /// the caller, once it has let go of the table. Takes no memory. `O(1)`.
    pub fn take_written(&mut self, alloc: Global, session: u32) -> Vec<WrittenLeaf>
        requires open { session < length self.old.sessions }
        ensures taken { result.items ≡ (session_of self.old session).written }
        ensures left { self.new ≡ taken_from self.old session }
    {
        let state = &mut self.sessions[session as usize];
        state.take_written(alloc)
    }
}

// So many sessions without a transaction, with room for as many as there may be.
fn new_sessions(alloc: Global, run: u64, count: usize) -> Result<Vec<Session>, NoMemory>
    ensures items { IfOk result (λ v. v.items ≡ replicate count (opened run)) }
    ensures room { IfOk result (λ v. SESSIONS_MAX ≤ vec_capacity v) }
{
    let mut made = Vec::with_capacity(alloc, SESSIONS_MAX)?;
    for _ in 0..count {
        let state = Session::new(alloc, run)?;
        if let Err(_) = made.push(state) {
            return Err(NoMemory);
        }
    }
    Ok(made)
}

// The read stamp of an active transaction that has one.
fn read_stamp(state: &Session) -> Option<u64>
    ensures { result ≡ read_of state.now }
{
    match state.phase() {
        Phase::Idle => None,
        _ => match state.read() {
            0 => None,
            read => Some(read),
        },
    }
}

// The least running id of an active transaction's snapshot.
fn snapshot_min(state: &Session) -> Option<u64>
    ensures { result ≡ min_of state.now }
{
    match state.phase() {
        Phase::Idle => None,
        _ => Some(state.min()),
    }
}

// The id of a transaction that has not ended, once it is drawn.
fn unended_id(state: &Session) -> Option<u64>
    ensures { result ≡ unended_id state.now }
{
    match state.phase() {
        Phase::Idle => None,
        _ => match state.id() {
            0 => None,
            id => Some(id),
        },
    }
}

// Counts an id as running too, where there is one.
fn count_unended(snapshot: &mut Snapshot, id: Option<u64>)
    requires drawn { IfSome id (λ id. (1 ≤ id) × (id < snapshot.old.sight.max)) }
    requires room { length snapshot.old.sight.list < snapshot.old.room }
    ensures sight { snapshot.new.sight ≡ counted snapshot.old.sight id }
    ensures room { snapshot.old.room ≤ snapshot.new.room }
{
    if let Some(id) = id {
        snapshot.count_running(id);
    }
}

// The least running id of a snapshot.
fn min_of(snapshot: Option<&Snapshot>) -> Option<u64>
    ensures { result ≡ option_map (λ (s : Sight). s.min) (sight_in (option_copied snapshot.entry)) }
{
    match snapshot {
        None => None,
        Some(snapshot) => Some(snapshot.min()),
    }
}

// The lower of two, or the one that is there.
fn lower(value: u64, other: Option<u64>) -> u64
    ensures { result ≡ lower_of value other }
{
    match other {
        None => value,
        Some(other) => value.min(other),
    }
}

// Takes an id out, where it is among these, which ascend.
#[inline(always)]
fn take_out(ids: &mut Vec<u64>, id: u64)
    requires { (high : ℕ) × Ascends 1 ids.old.items high }
    ensures items { ids.new.items ≡ without id ids.old.items }
    ensures room { vec_capacity ids.old ≤ vec_capacity ids.new }
{
    if let Ok(place) = ids.binary_search(&id) {
        remove_at(ids, place);
    }
}

// The newest id, which is the last, goes without a move of others.
#[inline(always)]
fn remove_at(ids: &mut Vec<u64>, place: usize)
    requires { place < length ids.old.items }
    ensures items { ids.new.items ≡ remove ids.old.items place }
    ensures room { vec_capacity ids.old ≤ vec_capacity ids.new }
{
    if place + 1 == ids.len() {
        let _last = ids.pop();
    } else {
        ids.remove(place);
    }
}
