//! One session of the table.

ghost use Rattle.std.specs.Prelude.{◌≡◌, ◌≤◌, ◌∷◌, ◌++◌, [], length, IfOk, OnOk, OnErr};
ghost use Rattle.snapshot.specs.Sight.{Ascends, IsSight, sight_at, sight_of};

use crate::phase::Phase;
use crate::written_leaf::WrittenLeaf;
use failure::NoMemory;
use limits::SESSIONS_MAX;
use snapshot::Snapshot;
use stamp::View;
use std::alloc::Global;
use std::marker::Model;
use std::mem::replace;

#[derive(Drop)]
pub(crate) struct Session {
    phase: Phase,
    id: u64,
    read: u64,
    // With room for an id of each session.
    snapshot: Snapshot,
    written: Vec<WrittenLeaf>,
}

impl Model for Session {
    ghost use Rattle.std.specs.Prelude.{◌≤◌, length};
    ghost use Rattle.limits.specs.declared.TheConstants.{SESSIONS_MAX};
    ghost use Rattle.txn_table.specs.SessionData.{SessionData};

    ghost Value = { SessionData };

    ghost view = { λ s.
        record { phase = s.phase; id = s.id; read = s.read; sight = s.snapshot.sight; written = s.written.items } };

    ghost invariant = { λ s.
        (SESSIONS_MAX ≤ s.snapshot.room) × (length s.snapshot.sight.list ≤ SESSIONS_MAX) };
}

impl Session {
    ghost use Rattle.txn_table.specs.SessionData.{SessionData, is_busy, is_resolving, opened};

    pub(crate) fn new(alloc: Global, run: u64) -> Result<Session, NoMemory>
        ensures { IfOk result (λ s. s ≡ opened run) }
    {
        Ok(Session {
            phase: Phase::Idle,
            id: 0,
            read: 0,
            snapshot: Snapshot::new(alloc, run, SESSIONS_MAX)?,
            written: Vec::new(alloc),
        })
    }

    pub(crate) fn begin(&mut self, run: u64, next: u64, running: &[u64], read: u64)
        requires ascending { Ascends 1 running.now next }
        requires few { length running.now ≤ SESSIONS_MAX }
        ensures { self.new ≡ record { phase = Phase.Running; id = 0; read = read; sight = sight_at run next running.now; written = [] } }
    {
        self.snapshot.fill(run, next, running);
        self.phase = Phase::Running;
        self.id = 0;
        self.read = read;
        self.written.clear();
    }

    pub(crate) fn set_phase(&mut self, phase: Phase)
        ensures { self.new ≡ record self.old { phase = phase } }
    {
        self.phase = phase;
    }

    pub(crate) fn set_id(&mut self, id: u64)
        ensures { self.new ≡ record self.old { id = id } }
    {
        self.id = id;
    }

    pub(crate) fn add_written(&mut self, leaf: WrittenLeaf) -> Result<(), NoMemory>
        ensures ok { OnOk result (self.new ≡ record self.old { written = self.old.written ++ leaf ∷ [] }) }
        ensures err { OnErr result (self.new ≡ self.old) }
    {
        match self.written.push(leaf) {
            Ok(()) => Ok(()),
            Err(_) => Err(NoMemory),
        }
    }

    pub(crate) fn phase(&self) -> Phase
        ensures { result ≡ self.now.phase }
    {
        self.phase
    }

    pub(crate) fn is_busy(&self) -> bool
        ensures { result ≡ is_busy self.now.phase }
    {
        !matches!(self.phase, Phase::Idle)
    }

    pub(crate) fn is_resolving(&self) -> bool
        ensures { result ≡ is_resolving self.now.phase }
    {
        matches!(self.phase, Phase::Resolving)
    }

    pub(crate) fn id(&self) -> u64
        ensures { result ≡ self.now.id }
    {
        self.id
    }

    pub(crate) fn read(&self) -> u64
        ensures { result ≡ self.now.read }
    {
        self.read
    }

    pub(crate) fn min(&self) -> u64
        ensures { result ≡ self.now.sight.min }
    {
        self.snapshot.min()
    }

    pub(crate) fn written(&self) -> &[WrittenLeaf]
        ensures { result.now ≡ self.now.written }
    {
        self.written.as_slice()
    }

    pub(crate) fn take_written(&mut self, alloc: Global) -> Vec<WrittenLeaf>
        ensures taken { result.items ≡ self.old.written }
        ensures left { self.new ≡ record self.old { written = [] } }
    {
        replace(&mut self.written, Vec::new(alloc))
    }

    pub(crate) fn view(&self) -> View<'_>
        ensures sight { sight_of result ≡ self.now.sight }
        ensures own { result.own ≡ self.now.id }
        ensures read { result.read ≡ self.now.read }
        ensures lent { IsSight (sight_of result) }
        ensures few { length result.list.now ≤ SESSIONS_MAX }
    {
        self.snapshot.view(self.id, self.read)
    }
}
