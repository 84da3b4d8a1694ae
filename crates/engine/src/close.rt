// What a close asks of an engine before it takes its checkpoint.

ghost use Rattle.std.specs.Prelude.{◌≡◌, ℕ, None, length, IfErr};
ghost use Rattle.kv_model.specs.Calls.{rolled_back};
ghost use Rattle.engine_world.specs.Stands.{Stands};
ghost use Rattle.engine_world.specs.Worlds.{World};
ghost use Rattle.engine.specs.Checkpoints.{IsOfStart};
ghost use Rattle.engine.specs.Closes.{MayClose, busy_in, close_told, first_at_work, is_at_work};
ghost use Rattle.engine.specs.Directories.{HubGoesOn};
ghost use Rattle.engine.specs.Sound.{IsSound, Keeps};
ghost use Rattle.engine.specs.Told.{KeepOwn};

use crate::local::Local;
use crate::parts::Parts;
use call_steps::{SessionState, Stage};
use std::alloc::Global;
use wt_calls::SessionCall;
use wt_code::{Busy, Refusal};

impl Local {
    /// Why a close may not come now: the engine is down, or a session has a call that is not
    /// finished or whose transaction is ending, of which the lowest is told. `O(n)` in the sessions.
    pub fn may_close(&self) -> Result<(), Refusal>
        ensures told { (w : World) → Stands self.now w → w.machine.checkpoint ≡ None → result ≡ close_told w.machine.fault (busy_in w) }
        ensures refusals { IfErr result IsOfStart }
    {
        self.parts.may_close()
    }

    /// Rolls back the transaction of each session, the lowest first, prepared ones too: what a close
    /// begins with. Each ends where a close may come. The cost of a rollback for each session.
    pub fn roll_back_all(&mut self, alloc: Global)
        ensures rolled_back { (w : World) → Stands self.old w → MayClose w → Stands self.new (record w { machine = rolled_back w.machine }) }
        ensures sessions { length self.new.sessions ≡ length self.old.sessions }
        ensures goes { HubGoesOn self.old.hub self.new.hub }
        ensures own { KeepOwn self.old self.new }
    {
        self.parts.roll_back_all(alloc)
    }
}

impl Parts {
    /// Why a close may not come now.
    pub(crate) fn may_close(&self) -> Result<(), Refusal>
        requires { IsSound self.now }
        ensures told { (w : World) → Stands self.now w → w.machine.checkpoint ≡ None → result ≡ close_told w.machine.fault (busy_in w) }
        ensures refusals { IfErr result IsOfStart }
    {
        if let Some(fault) = self.hub.fault {
            return Err(Refusal::Panic { fault });
        }
        match self.at_work() {
            None => Ok(()),
            Some(session) => Err(Refusal::Busy(Busy::Resolving(session))),
        }
    }

    // The lowest session with a call that is not finished.
    fn at_work(&self) -> Option<u32>
        requires { IsSound self.now }
        ensures { result ≡ first_at_work 0 self.now.sessions }
    {
        for session in 0..self.count() {
            if is_at_work(&self.sessions[session as usize]) {
                return Some(session);
            }
        }
        None
    }

    /// Rolls back the transaction of each session, the lowest first. A session that has none refuses
    /// the call, which changes nothing. A rollback waits for no leaf.
    pub(crate) fn roll_back_all(&mut self, alloc: Global)
        requires { IsSound self.old }
        ensures rolled_back { (w : World) → Stands self.old w → MayClose w → Stands self.new (record w { machine = rolled_back w.machine }) }
        ensures kept { Keeps self.old self.new }
        ensures sound { IsSound self.new }
    {
        let sessions = self.count();
        for session in 0..sessions {
            let _ = self.call(alloc, session, SessionCall::Rollback);
        }
    }
}

/// The session has a call that is not finished.
pub(crate) fn is_at_work(state: &SessionState) -> bool
    ensures { result ≡ is_at_work state.now.stage }
{
    !matches!(state.stage(), Stage::Rest)
}
