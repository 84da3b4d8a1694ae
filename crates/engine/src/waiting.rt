// Calls that wait for a leaf that is in no frame. Whoever has the device reads the leaf and hands it
// in, or keeps the call out, and the call is resumed.

ghost use Rattle.std.specs.Prelude.{◌≡◌, ◌≢◌, ◌<◌, ℕ, None, Some, length, OnErr, OnOk};
ghost use Rattle.kv_model.specs.Calls.{Call};
ghost use Rattle.reconcile.specs.Capture.{ChainsFit};
ghost use Rattle.engine_world.specs.Coming.{ComesFrom};
ghost use Rattle.engine_world.specs.Stands.{Stands};
ghost use Rattle.engine_world.specs.Steps.{MayKeepOut};
ghost use Rattle.engine_world.specs.Worlds.{World, without_records};
ghost use Rattle.engine.specs.Directories.{HubGoesOn};
ghost use Rattle.engine.specs.Frames.{IsFilled};
ghost use Rattle.engine.specs.Told.{EndsFrom, KeepOwn, KeepsOut, answer_in};
ghost use Rattle.engine.specs.Waits.{IsAway, IsWaiting, WaitsAs, WaitsFewer, turns_in, waits_in};
ghost use Rattle.engine.specs.Whole.{Ends, IsUnderWay, KeptBy, ResumesTo};

use crate::called::Called;
use crate::local::Local;
use call_turns::turns_stay;
use failure::NoMemory;
use leaf_frame::LeafFrame;
use std::alloc::Global;
use wt_code::Refusal;

impl Local {
    /// The leaf that a session's call waits for; none where it can go on, or there is no call.
    /// `O(1)`.
    pub fn waits(&self, session: u32) -> Option<u64>
        ensures { result ≡ waits_in self.now session }
    {
        self.parts.waits(session)
    }

    /// A leaf that is in no frame comes into one, with the rows of its block, and with what the
    /// history keeps of it below them. Nobody sees it where that is what a world has of the leaf; the
    /// history keeps nothing of it any more. Each call that waited for it is ready to go on. Without
    /// memory nothing changes. `O(1)`.
    pub fn fill(&mut self, leaf: u64, page: LeafFrame) -> Result<(), NoMemory>
        requires away { IsAway self.old.hub.dir.leaves leaf }
        requires fit { ChainsFit page.chains }
        ensures stands { (w : World) → Stands self.old w → ComesFrom page (w.shelf leaf) (w.records leaf) → OnOk result (Stands self.new (without_records leaf w)) }
        ensures filled { OnOk result (IsFilled self.old self.new leaf page) }
        ensures sessions { self.new.sessions ≡ self.old.sessions }
        ensures kept { OnErr result (self.new ≡ self.old) }
        ensures goes { HubGoesOn self.old.hub self.new.hub }
        ensures ready { (session : ℕ) → waits_in self.old session ≡ Some leaf → OnOk result (waits_in self.new session ≡ None) }
        ensures turns { (session : ℕ) → OnOk result (turns_in self.new session ≡ turns_in self.old session) }
        ensures own { KeepOwn self.old self.new }
    {
        turns_stay();
        self.parts.fill(leaf, page)
    }

    /// The leaf that a session's call waits for cannot be had: the call is refused so, and goes on
    /// to its end. `O(1)`.
    pub fn keep_out(&mut self, session: u32, refusal: Refusal)
        requires waits { IsWaiting self.old session }
        requires refusal { refusal ≢ Refusal.NotFound }
        ensures steps { (w : World) → Stands self.old w → (later : World) × MayKeepOut w session refusal later × Stands self.new later }
        ensures reaches { (w now : World) (asked : Call) → session < length w.sessions → IsUnderWay None w session asked now → Stands self.old now → (later : World) × IsUnderWay (Some refusal) w session asked later × Stands self.new later }
        ensures ready { waits_in self.new session ≡ None }
        ensures fewer { turns_in self.new session < turns_in self.old session }
        ensures dir { self.new.hub.dir ≡ self.old.hub.dir }
        ensures sessions { length self.new.sessions ≡ length self.old.sessions }
        ensures goes { HubGoesOn self.old.hub self.new.hub }
        ensures own { KeepsOut session refusal self.old self.new }
    {
        self.parts.keep_out(session, refusal)
    }

    /// All steps that a session's call has left, up to its answer or to a leaf that is in no frame.
    /// A call that was ready has fewer left where it waits again.
    pub fn resume(&mut self, alloc: Global, session: u32) -> Called
        requires { session < length self.old.sessions }
        ensures answer { (kept : KeptBy) (w now : World) (asked : Call) → session < length w.sessions → IsUnderWay kept w session asked now → Stands self.old now → ResumesTo result self.new kept w session asked }
        ensures ends { (w : World) → Stands self.old w → Ends result self.new w session }
        ensures waits { WaitsAs result self.new session }
        ensures fewer { WaitsFewer result self.old self.new session }
        ensures dir { self.new.hub.dir ≡ self.old.hub.dir }
        ensures sessions { length self.new.sessions ≡ length self.old.sessions }
        ensures goes { HubGoesOn self.old.hub self.new.hub }
        ensures own { KeepOwn self.old self.new }
        ensures tells { EndsFrom (answer_in self.old session) result }
    {
        self.parts.resume(alloc, session)
    }
}
