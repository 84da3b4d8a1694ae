//! The calls of actors, whose leaves come from the device.

ghost use Rattle.std.specs.Prelude.{◌≡◌, ◌≢◌, ◌⊎◌, ◌<◌, ◌≤◌, ◌+◌, ℕ, List, Option, None, Some, length, IfErr, IfOk, OnErr, OnOk, IsTrue};
ghost use Rattle.limits.specs.declared.TheConstants.{SESSIONS_MAX};
ghost use Rattle.wt_calls.specs.Calls.{session_call_in};
ghost use Rattle.disk_model.specs.Crash.{Looked};
ghost use Rattle.kv_model.specs.Calls.{Call as Asked};
ghost use Rattle.call_steps.specs.declared.hub.Hub.{Hub as AHub};
ghost use Rattle.engine_world.specs.Stands.{Stands};
ghost use Rattle.engine_world.specs.Steps.{MayKeepOut};
ghost use Rattle.engine_world.specs.Worlds.{World};
ghost use Rattle.engine.specs.Directories.{HubGoesOn};
ghost use Rattle.engine.specs.Runs.{IsBuilt, StepFits};
ghost use Rattle.engine.specs.Waits.{IsAway, WaitsAs, awaited_by, turns_in, waits_in};
ghost use Rattle.engine.specs.Whole.{Ends, IsUnderWay};
ghost use Rattle.engine.specs.declared.called.Called.TheVariants as reached;
ghost use Rattle.engine_store.specs.Calls.{AreToldSo, Basis as ABasis, CallKeeps, Called as CalledAs, Finished, Holding, IsBasis, Made, MayAnswerSo, MayOpen, MayReplySo, MayTell, Stepped, TellsSo};
ghost use Rattle.engine_store.specs.Full.{IsFullOf};
ghost use Rattle.engine_store.specs.Keeping.{IsSameButKept, with_kept};
ghost use Rattle.engine_store.specs.Fetches.{CalledSo, CallsBy, CauseSince, ComesOrNot, IsBacked, IsReached, ReachesOrNot, ReadiesOrNot, StepsBy, rounds_left, session_in};

use crate::loading::bring;
use crate::store::Store;
use call_steps::Reply;
use disk_model::Disk;
use engine::{Actor, Called, Step};
use item::Item;
use std::alloc::Global;
use wt_calls::{Call, Demand, SessionCall, SystemCall};
use wt_code::{Answer, Limit, Refusal};

impl Store {
    /// Opens a session, and gives its number (`engine::Local::open_session`). `D` is the type of the
    /// store's disk, which is not looked at. Refused where `SESSIONS_MAX` of `limits` are open, and for
    /// want of memory; then nothing is changed.
    pub fn open_session<D: Disk>(&mut self, alloc: Global) -> Result<u32, Refusal>
        ensures opened { (disk : D) → Holding D.Disk self.old disk (λ start w first made. MayOpen D.Disk start w first made self.old self.new disk disk result) }
        ensures refused { IfErr result (λ r. (r ≡ Refusal.NoMemory) ⊎ ((r ≡ Refusal.Limit Limit.Sessions) × (SESSIONS_MAX ≤ length self.old.engine.sessions))) }
        ensures same { OnErr result (self.new ≡ self.old) }
        ensures more { IfOk result (λ number. length self.new.engine.sessions ≡ length self.old.engine.sessions + 1) }
        ensures told { (disk : D) → TellsSo D.Disk self.old self.new disk disk (λ basis start. Unit {0}) }
        ensures keeps { (disk : D) → CallKeeps D.Disk self.old self.new disk disk }
    {
        // What holds of every engine holds of this one.
        self.engine.actors();
        self.engine.open_session(alloc)
    }

    /// A whole call of an actor of the system: one event, which waits for no leaf. `D` is the type of
    /// the store's disk, which is not looked at.
    pub fn call_system<D: Disk>(
        &mut self,
        alloc: Global,
        number: u32,
        call: SystemCall,
    ) -> Answer<Item>
        requires there { number < 4 }
        requires built { IsBuilt call }
        ensures called { (disk : D) → Holding D.Disk self.old disk (λ start w first made. Made D.Disk start w first made self.old self.new disk disk (Call.System number call) result) }
        ensures told { (disk : D) → TellsSo D.Disk self.old self.new disk disk (λ basis start. MayAnswerSo D.Disk basis start disk result) }
        ensures keeps { (disk : D) → CallKeeps D.Disk self.old self.new disk disk }
        ensures sessions { length self.new.engine.sessions ≡ length self.old.engine.sessions }
    {
        // What holds of every engine holds of this one.
        self.engine.actors();
        self.engine.call_system(alloc, number, call)
    }

    /// A whole call of a session. A leaf that it needs and that is in no frame is read from the device,
    /// once: where that fails, memory is short, or the frames are firm and each has a leaf that may not go,
    /// that is the answer, and nothing but an id that was drawn is changed. The cost of the call
    /// (`engine::Local::call`), and of a read for such a leaf.
    #[inline(always)]
    pub fn call<D: Disk>(
        &mut self,
        alloc: Global,
        disk: &mut D,
        session: u32,
        call: SessionCall,
    ) -> Answer<Item>
        requires { session < length self.old.engine.sessions }
        ensures called { Holding D.Disk self.old disk.old (λ start w first made. CalledAs D.Disk start w first made self.old self.new disk.old disk.new session (session_call_in call) result) }
        ensures told { TellsSo D.Disk self.old self.new disk.old disk.new (λ basis start. MayAnswerSo D.Disk basis start disk.new result) }
        ensures keeps { CallKeeps D.Disk self.old self.new disk.old disk.new }
        ensures sessions { length self.new.engine.sessions ≡ length self.old.engine.sessions }
    {
        let told = self.call_through(alloc, disk, session, call);
        self.make_way::<D>();
        told
    }

    // The same, with the leaves that it read still in their frames.
    #[inline(always)]
    fn call_through<D: Disk>(
        &mut self,
        alloc: Global,
        disk: &mut D,
        session: u32,
        call: SessionCall,
    ) -> Answer<Item>
        requires { session < length self.old.engine.sessions }
        ensures called { Holding D.Disk self.old disk.old (λ start w first made. CalledAs D.Disk start w first made self.old self.new disk.old disk.new session (session_call_in call) result) }
        ensures told { TellsSo D.Disk self.old self.new disk.old disk.new (λ basis start. MayAnswerSo D.Disk basis start disk.new result) }
        ensures keeps { CallKeeps D.Disk self.old self.new disk.old disk.new }
        ensures sessions { length self.new.engine.sessions ≡ length self.old.engine.sessions }
    {
        // What holds of every engine holds of this one.
        self.engine.actors();
        let called = self.engine.call(alloc, session, call);
        self.end(alloc, disk, session, called)
    }

    /// A whole get, as `call` with `SessionCall::Get`, of bytes that are lent.
    #[inline(always)]
    pub fn get<D: Disk>(
        &mut self,
        alloc: Global,
        disk: &mut D,
        session: u32,
        table: &[u8],
        key: &[u8],
    ) -> Answer<Item>
        requires { session < length self.old.engine.sessions }
        ensures called { Holding D.Disk self.old disk.old (λ start w first made. CalledAs D.Disk start w first made self.old self.new disk.old disk.new session (session_call_in (SessionCall.Get table.now key.now)) result) }
        ensures told { TellsSo D.Disk self.old self.new disk.old disk.new (λ basis start. MayAnswerSo D.Disk basis start disk.new result) }
        ensures keeps { CallKeeps D.Disk self.old self.new disk.old disk.new }
        ensures sessions { length self.new.engine.sessions ≡ length self.old.engine.sessions }
    {
        let told = self.get_through(alloc, disk, session, table, key);
        self.make_way::<D>();
        told
    }

    // The same, with the leaves that it read still in their frames.
    #[inline(always)]
    fn get_through<D: Disk>(
        &mut self,
        alloc: Global,
        disk: &mut D,
        session: u32,
        table: &[u8],
        key: &[u8],
    ) -> Answer<Item>
        requires { session < length self.old.engine.sessions }
        ensures called { Holding D.Disk self.old disk.old (λ start w first made. CalledAs D.Disk start w first made self.old self.new disk.old disk.new session (session_call_in (SessionCall.Get table.now key.now)) result) }
        ensures told { TellsSo D.Disk self.old self.new disk.old disk.new (λ basis start. MayAnswerSo D.Disk basis start disk.new result) }
        ensures keeps { CallKeeps D.Disk self.old self.new disk.old disk.new }
        ensures sessions { length self.new.engine.sessions ≡ length self.old.engine.sessions }
    {
        // What holds of every engine holds of this one.
        self.engine.actors();
        let called = self.engine.get(alloc, session, table, key);
        self.end(alloc, disk, session, called)
    }

    /// A whole put, as `call` with `SessionCall::Put`, of bytes that are lent.
    #[inline(always)]
    pub fn put<D: Disk>(
        &mut self,
        alloc: Global,
        disk: &mut D,
        session: u32,
        table: &[u8],
        key: &[u8],
        value: &[u8],
        demand: Demand,
    ) -> Answer<Item>
        requires { session < length self.old.engine.sessions }
        ensures called { Holding D.Disk self.old disk.old (λ start w first made. CalledAs D.Disk start w first made self.old self.new disk.old disk.new session (session_call_in (SessionCall.Put table.now key.now value.now demand)) result) }
        ensures told { TellsSo D.Disk self.old self.new disk.old disk.new (λ basis start. MayAnswerSo D.Disk basis start disk.new result) }
        ensures keeps { CallKeeps D.Disk self.old self.new disk.old disk.new }
        ensures sessions { length self.new.engine.sessions ≡ length self.old.engine.sessions }
    {
        let told = self.put_through(alloc, disk, session, table, key, value, demand);
        self.make_way::<D>();
        told
    }

    // The same, with the leaves that it read still in their frames.
    #[inline(always)]
    fn put_through<D: Disk>(
        &mut self,
        alloc: Global,
        disk: &mut D,
        session: u32,
        table: &[u8],
        key: &[u8],
        value: &[u8],
        demand: Demand,
    ) -> Answer<Item>
        requires { session < length self.old.engine.sessions }
        ensures called { Holding D.Disk self.old disk.old (λ start w first made. CalledAs D.Disk start w first made self.old self.new disk.old disk.new session (session_call_in (SessionCall.Put table.now key.now value.now demand)) result) }
        ensures told { TellsSo D.Disk self.old self.new disk.old disk.new (λ basis start. MayAnswerSo D.Disk basis start disk.new result) }
        ensures keeps { CallKeeps D.Disk self.old self.new disk.old disk.new }
        ensures sessions { length self.new.engine.sessions ≡ length self.old.engine.sessions }
    {
        // What holds of every engine holds of this one.
        self.engine.actors();
        let called = self.engine.put(alloc, session, table, key, value, demand);
        self.end(alloc, disk, session, called)
    }

    /// One step of an actor. A call that waits for a leaf has it read first; where it cannot be had,
    /// that is the step.
    pub fn step<D: Disk>(&mut self, alloc: Global, disk: &mut D, step: Step) -> Reply
        requires { StepFits self.old.engine step }
        ensures stepped { Holding D.Disk self.old disk.old (λ start w first made. Stepped D.Disk start w first made self.old self.new disk.old disk.new step result) }
        ensures told { TellsSo D.Disk self.old self.new disk.old disk.new (λ basis start. MayReplySo D.Disk basis start disk.new result) }
        ensures keeps { CallKeeps D.Disk self.old self.new disk.old disk.new }
        ensures sessions { length self.new.engine.sessions ≡ length self.old.engine.sessions }
    {
        let told = self.step_through(alloc, disk, step);
        self.make_way::<D>();
        told
    }

    // The same, with the leaves that it read still in their frames.
    pub(crate) fn step_through<D: Disk>(&mut self, alloc: Global, disk: &mut D, step: Step) -> Reply
        requires { StepFits self.old.engine step }
        ensures stepped { Holding D.Disk self.old disk.old (λ start w first made. Stepped D.Disk start w first made self.old self.new disk.old disk.new step result) }
        ensures told { TellsSo D.Disk self.old self.new disk.old disk.new (λ basis start. MayReplySo D.Disk basis start disk.new result) }
        ensures keeps { CallKeeps D.Disk self.old self.new disk.old disk.new }
        ensures sessions { length self.new.engine.sessions ≡ length self.old.engine.sessions }
    {
        // What holds of every engine holds of this one.
        self.engine.actors();
        match self.make_ready(alloc, disk, &step) {
            Ok(()) => self.engine.step(alloc, step),
            Err(_refusal) => Reply::More,
        }
    }

    /// All that is left of the call that an actor has started.
    pub fn finish<D: Disk>(&mut self, alloc: Global, disk: &mut D, actor: Actor) -> Answer<Item>
        requires { StepFits self.old.engine (Step.Go actor) }
        ensures finished { Holding D.Disk self.old disk.old (λ start w first made. Finished D.Disk start w first made self.old self.new disk.old disk.new actor result) }
        ensures told { TellsSo D.Disk self.old self.new disk.old disk.new (λ basis start. MayAnswerSo D.Disk basis start disk.new result) }
        ensures keeps { CallKeeps D.Disk self.old self.new disk.old disk.new }
        ensures sessions { length self.new.engine.sessions ≡ length self.old.engine.sessions }
    {
        let told = self.finish_through(alloc, disk, actor);
        self.make_way::<D>();
        told
    }

    // The same, with the leaves that it read still in their frames.
    pub(crate) fn finish_through<D: Disk>(
        &mut self,
        alloc: Global,
        disk: &mut D,
        actor: Actor,
    ) -> Answer<Item>
        requires { StepFits self.old.engine (Step.Go actor) }
        ensures finished { Holding D.Disk self.old disk.old (λ start w first made. Finished D.Disk start w first made self.old self.new disk.old disk.new actor result) }
        ensures told { TellsSo D.Disk self.old self.new disk.old disk.new (λ basis start. MayAnswerSo D.Disk basis start disk.new result) }
        ensures keeps { CallKeeps D.Disk self.old self.new disk.old disk.new }
        ensures sessions { length self.new.engine.sessions ≡ length self.old.engine.sessions }
    {
        // What holds of every engine holds of this one.
        self.engine.actors();
        match actor {
            Actor::Session(session) => {
                let called = self.engine.resume(alloc, session);
                self.end(alloc, disk, session, called)
            }
            Actor::System(number) => self.engine.finish_system(alloc, number),
        }
    }

    // A call that has come so far goes on to its end, leaf after leaf. Each round leaves it fewer steps.
    #[inline(always)]
    fn end<D: Disk>(
        &mut self,
        alloc: Global,
        disk: &mut D,
        session: u32,
        called: Called,
    ) -> Answer<Item>
        requires there { session < length self.old.engine.sessions }
        requires waits { WaitsAs called self.old.engine session }
        ensures calls { IsTrue (D.honest disk.old) → (w : World) (asked : Asked) → session < length w.sessions → self.old.engine.hub.fault ≡ w.machine.fault → IsBacked D.Disk self.old disk.old w
            → CallsBy D.Disk disk.old disk.old self.old.frames called self.old.engine self.old.ground.kept w session asked → CallsBy D.Disk disk.old disk.new self.old.frames (reached.Ended result) self.new.engine self.new.ground.kept w session asked }
        ensures steps { IsTrue (D.honest disk.old) → (w : World) → self.old.engine.hub.fault ≡ w.machine.fault → IsBacked D.Disk self.old disk.old w
            → StepsBy D.Disk disk.old disk.old self.old.frames called self.old.engine self.old.ground.kept w session → StepsBy D.Disk disk.old disk.new self.old.frames (reached.Ended result) self.new.engine self.new.ground.kept w session }
        ensures told { (basis : Option ABasis) (start : D) → D.faults start ≤ D.faults disk.old → IsBasis D.Disk basis self.old.engine disk.old → CalledSo D.Disk basis start disk.old called → AreToldSo D.Disk basis start self.old.engine disk.old
            → MayAnswerSo D.Disk basis start disk.new result × AreToldSo D.Disk basis start self.new.engine disk.new }
        ensures goes { (h : AHub) → HubGoesOn h self.old.engine.hub → HubGoesOn h self.new.engine.hub }
        ensures fault { self.new.engine.hub.fault ≡ self.old.engine.hub.fault }
        ensures ground { IsSameButKept self.old.ground self.new.ground }
        ensures running { self.new.running ≡ self.old.running }
        ensures frames { self.new.frames ≡ self.old.frames }
        ensures sessions { length self.new.engine.sessions ≡ length self.old.engine.sessions }
        ensures looked { Looked D.Disk disk.old disk.new }
        ensures home { D.home disk.new ≡ D.home disk.old }
    {
        let mut called = called;
        loop {
            match called {
                Called::Ended(answer) => return answer,
                Called::Waits(leaf) => called = self.go_on(alloc, disk, session, leaf),
            }
        }
    }

    // A call that waits for a leaf has it, or is kept out, and goes on up to its answer or to another leaf.
    #[inline(never)]
    fn go_on<D: Disk>(&mut self, alloc: Global, disk: &mut D, session: u32, leaf: u64) -> Called
        requires there { session < length self.old.engine.sessions }
        requires waits { waits_in self.old.engine session ≡ Some leaf }
        ensures calls { IsTrue (D.honest disk.old) → (w now : World) (asked : Asked) → session < length w.sessions → IsReached D.Disk self.old disk.old w now → IsUnderWay None w session asked now
            → CallsBy D.Disk disk.old disk.new self.old.frames result self.new.engine self.new.ground.kept w session asked }
        ensures steps { IsTrue (D.honest disk.old) → (w now : World) → IsReached D.Disk self.old disk.old w now
            → (middle : World) × ((middle ≡ now) ⊎ ((r : Refusal) × CauseSince D.Disk disk.old disk.new self.old.frames w now r × MayKeepOut now session r middle)) × Ends result self.new.engine (with_kept self.new.ground.kept middle) session }
        ensures told { (basis : Option ABasis) (start : D) → D.faults start ≤ D.faults disk.old → IsBasis D.Disk basis self.old.engine disk.old → AreToldSo D.Disk basis start self.old.engine disk.old
            → CalledSo D.Disk basis start disk.new result × AreToldSo D.Disk basis start self.new.engine disk.new }
        ensures waits { WaitsAs result self.new.engine session }
        ensures fewer { rounds_left result self.new.engine session < turns_in self.old.engine session + 1 }
        ensures goes { HubGoesOn self.old.engine.hub self.new.engine.hub }
        ensures ground { IsSameButKept self.old.ground self.new.ground }
        ensures running { self.new.running ≡ self.old.running }
        ensures frames { self.new.frames ≡ self.old.frames }
        ensures sessions { length self.new.engine.sessions ≡ length self.old.engine.sessions }
        ensures looked { Looked D.Disk disk.old disk.new }
        ensures home { D.home disk.new ≡ D.home disk.old }
    {
        let _ = self.let_in(alloc, disk, session, leaf);
        self.engine.resume(alloc, session)
    }

    // The leaf that the step's call waits for, where there is one, comes into a frame. Where it cannot be
    // had, the call is kept out.
    fn make_ready<D: Disk>(
        &mut self,
        alloc: Global,
        disk: &mut D,
        step: &Step,
    ) -> Result<(), Refusal>
        requires fits { StepFits self.old.engine step.now }
        ensures steps { IsTrue (D.honest disk.old) → (w now : World) → IsReached D.Disk self.old disk.old w now → ReadiesOrNot (CauseSince D.Disk disk.old disk.new self.old.frames w now) self.new.engine self.new.ground.kept now step.now result }
        ensures told { (basis : Option ABasis) (start : D) → D.faults start ≤ D.faults disk.old → IsBasis D.Disk basis self.old.engine disk.old → AreToldSo D.Disk basis start self.old.engine disk.old → AreToldSo D.Disk basis start self.new.engine disk.new }
        ensures ready { OnOk result (awaited_by self.new.engine step.now ≡ None) }
        ensures fits { StepFits self.new.engine step.now }
        ensures then { OnOk result ((next : AHub) → HubGoesOn self.new.engine.hub next → HubGoesOn self.old.engine.hub next) }
        ensures goes { OnErr result (HubGoesOn self.old.engine.hub self.new.engine.hub) }
        ensures ground { IsSameButKept self.old.ground self.new.ground }
        ensures running { self.new.running ≡ self.old.running }
        ensures frames { self.new.frames ≡ self.old.frames }
        ensures sessions { length self.new.engine.sessions ≡ length self.old.engine.sessions }
        ensures looked { Looked D.Disk disk.old disk.new }
        ensures home { D.home disk.new ≡ D.home disk.old }
    {
        match session_of(step) {
            None => Ok(()),
            Some(session) => match self.engine.waits(session) {
                None => Ok(()),
                Some(leaf) => self.let_in(alloc, disk, session, leaf),
            },
        }
    }

    // The leaf that a session's call waits for comes into a frame. Where it cannot be had, the call is
    // kept out.
    pub(crate) fn let_in<D: Disk>(
        &mut self,
        alloc: Global,
        disk: &mut D,
        session: u32,
        leaf: u64,
    ) -> Result<(), Refusal>
        requires waits { waits_in self.old.engine session ≡ Some leaf }
        ensures steps { IsTrue (D.honest disk.old) → (w now : World) → IsReached D.Disk self.old disk.old w now → ComesOrNot (CauseSince D.Disk disk.old disk.new self.old.frames w now) self.new.engine self.new.ground.kept now session result }
        ensures reaches { IsTrue (D.honest disk.old) → (w now : World) (asked : Asked) → session < length w.sessions → IsReached D.Disk self.old disk.old w now → IsUnderWay None w session asked now
            → ReachesOrNot (CauseSince D.Disk disk.old disk.new self.old.frames w now) self.new.engine self.new.ground.kept w session asked now result }
        ensures told { (basis : Option ABasis) (start : D) → D.faults start ≤ D.faults disk.old → IsBasis D.Disk basis self.old.engine disk.old → AreToldSo D.Disk basis start self.old.engine disk.old → AreToldSo D.Disk basis start self.new.engine disk.new }
        ensures ready { waits_in self.new.engine session ≡ None }
        ensures turns { turns_in self.new.engine session ≤ turns_in self.old.engine session }
        ensures fewer { OnErr result (turns_in self.new.engine session < turns_in self.old.engine session) }
        ensures goes { HubGoesOn self.old.engine.hub self.new.engine.hub }
        ensures ground { IsSameButKept self.old.ground self.new.ground }
        ensures running { self.new.running ≡ self.old.running }
        ensures frames { self.new.frames ≡ self.old.frames }
        ensures sessions { length self.new.engine.sessions ≡ length self.old.engine.sessions }
        ensures looked { Looked D.Disk disk.old disk.new }
        ensures home { D.home disk.new ≡ D.home disk.old }
    {
        match self.fetch(alloc, disk, leaf) {
            Ok(()) => Ok(()),
            Err(refusal) => {
                self.engine.keep_out(session, refusal);
                Err(refusal)
            }
        }
    }

    // A leaf that is in no frame comes into one, while the engine is up, and not each frame is kept by a leaf.
    fn fetch<D: Disk>(&mut self, alloc: Global, disk: &mut D, leaf: u64) -> Result<(), Refusal>
        requires away { IsAway self.old.engine.hub.dir.leaves leaf }
        ensures stands { IsTrue (D.honest disk.old) → (w now : World) → IsReached D.Disk self.old disk.old w now → OnOk result (Stands self.new.engine (with_kept self.new.ground.kept now)) }
        ensures cause { IsTrue (D.honest disk.old) → (w now : World) → IsReached D.Disk self.old disk.old w now → IfErr result (CauseSince D.Disk disk.old disk.new self.old.frames w now) }
        ensures told { (basis : Option ABasis) (start : D) → D.faults start ≤ D.faults disk.old → IsBasis D.Disk basis self.old.engine disk.old → IfErr result (MayTell D.Disk basis start disk.new) }
        ensures found { IfErr result (λ r. r ≢ Refusal.NotFound) }
        ensures ready { (session : ℕ) → waits_in self.old.engine session ≡ Some leaf → OnOk result (waits_in self.new.engine session ≡ None) }
        ensures turns { (session : ℕ) → OnOk result (turns_in self.new.engine session ≡ turns_in self.old.engine session) }
        ensures kept { OnErr result (self.new.engine ≡ self.old.engine) }
        ensures keeps { OnErr result (self.new.ground.kept ≡ self.old.ground.kept) }
        ensures firm { OnOk result (IsFullOf self.old.frames self.old.engine → ⊥) }
        ensures goes { OnOk result (HubGoesOn self.old.engine.hub self.new.engine.hub) }
        ensures ground { IsSameButKept self.old.ground self.new.ground }
        ensures running { self.new.running ≡ self.old.running }
        ensures frames { self.new.frames ≡ self.old.frames }
        ensures sessions { self.new.engine.sessions ≡ self.old.engine.sessions }
        ensures looked { Looked D.Disk disk.old disk.new }
        ensures home { D.home disk.new ≡ D.home disk.old }
    {
        // What holds of the leaves of every engine holds of these.
        self.engine.leaves();
        if let Some(fault) = self.engine.fault() {
            return Err(Refusal::Panic { fault });
        }
        // No checkpoint of this engine wrote a leaf that is in no frame.
        if let Some(_) = self.ground.parts.of(leaf) {
            return Err(Refusal::NoMemory);
        }
        if self.is_full() {
            return Err(Refusal::CacheFull);
        }
        self.clock.tick();
        bring(alloc, disk, &mut self.ground.kept, &mut self.engine, leaf)
    }
}

// The session with whose call a step goes on.
pub(crate) fn session_of(step: &Step) -> Option<u32>
    ensures { result ≡ session_in step.now }
{
    match step {
        Step::Go(Actor::Session(session)) => Some(*session),
        _ => None,
    }
}
