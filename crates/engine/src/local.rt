// The engine of one thread.

ghost use Rattle.std.specs.Prelude.{◌≡◌, ◌⊎◌, ◌<◌, ◌≤◌, ◌+◌, ◌^◌, ℕ, None, List, length, slice_index_or, IfOk, IfErr, OnErr, option_map};
ghost use Rattle.limits.specs.declared.TheConstants.{NUMBER_MAX, SESSIONS_MAX, TABLES_MAX};
ghost use Rattle.kv_model.specs.Allowed.{StampsFit};
ghost use Rattle.kv_model.specs.Content.{Content};
ghost use Rattle.kv_model.specs.Decisions.{is_there};
ghost use Rattle.kv_model.specs.History.{named, tables};
ghost use Rattle.kv_model.specs.Regular.{IsRegular};
ghost use Rattle.row_page.specs.Rows.{Row as ARow};
ghost use Rattle.wt_calls.specs.Calls.{session_call_in, system_call_in};
ghost use Rattle.engine_world.specs.Leaves.{LeavesOwned};
ghost use Rattle.engine_world.specs.Stands.{Stands};
ghost use Rattle.engine_world.specs.Steps.{MayBegin};
ghost use Rattle.engine_world.specs.Systems.{first_world};
ghost use Rattle.engine_world.specs.Worlds.{Records, World};
ghost use Rattle.engine.specs.Bases.{IsBaseOf};
ghost use Rattle.engine.specs.Directories.{HubGoesOn};
ghost use Rattle.engine.specs.Openings.{IsOpened};
ghost use Rattle.engine.specs.Runs.{IsBuilt, MayAsk, MayStep, StepFits, StepsOut};
ghost use Rattle.engine.specs.Sound.{AreBuilt};
ghost use Rattle.engine.specs.Told.{EndsFrom, IsOwnAlways, KeepOwn, TellsFrom, answer_in, kept_by};
ghost use Rattle.engine.specs.Waits.{WaitsAs, awaited_by};
ghost use Rattle.engine.specs.Whole.{CallsTo, MayAnswer, with_session_more};

use crate::called::Called;
use crate::parts::Parts;
use crate::step::{Actor, Step};
use call_steps::Reply;
use catalog::Catalog;
use failure::NoMemory;
use item::{Formats, Item};
use std::alloc::Global;
use std::marker::Model;
use tree_dir::Dir;
use wt_calls::{Call, SessionCall, SystemCall};
use wt_code::{Answer, Limit, Refusal};

/// The engine of one thread.
#[derive(Drop)]
pub struct Local {
    pub(crate) parts: Parts,
}

impl Model for Local {
    ghost use Rattle.engine_world.specs.Stands.{Engine};
    ghost use Rattle.engine.specs.Sound.{IsSound};

    ghost Value = { Engine };

    ghost view = { λ l. l.parts };

    ghost invariant = { λ l. IsSound l.parts };
}

impl Local {
    /// An engine on what a device holds: the run that begins, its two stamps, its tables, and their
    /// leaves, which are in no frame: each comes into one when a call asks for it. It has no session.
    /// The error is want of memory.
    pub fn open(
        alloc: Global,
        run: u64,
        oldest: u64,
        stable: u64,
        tables: Catalog,
        dir: Dir,
    ) -> Result<Local, NoMemory>
        requires numbers { tables.next + TABLES_MAX < 2 ^ 32 + length tables.tables }
        requires owned { LeavesOwned tables.tables dir.leaves }
        requires stamps { StampsFit oldest stable }
        requires begun { 1 ≤ run }
        requires run { run ≤ NUMBER_MAX }
        ensures stands { (c : Content) (shelf : ℕ → List ARow) (records : Records) → IsRegular c → IsBaseOf c shelf records run oldest stable tables dir → IfOk result (λ l. Stands l (first_world c shelf records l)) }
        ensures opened { IfOk result (λ l. IsOpened run oldest stable tables dir l) }
    {
        let parts = Parts::new(alloc, run, oldest, stable, tables, dir)?;
        Ok(Local { parts })
    }

    /// How many sessions are open.
    pub fn sessions(&self) -> u32
        ensures { result ≡ length self.now.sessions }
    {
        self.parts.count()
    }

    /// How many actors of the system there are: four.
    pub fn actors(&self) -> u32
        ensures count { result ≡ 4 }
        ensures systems { length self.now.systems ≡ 4 }
        ensures built { AreBuilt self.now.systems }
    {
        let _ = &self.parts;
        4
    }

    /// Whether an actor of the system has a call that is not finished. `O(1)`.
    pub fn has_started(&self, number: u32) -> bool
        ensures { (w : World) → Stands self.now w → result ≡ is_there (slice_index_or w.systems number None) }
    {
        self.parts.has_started(number)
    }

    /// The formats of the table of this name. `O(log n)` in the tables.
    pub fn formats_of(&self, name: &[u8]) -> Option<Formats>
        ensures { (w : World) → Stands self.now w → result ≡ option_map (λ t. t.formats) (named name.now (tables w.machine.history)) }
    {
        self.parts.formats_of(name)
    }

    /// Opens a session, and gives its number. Refused where `SESSIONS_MAX` of `limits` are open, and
    /// for want of memory; then nothing is changed.
    pub fn open_session(&mut self, alloc: Global) -> Result<u32, Refusal>
        ensures opened { (w : World) → Stands self.old w → IfOk result (λ n. (n ≡ length self.old.sessions) × Stands self.new (with_session_more w)) }
        ensures more { IfOk result (λ n. length self.new.sessions ≡ length self.old.sessions + 1) }
        ensures refused { IfErr result (λ r. (r ≡ Refusal.NoMemory) ⊎ ((r ≡ Refusal.Limit Limit.Sessions) × (SESSIONS_MAX ≤ length self.old.sessions))) }
        ensures kept { OnErr result (self.new ≡ self.old) }
        ensures goes { HubGoesOn self.old.hub self.new.hub }
        ensures own { KeepOwn self.old self.new }
    {
        self.parts.open_session(alloc)
    }

    /// One step of an actor: a call begins, or goes on by one event. `O(1)` beside the event. A call
    /// that waits for a leaf goes on once the leaf has come, or was kept from it.
    pub fn step(&mut self, alloc: Global, step: Step) -> Reply
        requires fits { StepFits self.old step }
        requires ready { awaited_by self.old step ≡ None }
        ensures step { (w : World) → Stands self.old w → (later : World) × MayStep w step result later × Stands self.new later }
        ensures sessions { length self.new.sessions ≡ length self.old.sessions }
        ensures systems { length self.new.systems ≡ length self.old.systems }
        ensures goes { HubGoesOn self.old.hub self.new.hub }
        ensures own { KeepOwn self.old self.new }
        ensures tells { TellsFrom (kept_by self.old step) result }
    {
        match step {
            Step::Start(Call::Session(session, call)) => self.start(alloc, session, call),
            Step::Start(Call::System(number, call)) => self.ask(number, call),
            Step::Go(actor) => self.go(alloc, actor),
        }
    }

    fn start(&mut self, alloc: Global, session: u32, call: SessionCall) -> Reply
        requires { session < length self.old.sessions }
        ensures begun { (w : World) → Stands self.old w → (later : World) × MayBegin w session (session_call_in call) result later × Stands self.new later }
        ensures sessions { length self.new.sessions ≡ length self.old.sessions }
        ensures systems { length self.new.systems ≡ length self.old.systems }
        ensures goes { HubGoesOn self.old.hub self.new.hub }
        ensures own { KeepOwn self.old self.new }
        ensures tells { TellsFrom Answer.Done result }
    {
        self.parts.start(alloc, session, call)
    }

    fn ask(&mut self, number: u32, call: SystemCall) -> Reply
        requires there { number < length self.old.systems }
        requires built { IsBuilt call }
        ensures steps { (w : World) → Stands self.old w → (later : World) × MayAsk w number (system_call_in call) result later × Stands self.new later }
        ensures sessions { length self.new.sessions ≡ length self.old.sessions }
        ensures systems { length self.new.systems ≡ length self.old.systems }
        ensures goes { HubGoesOn self.old.hub self.new.hub }
        ensures own { KeepOwn self.old self.new }
        ensures tells { TellsFrom Answer.Done result }
    {
        self.parts.ask(number, call)
    }

    fn go(&mut self, alloc: Global, actor: Actor) -> Reply
        requires fits { StepFits self.old (Step.Go actor) }
        requires ready { awaited_by self.old (Step.Go actor) ≡ None }
        ensures step { (w : World) → Stands self.old w → (later : World) × MayStep w (Step.Go actor) result later × Stands self.new later }
        ensures sessions { length self.new.sessions ≡ length self.old.sessions }
        ensures systems { length self.new.systems ≡ length self.old.systems }
        ensures goes { HubGoesOn self.old.hub self.new.hub }
        ensures own { KeepOwn self.old self.new }
        ensures tells { TellsFrom (kept_by self.old (Step.Go actor)) result }
    {
        match actor {
            Actor::Session(session) => self.parts.go(alloc, session),
            Actor::System(number) => self.parts.make(alloc, number),
        }
    }

    /// A whole call of a session, or its part up to a leaf that is in no frame. It comes there: each
    /// of its steps leaves fewer of them. A call of one key is a few steps: `O(log t)` comparisons with
    /// the names of t tables, `O(log l)` with the low keys of l leaves, `O(log n)` with n keys of its
    /// leaf, where a put above all others needs one, and a copy of the key that is new or of the value
    /// that is read. A commit is `O(k)` in the k keys that were written, and their sort by leaf.
    /// Inlined, so that where the kind of the call is known no call is made up and taken apart.
    #[inline(always)]
    pub fn call(&mut self, alloc: Global, session: u32, call: SessionCall) -> Called
        requires { session < length self.old.sessions }
        ensures answer { (w : World) → Stands self.old w → CallsTo result self.new w session (session_call_in call) }
        ensures waits { WaitsAs result self.new session }
        ensures dir { self.new.hub.dir ≡ self.old.hub.dir }
        ensures sessions { length self.new.sessions ≡ length self.old.sessions }
        ensures goes { HubGoesOn self.old.hub self.new.hub }
        ensures own { KeepOwn self.old self.new }
        ensures tells { EndsFrom (answer_in self.old session) result }
    {
        self.parts.call(alloc, session, call)
    }

    /// A whole call of an actor of the system: one event. It waits for no leaf.
    pub fn call_system(&mut self, alloc: Global, number: u32, call: SystemCall) -> Answer<Item>
        requires there { number < length self.old.systems }
        requires built { IsBuilt call }
        ensures answer { (w : World) → Stands self.old w → (later : World) × MayAnswer w (Call.System number call) result later × Stands self.new later }
        ensures sessions { length self.new.sessions ≡ length self.old.sessions }
        ensures goes { HubGoesOn self.old.hub self.new.hub }
        ensures own { KeepOwn self.old self.new }
        ensures tells { IsOwnAlways result }
    {
        self.parts.call_system(alloc, number, call)
    }

    /// All that is left of the call that an actor of the system has started: one event.
    pub fn finish_system(&mut self, alloc: Global, number: u32) -> Answer<Item>
        requires { number < length self.old.systems }
        ensures steps { (w : World) → Stands self.old w → (later : World) × StepsOut 0 w (Actor.System number) result later × Stands self.new later }
        ensures sessions { length self.new.sessions ≡ length self.old.sessions }
        ensures goes { HubGoesOn self.old.hub self.new.hub }
        ensures own { KeepOwn self.old self.new }
        ensures tells { IsOwnAlways result }
    {
        self.parts.make_whole(alloc, number)
    }
}
