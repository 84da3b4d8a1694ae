// Whole calls of a session whose items are lent.

ghost use Rattle.std.specs.Prelude.{◌≡◌, ◌<◌, length, IfOk, OnErr};
ghost use Rattle.wt_calls.specs.Calls.{session_call_in};
ghost use Rattle.engine_world.specs.Stands.{Stands};
ghost use Rattle.engine_world.specs.Steps.{MayBegin};
ghost use Rattle.engine_world.specs.Worlds.{World, Resting, doing_of};
ghost use Rattle.engine.specs.Directories.{HubGoesOn};
ghost use Rattle.engine.specs.Sound.{IsSound, Keeps};
ghost use Rattle.engine.specs.Told.{EndsFrom, KeepOwn, TellsFrom, answer_in};
ghost use Rattle.engine.specs.Waits.{WaitsAs};
ghost use Rattle.engine.specs.Whole.{CallsTo};

use crate::called::Called;
use crate::local::Local;
use crate::parts::Parts;
use call_steps::Reply;
use call_turns::{answers_are_own, calls_run, seats_stay};
use engine_world::starts_go;
use failure::NoMemory;
use std::alloc::Global;
use wt_calls::{Demand, SessionCall};
use wt_code::{Answer, Refusal};

impl Parts {
    fn start_get(
        &mut self,
        alloc: Global,
        session: u32,
        table: &[u8],
        key: &[u8],
    ) -> Result<Reply, NoMemory>
        requires { session < length self.old.sessions }
        ensures begun { IfOk result (λ told. (w : World) → Stands self.old w → (later : World) × MayBegin w session (session_call_in (SessionCall.Get table.now key.now)) told later × Stands self.new later) }
        ensures rests { OnErr result ((w : World) → Stands self.old w → (doing_of w session ≡ Resting) × Stands self.new w) }
        ensures kept { Keeps self.old self.new }
        ensures tells { IfOk result (λ told. TellsFrom Answer.Done told) }
    {
        starts_go();
        seats_stay();
        calls_run();
        answers_are_own();
        self.sessions[session as usize].start_get(alloc, table, key)
    }

    /// A whole get of a session.
    fn get(&mut self, alloc: Global, session: u32, table: &[u8], key: &[u8]) -> Called
        requires open { session < length self.old.sessions }
        requires sound { IsSound self.old }
        ensures answer { (w : World) → Stands self.old w → CallsTo result self.new w session (session_call_in (SessionCall.Get table.now key.now)) }
        ensures waits { WaitsAs result self.new session }
        ensures kept { Keeps self.old self.new }
        ensures tells { EndsFrom (answer_in self.old session) result }
    {
        match self.start_get(alloc, session, table, key) {
            Ok(told) => self.go_through(alloc, session, told),
            Err(NoMemory) => Called::Ended(Answer::Refused(Refusal::NoMemory)),
        }
    }

    fn start_put(
        &mut self,
        alloc: Global,
        session: u32,
        table: &[u8],
        key: &[u8],
        value: &[u8],
        demand: Demand,
    ) -> Result<Reply, NoMemory>
        requires { session < length self.old.sessions }
        ensures begun { IfOk result (λ told. (w : World) → Stands self.old w → (later : World) × MayBegin w session (session_call_in (SessionCall.Put table.now key.now value.now demand)) told later × Stands self.new later) }
        ensures rests { OnErr result ((w : World) → Stands self.old w → (doing_of w session ≡ Resting) × Stands self.new w) }
        ensures kept { Keeps self.old self.new }
        ensures tells { IfOk result (λ told. TellsFrom Answer.Done told) }
    {
        starts_go();
        seats_stay();
        calls_run();
        answers_are_own();
        self.sessions[session as usize].start_put(alloc, table, key, value, demand)
    }

    /// A whole put of a session.
    fn put(
        &mut self,
        alloc: Global,
        session: u32,
        table: &[u8],
        key: &[u8],
        value: &[u8],
        demand: Demand,
    ) -> Called
        requires open { session < length self.old.sessions }
        requires sound { IsSound self.old }
        ensures answer { (w : World) → Stands self.old w → CallsTo result self.new w session (session_call_in (SessionCall.Put table.now key.now value.now demand)) }
        ensures waits { WaitsAs result self.new session }
        ensures kept { Keeps self.old self.new }
        ensures tells { EndsFrom (answer_in self.old session) result }
    {
        match self.start_put(alloc, session, table, key, value, demand) {
            Ok(told) => self.go_through(alloc, session, told),
            Err(NoMemory) => Called::Ended(Answer::Refused(Refusal::NoMemory)),
        }
    }
}

impl Local {
    /// A whole get, as `call` with `SessionCall::Get`, of bytes that are lent: they are copied into
    /// buffers of the session that are used again. One allocation, for the value that it answers.
    pub fn get(&mut self, alloc: Global, session: u32, table: &[u8], key: &[u8]) -> Called
        requires { session < length self.old.sessions }
        ensures answer { (w : World) → Stands self.old w → CallsTo result self.new w session (session_call_in (SessionCall.Get table.now key.now)) }
        ensures waits { WaitsAs result self.new session }
        ensures dir { self.new.hub.dir ≡ self.old.hub.dir }
        ensures sessions { length self.new.sessions ≡ length self.old.sessions }
        ensures goes { HubGoesOn self.old.hub self.new.hub }
        ensures own { KeepOwn self.old self.new }
        ensures tells { EndsFrom (answer_in self.old session) result }
    {
        self.parts.get(alloc, session, table, key)
    }

    /// A whole put, as `call` with `SessionCall::Put`, of bytes that are lent: the value is copied
    /// once, into the update that is kept, and the others into buffers of the session that are used
    /// again. A key that is new to its leaf is copied once more.
    pub fn put(
        &mut self,
        alloc: Global,
        session: u32,
        table: &[u8],
        key: &[u8],
        value: &[u8],
        demand: Demand,
    ) -> Called
        requires { session < length self.old.sessions }
        ensures answer { (w : World) → Stands self.old w → CallsTo result self.new w session (session_call_in (SessionCall.Put table.now key.now value.now demand)) }
        ensures waits { WaitsAs result self.new session }
        ensures dir { self.new.hub.dir ≡ self.old.hub.dir }
        ensures sessions { length self.new.sessions ≡ length self.old.sessions }
        ensures goes { HubGoesOn self.old.hub self.new.hub }
        ensures own { KeepOwn self.old self.new }
        ensures tells { EndsFrom (answer_in self.old session) result }
    {
        self.parts.put(alloc, session, table, key, value, demand)
    }
}
