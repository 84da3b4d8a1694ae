// What an engine does beside the steps of sessions: sessions are opened, and calls of the system are
// made, each by one event. A function calls the laws that its proof rests on, which do nothing.

ghost use Rattle.std.specs.Prelude.{◌≡◌, ◌⊎◌, ◌<◌, ◌≤◌, ◌+◌, [], None, Some, length, slice_index_or, option_map, IfOk, IfErr, OnErr};
ghost use Rattle.kv_model.specs.Calls.{Create, Set};
ghost use Rattle.kv_model.specs.Decisions.{is_there};
ghost use Rattle.kv_model.specs.History.{named, tables};
ghost use Rattle.wt_calls.specs.Calls.{system_call_in};
ghost use Rattle.engine_world.specs.Stands.{Stands};
ghost use Rattle.engine_world.specs.Worlds.{World};
ghost use Rattle.engine.specs.Directories.{HubGoesOn};
ghost use Rattle.engine.specs.Runs.{IsBuilt, MayAsk, MayMake, StepsOut};
ghost use Rattle.engine.specs.Sound.{IsSound};
ghost use Rattle.engine.specs.Systems.{Makes};
ghost use Rattle.engine.specs.Told.{IsOwnAlways, KeepOwn, TellsFrom};
ghost use Rattle.engine.specs.Whole.{MayAnswer, with_session_more};

use crate::frames::{piece_of, room_for_one};
use crate::leaves::add_leaf;
use crate::parts::Parts;
use crate::step::Actor;
use call_steps::{Reply, SessionState, filled};
use catalog::{Created, creates_are_judged, creates_suit, names_turn, places_are_named};
use engine_world::{creates_go, frames_grow, opens_go, sets_go};
use failure::NoMemory;
use item::{Formats, Item};
use leaf_frame::LeafFrame;
use limits::SESSIONS_MAX;
use std::alloc::Global;
use wt_calls::{Call, SystemCall};
use wt_code::{Answer, Invalid, Limit, Refusal};

impl Parts {
    /// How many sessions are open.
    pub(crate) fn count(&self) -> u32
        requires { IsSound self.now }
        ensures { result ≡ length self.now.sessions }
    {
        self.hub.txns.sessions()
    }

    /// Whether an actor of the system has a call that is not finished.
    pub(crate) fn has_started(&self, number: u32) -> bool
        ensures { (w : World) → Stands self.now w → result ≡ is_there (slice_index_or w.systems number None) }
    {
        match self.systems.get(number as usize) {
            None => false,
            Some(call) => call.is_some(),
        }
    }

    /// The formats of the table of this name. `O(log n)` in the tables.
    pub(crate) fn formats_of(&self, name: &[u8]) -> Option<Formats>
        ensures { (w : World) → Stands self.now w → result ≡ option_map (λ t. t.formats) (named name.now (tables w.machine.history)) }
    {
        names_turn();
        places_are_named();
        let place = self.hub.tables.find(name)?;
        let table = self.hub.tables.table(place)?;
        Some(table.formats)
    }

    /// Opens a session, and gives its number.
    pub(crate) fn open_session(&mut self, alloc: Global) -> Result<u32, Refusal>
        requires { IsSound self.old }
        ensures opened { (w : World) → Stands self.old w → IfOk result (λ n. (n ≡ length self.old.sessions) × Stands self.new (with_session_more w)) }
        ensures more { IfOk result (λ n. length self.new.sessions ≡ length self.old.sessions + 1) }
        ensures refused { IfErr result (λ r. (r ≡ Refusal.NoMemory) ⊎ ((r ≡ Refusal.Limit Limit.Sessions) × (SESSIONS_MAX ≤ length self.old.sessions))) }
        ensures kept { OnErr result (self.new ≡ self.old) }
        ensures run { self.new.hub.txns.run ≡ self.old.hub.txns.run }
        ensures fault { self.new.hub.fault ≡ self.old.hub.fault }
        ensures tables { self.new.hub.tables ≡ self.old.hub.tables }
        ensures dir { self.new.hub.dir ≡ self.old.hub.dir }
        ensures sound { IsSound self.new }
        ensures own { KeepOwn self.old self.new }
    {
        opens_go();
        let state = SessionState::new(alloc)?;
        self.sessions.reserve(1)?;
        let session = self.hub.txns.open_session()?;
        self.sessions.push_reserved(state);
        Ok(session)
    }

    /// A call of an actor of the system begins, unless it has one.
    pub(crate) fn ask(&mut self, number: u32, call: SystemCall) -> Reply
        requires there { number < length self.old.systems }
        requires built { IsBuilt call }
        requires sound { IsSound self.old }
        ensures steps { (w : World) → Stands self.old w → (later : World) × MayAsk w number (system_call_in call) result later × Stands self.new later }
        ensures sessions { self.new.sessions ≡ self.old.sessions }
        ensures hub { self.new.hub ≡ self.old.hub }
        ensures sound { IsSound self.new }
        ensures tells { TellsFrom Answer.Done result }
    {
        if self.systems[number as usize].is_some() {
            return Reply::Answer(Answer::Refused(Refusal::Invalid(Invalid::InCall)));
        }
        self.systems[number as usize] = Some(call);
        Reply::Started
    }

    /// The event of the call that an actor of the system has started.
    pub(crate) fn make(&mut self, alloc: Global, number: u32) -> Reply
        requires there { number < length self.old.systems }
        requires sound { IsSound self.old }
        ensures steps { (w : World) → Stands self.old w → (later : World) × MayMake w number result later × Stands self.new later }
        ensures sessions { self.new.sessions ≡ self.old.sessions }
        ensures goes { HubGoesOn self.old.hub self.new.hub }
        ensures sound { IsSound self.new }
        ensures tells { TellsFrom Answer.Done result }
    {
        Reply::Answer(self.make_whole(alloc, number))
    }

    /// All that is left of the call that an actor of the system has started: one event.
    pub(crate) fn make_whole(&mut self, alloc: Global, number: u32) -> Answer<Item>
        requires there { number < length self.old.systems }
        requires sound { IsSound self.old }
        ensures steps { (w : World) → Stands self.old w → (later : World) × StepsOut 0 w (Actor.System number) result later × Stands self.new later }
        ensures sessions { self.new.sessions ≡ self.old.sessions }
        ensures goes { HubGoesOn self.old.hub self.new.hub }
        ensures sound { IsSound self.new }
        ensures tells { IsOwnAlways result }
    {
        match self.systems[number as usize].take() {
            None => Answer::Refused(Refusal::Invalid(Invalid::NoCall)),
            Some(call) => self.made(alloc, call),
        }
    }

    /// A whole call of an actor of the system, unless it has one.
    pub(crate) fn call_system(
        &mut self,
        alloc: Global,
        number: u32,
        call: SystemCall,
    ) -> Answer<Item>
        requires there { number < length self.old.systems }
        requires built { IsBuilt call }
        requires sound { IsSound self.old }
        ensures steps { (w : World) → Stands self.old w → (later : World) × MayAnswer w (Call.System number call) result later × Stands self.new later }
        ensures sessions { self.new.sessions ≡ self.old.sessions }
        ensures goes { HubGoesOn self.old.hub self.new.hub }
        ensures sound { IsSound self.new }
        ensures tells { IsOwnAlways result }
    {
        if self.systems[number as usize].is_some() {
            return Answer::Refused(Refusal::Invalid(Invalid::InCall));
        }
        self.made(alloc, call)
    }

    // One event makes the call.
    fn made(&mut self, alloc: Global, call: SystemCall) -> Answer<Item>
        requires built { IsBuilt call }
        requires sound { IsSound self.old }
        ensures makes { (w : World) → Stands self.old w → Makes self.new w (system_call_in call) result }
        ensures systems { self.new.systems ≡ self.old.systems }
        ensures sessions { self.new.sessions ≡ self.old.sessions }
        ensures goes { HubGoesOn self.old.hub self.new.hub }
        ensures sound { IsSound self.new }
        ensures tells { IsOwnAlways result }
    {
        match call {
            SystemCall::Create { table, formats } => self.create(alloc, table.as_bytes(), formats),
            SystemCall::SetStamps { oldest, stable } => self.set(oldest, stable),
            _ => Answer::Done,
        }
    }

    /// Makes a table, or finds it. Its first leaf is empty, in a frame more, for which there is room
    /// before the table is made. `O(log n)` in the tables, and for a new one a copy of the name.
    pub(crate) fn create(&mut self, alloc: Global, name: &[u8], formats: Formats) -> Answer<Item>
        requires { IsSound self.old }
        ensures makes { (w : World) → Stands self.old w → Makes self.new w (Create name.now formats) result }
        ensures systems { self.new.systems ≡ self.old.systems }
        ensures sessions { self.new.sessions ≡ self.old.sessions }
        ensures goes { HubGoesOn self.old.hub self.new.hub }
        ensures sound { IsSound self.new }
        ensures tells { IsOwnAlways result }
    {
        creates_go();
        frames_grow();
        creates_are_judged();
        creates_suit();
        if let Some(fault) = self.hub.fault {
            return Answer::Refused(Refusal::Panic { fault });
        }
        // What holds of every catalog and of every directory holds of these.
        let _known = self.hub.tables.len();
        self.hub.dir.stands();
        let number = self.hub.tables.next_number();
        let frame = match room_for_one(&mut self.pieces, &mut self.states) {
            Err(NoMemory) => return Answer::Refused(Refusal::NoMemory),
            Ok(frame) => frame,
        };
        match self.hub.tables.create(alloc, name, formats) {
            Err(refusal) => Answer::Refused(refusal),
            Ok(Created::Same(_)) => Answer::Done,
            Ok(Created::New(_)) => {
                // What holds of every catalog holds of the one with the new table.
                let _count = self.hub.tables.len();
                match add_leaf(alloc, &mut self.hub.dir, number, frame) {
                    Err(NoMemory) => {
                        self.hub.tables.take_back();
                        Answer::Refused(Refusal::NoMemory)
                    }
                    Ok(id) => {
                        // What holds of every directory holds of this one.
                        self.hub.dir.stands();
                        let leaf = LeafFrame::new(alloc);
                        self.pieces.push_reserved(piece_of(0, number, id, leaf));
                        self.states.push_reserved(filled(0));
                        Answer::Done
                    }
                }
            }
        }
    }

    /// Raises the oldest and the stable stamp. `O(1)`.
    pub(crate) fn set(&mut self, oldest: Option<u64>, stable: Option<u64>) -> Answer<Item>
        requires { IsSound self.old }
        ensures makes { (w : World) → Stands self.old w → Makes self.new w (Set oldest stable) result }
        ensures systems { self.new.systems ≡ self.old.systems }
        ensures sessions { self.new.sessions ≡ self.old.sessions }
        ensures goes { HubGoesOn self.old.hub self.new.hub }
        ensures sound { IsSound self.new }
        ensures tells { IsOwnAlways result }
    {
        sets_go();
        if let Some(fault) = self.hub.fault {
            return Answer::Refused(Refusal::Panic { fault });
        }
        if let Err(reason) = self.hub.stamps.set(oldest, stable) {
            return Answer::Refused(Refusal::Invalid(reason));
        }
        Answer::Done
    }
}
