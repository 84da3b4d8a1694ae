//! The calls of actors beside evictions that go by steps. A call that comes to a frame which one of them
//! has locked is told `11 again`. While there is such an eviction no leaf leaves memory behind a call.

ghost use Rattle.std.specs.Prelude.{◌≡◌, ◌<◌, List, Option, length};
ghost use Rattle.wt_calls.specs.Calls.{session_call_in};
ghost use Rattle.call_turns.specs.Turns.{IsNoAnswer};
ghost use Rattle.engine.specs.declared.turning.Evicting.{Evicting as AnEvicting};
ghost use Rattle.engine.specs.Runs.{StepFits};
ghost use Rattle.engine.specs.Waits.{turns_in};
ghost use Rattle.engine_store.specs.Beside.{CalledBeside, FinishedBeside, StepTurnsAway, SteppedBeside, TurnsAway};
ghost use Rattle.engine_store.specs.Calls.{CallKeeps, Holding, MayAnswerSo, MayReplySo, TellsSo};

use crate::calls::session_of;
use crate::store::Store;
use call_steps::Reply;
use disk_model::Disk;
use engine::{Actor, Evicting, Step, are_any};
use engine_world::{kept_out_reaches, steps_reach};
use item::Item;
use std::alloc::Global;
use wt_calls::{Call, SessionCall};
use wt_code::Answer;

impl Store {
    /// One step of an actor, as `step`, beside these evictions.
    pub fn step_beside<D: Disk>(
        &mut self,
        alloc: Global,
        disk: &mut D,
        step: Step,
        evicting: &[Option<Evicting>],
    ) -> Reply
        requires { StepFits self.old.engine step }
        ensures stepped { Holding D.Disk self.old disk.old (λ start w first made. SteppedBeside D.Disk start w first made self.old self.new disk.old disk.new evicting.now step result) }
        ensures turns { StepTurnsAway evicting.now self.old.engine self.new.engine step result }
        ensures told { TellsSo D.Disk self.old self.new disk.old disk.new (λ basis start. MayReplySo D.Disk basis start disk.new result) }
        ensures keeps { CallKeeps D.Disk self.old self.new disk.old disk.new }
        ensures sessions { length self.new.engine.sessions ≡ length self.old.engine.sessions }
    {
        if !are_any(evicting) {
            return self.step(alloc, disk, step);
        }
        match session_of(&step) {
            Some(session) => self.go_beside(alloc, disk, session, evicting),
            None => self.step_through(alloc, disk, step),
        }
    }

    // One step of a session's call, which is turned away from a locked frame.
    fn go_beside<D: Disk>(
        &mut self,
        alloc: Global,
        disk: &mut D,
        session: u32,
        evicting: &[Option<Evicting>],
    ) -> Reply
        requires { session < length self.old.engine.sessions }
        ensures stepped { Holding D.Disk self.old disk.old (λ start w first made. SteppedBeside D.Disk start w first made self.old self.new disk.old disk.new evicting.now (Step.Go (Actor.Session session)) result) }
        ensures turns { TurnsAway evicting.now self.old.engine self.new.engine session result }
        ensures fewer { IsNoAnswer result → turns_in self.new.engine session < turns_in self.old.engine session }
        ensures fault { self.new.engine.hub.fault ≡ self.old.engine.hub.fault }
        ensures told { TellsSo D.Disk self.old self.new disk.old disk.new (λ basis start. MayReplySo D.Disk basis start disk.new result) }
        ensures keeps { CallKeeps D.Disk self.old self.new disk.old disk.new }
        ensures sessions { length self.new.engine.sessions ≡ length self.old.engine.sessions }
    {
        // What holds of every engine holds of this one.
        self.engine.actors();
        match self.engine.turned(session, evicting) {
            Some(seen) => {
                self.engine.turn_away(session, seen);
                Reply::More
            }
            None => self.go_free(alloc, disk, session),
        }
    }

    // One step of a session's call, for which a leaf that it waits for is read first; where it cannot be
    // had, that is the step.
    fn go_free<D: Disk>(&mut self, alloc: Global, disk: &mut D, session: u32) -> Reply
        requires { session < length self.old.engine.sessions }
        ensures stepped { (evicting : List (Option AnEvicting)) → Holding D.Disk self.old disk.old (λ start w first made. SteppedBeside D.Disk start w first made self.old self.new disk.old disk.new evicting (Step.Go (Actor.Session session)) result) }
        ensures fewer { IsNoAnswer result → turns_in self.new.engine session < turns_in self.old.engine session }
        ensures fault { self.new.engine.hub.fault ≡ self.old.engine.hub.fault }
        ensures told { TellsSo D.Disk self.old self.new disk.old disk.new (λ basis start. MayReplySo D.Disk basis start disk.new result) }
        ensures keeps { CallKeeps D.Disk self.old self.new disk.old disk.new }
        ensures sessions { length self.new.engine.sessions ≡ length self.old.engine.sessions }
    {
        // What holds of every engine holds of this one.
        self.engine.actors();
        match self.engine.waits(session) {
            None => self.engine.go_once(alloc, session),
            Some(leaf) => match self.let_in(alloc, disk, session, leaf) {
                Ok(()) => self.engine.go_once(alloc, session),
                Err(_refusal) => Reply::More,
            },
        }
    }

    /// All that is left of the call that an actor has started, as `finish`, beside these evictions.
    pub fn finish_beside<D: Disk>(
        &mut self,
        alloc: Global,
        disk: &mut D,
        actor: Actor,
        evicting: &[Option<Evicting>],
    ) -> Answer<Item>
        requires { StepFits self.old.engine (Step.Go actor) }
        ensures finished { Holding D.Disk self.old disk.old (λ start w first made. FinishedBeside D.Disk start w first made self.old self.new disk.old disk.new evicting.now actor result) }
        ensures told { TellsSo D.Disk self.old self.new disk.old disk.new (λ basis start. MayAnswerSo D.Disk basis start disk.new result) }
        ensures keeps { CallKeeps D.Disk self.old self.new disk.old disk.new }
        ensures sessions { length self.new.engine.sessions ≡ length self.old.engine.sessions }
    {
        if !are_any(evicting) {
            return self.finish(alloc, disk, actor);
        }
        match actor {
            Actor::Session(session) => self.end_beside(alloc, disk, session, evicting),
            Actor::System(_) => self.finish_through(alloc, disk, actor),
        }
    }

    // The steps that are left of a session's call.
    fn end_beside<D: Disk>(
        &mut self,
        alloc: Global,
        disk: &mut D,
        session: u32,
        evicting: &[Option<Evicting>],
    ) -> Answer<Item>
        requires { session < length self.old.engine.sessions }
        ensures finished { Holding D.Disk self.old disk.old (λ start w first made. FinishedBeside D.Disk start w first made self.old self.new disk.old disk.new evicting.now (Actor.Session session) result) }
        ensures fault { self.new.engine.hub.fault ≡ self.old.engine.hub.fault }
        ensures told { TellsSo D.Disk self.old self.new disk.old disk.new (λ basis start. MayAnswerSo D.Disk basis start disk.new result) }
        ensures keeps { CallKeeps D.Disk self.old self.new disk.old disk.new }
        ensures sessions { length self.new.engine.sessions ≡ length self.old.engine.sessions }
    {
        'steps: loop {
            match self.go_beside(alloc, disk, session, evicting) {
                Reply::Answer(answer) => return answer,
                _ => {}
            }
        }
    }

    /// A whole call of a session, as `call`, beside these evictions: its steps, with nobody between.
    pub fn call_beside<D: Disk>(
        &mut self,
        alloc: Global,
        disk: &mut D,
        session: u32,
        call: SessionCall,
        evicting: &[Option<Evicting>],
    ) -> Answer<Item>
        requires { session < length self.old.engine.sessions }
        ensures called { Holding D.Disk self.old disk.old (λ start w first made. CalledBeside D.Disk start w first made self.old self.new disk.old disk.new evicting.now session (session_call_in call) result) }
        ensures told { TellsSo D.Disk self.old self.new disk.old disk.new (λ basis start. MayAnswerSo D.Disk basis start disk.new result) }
        ensures keeps { CallKeeps D.Disk self.old self.new disk.old disk.new }
        ensures sessions { length self.new.engine.sessions ≡ length self.old.engine.sessions }
    {
        if !are_any(evicting) {
            return self.call(alloc, disk, session, call);
        }
        steps_reach();
        kept_out_reaches();
        // What holds of every engine holds of this one.
        self.engine.actors();
        match self.step_through(alloc, disk, Step::Start(Call::Session(session, call))) {
            Reply::Answer(answer) => answer,
            _ => self.end_beside(alloc, disk, session, evicting),
        }
    }
}
