// What an engine is made of, and the steps of its sessions. A step calls the laws that its proof
// rests on, which do nothing.

ghost use Rattle.std.specs.Prelude.{◌≡◌, ◌≢◌, ◌<◌, ℕ, List, None, Some, length, slice_get, slice_set};
ghost use Rattle.wt_code.specs.declared.answers.Answer.{Answer as AnAnswer};
ghost use Rattle.snapshot.specs.Sight.{IsSight, sight_of};
ghost use Rattle.kv_model.specs.Calls.{Call};
ghost use Rattle.wt_calls.specs.Calls.{session_call_in};
ghost use Rattle.call_steps.specs.HubEvents.{IsSeated, hub_made};
ghost use Rattle.call_steps.specs.Starts.{Starts};
ghost use Rattle.call_steps.specs.State.{State};
ghost use Rattle.call_steps.specs.Words.{next_of, loaded, stored};
ghost use Rattle.call_turns.specs.Turns.{IsHubNext};
ghost use Rattle.engine_world.specs.Leaves.{word_at};
ghost use Rattle.engine_world.specs.Stands.{Stands};
ghost use Rattle.engine_world.specs.Steps.{MayBegin, MayKeepOut};
ghost use Rattle.engine_world.specs.Worlds.{World};
ghost use Rattle.engine.specs.Events.{IsFrameEvent};
ghost use Rattle.engine.specs.Goings.{GoesBy, IsTaken, LeadsEach, LeavesFewer};
ghost use Rattle.engine.specs.Sound.{IsSound, Keeps};
ghost use Rattle.engine.specs.Told.{EndsFrom, IsOwnFrom, KeepsOut, TellsFrom, answer_in};
ghost use Rattle.engine.specs.Waits.{IsWaiting, WaitsAs, WaitsFewer, is_away, turns_in, waits_at, waits_in};
ghost use Rattle.engine.specs.Whole.{CallsTo, Ends, IsUnderWay, KeptBy, ResumesTo};

use crate::called::{Called, Went};
use call_steps::{FramePiece, Hub, Next, Reply, SessionState, frame_event, hub_event};
use call_turns::{answers_are_own, calls_end, calls_run, seats_stay};
use engine_world::{
    begins_go, clears_go, decides_go, ends_go, fills_go, finds_go, histories_go, keeps_out_go,
    kept_out_reaches, loads_go, marks_go, orders_go, passes_go, publishes_go, reads_go,
    releases_go, resets_go, resolves_go, rows_go, stamps_go, starts_go, steps_reach, undos_go,
    unpins_go, writes_go,
};
use item::Item;
use stamp::View;
use std::alloc::Global;
use std::marker::Model;
use tree_dir::Dir;
use wt_calls::{SessionCall, SystemCall};
use wt_code::{Answer, Invalid, Refusal};

/// What an engine is made of.
#[derive(Drop)]
pub struct Parts {
    pub(crate) hub: Hub,
    pub(crate) pieces: Vec<FramePiece>,
    // The state words, by frame.
    pub(crate) states: Vec<u64>,
    // The hazard words, five for each session.
    pub(crate) hazards: Vec<u64>,
    pub(crate) sessions: Vec<SessionState>,
    // By actor of the system: the call that it has started.
    pub(crate) systems: Vec<Option<SystemCall>>,
    // Frames that a leaf has left: each is bare as long as no leaf comes into it.
    pub(crate) bare: Vec<u32>,
}

impl Model for Parts {
    ghost use Rattle.engine_world.specs.Stands.{Engine};

    ghost Value = { Engine };

    ghost view = { λ p. record { hub = p.hub; pieces = p.pieces.items; states = p.states.items; hazards = p.hazards.items; sessions = p.sessions.items; systems = p.systems.items } };
}

impl Parts {
    /// A call of a session begins.
    #[inline(always)]
    pub(crate) fn start(&mut self, alloc: Global, session: u32, call: SessionCall) -> Reply
        requires { session < length self.old.sessions }
        ensures begun { (w : World) → Stands self.old w → (later : World) × MayBegin w session (session_call_in call) result later × Stands self.new later }
        ensures kept { Keeps self.old self.new }
        ensures tells { TellsFrom Answer.Done result }
    {
        starts_go();
        seats_stay();
        calls_run();
        answers_are_own();
        self.sessions[session as usize].start(alloc, call)
    }

    /// One step of a session's call, which waits for no leaf.
    pub(crate) fn go(&mut self, alloc: Global, session: u32) -> Reply
        requires open { session < length self.old.sessions }
        requires ready { waits_in self.old session ≡ None }
        requires sound { IsSound self.old }
        ensures step { LeadsEach self.old self.new session result }
        ensures fewer { LeavesFewer self.old self.new session result }
        ensures kept { Keeps self.old self.new }
        ensures tells { TellsFrom (answer_in self.old session) result }
    {
        match self.sessions[session as usize].next() {
            Next::Nothing => self.rest(session),
            Next::Hub => self.go_on_hub(session),
            Next::Fill(_) => self.go_on_hub(session),
            Next::Frame(frame) => self.go_on_frame(alloc, session, frame),
            Next::Load(frame) => self.load(session, frame),
            Next::Store(word, value) => self.store(alloc, session, word, value),
        }
    }

    /// The leaf that a session's call waits for.
    pub(crate) fn waits(&self, session: u32) -> Option<u64>
        ensures { result ≡ waits_in self.now session }
    {
        let state = self.sessions.get(session as usize)?;
        waits_at(&self.hub.dir, state.next())
    }

    /// The steps that a session's call has left, up to its answer or to a leaf that is in no frame.
    pub(crate) fn finish(&mut self, alloc: Global, session: u32) -> Called
        requires open { session < length self.old.sessions }
        requires sound { IsSound self.old }
        ensures ends { (w : World) → Stands self.old w → Ends result self.new w session }
        ensures waits { WaitsAs result self.new session }
        ensures fewer { WaitsFewer result self.old self.new session }
        ensures kept { Keeps self.old self.new }
        ensures tells { EndsFrom (answer_in self.old session) result }
    {
        let mut answer = Answer::Done;
        loop {
            match self.go_on(alloc, session, &mut answer) {
                Went::On => {}
                Went::Ended => return Called::Ended(answer),
                Went::Waits(leaf) => return Called::Waits(leaf),
            }
        }
    }

    // One step of a session's call; the answer, where it was the last.
    #[inline(always)]
    fn go_on(&mut self, alloc: Global, session: u32, answer: &mut Answer<Item>) -> Went
        requires open { session < length self.old.sessions }
        requires sound { IsSound self.old }
        ensures goes { GoesBy result self.old self.new session answer.new }
        ensures kept { Keeps self.old self.new }
    {
        match self.sessions[session as usize].next() {
            Next::Nothing => take_answer(self.rest(session), answer),
            Next::Hub => take_answer(self.go_on_hub(session), answer),
            Next::Fill(leaf) => self.go_on_leaf(session, leaf, answer),
            Next::Frame(frame) => take_answer(self.go_on_frame(alloc, session, frame), answer),
            Next::Load(frame) => take_answer(self.load(session, frame), answer),
            Next::Store(word, value) => {
                take_answer(self.store(alloc, session, word, value), answer)
            }
        }
    }

    // One step of a call that waited for a leaf, where it is in a frame now, or gone.
    fn go_on_leaf(&mut self, session: u32, leaf: u64, answer: &mut Answer<Item>) -> Went
        requires open { session < length self.old.sessions }
        requires sound { IsSound self.old }
        requires next { (a : State) → slice_get self.old.sessions session ≡ Some a → next_of a ≡ Next.Fill leaf }
        ensures goes { GoesBy result self.old self.new session answer.new }
        ensures kept { Keeps self.old self.new }
    {
        if is_away(&self.hub.dir, leaf) {
            return Went::Waits(leaf);
        }
        take_answer(self.go_on_hub(session), answer)
    }

    /// A whole call of a session, or its part up to a leaf that is in no frame.
    #[inline(always)]
    pub(crate) fn call(&mut self, alloc: Global, session: u32, call: SessionCall) -> Called
        requires open { session < length self.old.sessions }
        requires sound { IsSound self.old }
        ensures answer { (w : World) → Stands self.old w → CallsTo result self.new w session (session_call_in call) }
        ensures waits { WaitsAs result self.new session }
        ensures kept { Keeps self.old self.new }
        ensures tells { EndsFrom (answer_in self.old session) result }
    {
        let told = self.start(alloc, session, call);
        self.go_through(alloc, session, told)
    }

    // How far a call comes whose start was told so.
    #[inline(always)]
    pub(crate) fn go_through(&mut self, alloc: Global, session: u32, told: Reply) -> Called
        requires open { session < length self.old.sessions }
        requires sound { IsSound self.old }
        ensures answer { (w begun : World) (asked : Call) → session < length w.sessions → MayBegin w session asked told begun → Stands self.old begun → CallsTo result self.new w session asked }
        ensures waits { WaitsAs result self.new session }
        ensures kept { Keeps self.old self.new }
        ensures tells { (kept : AnAnswer (List ℕ)) → TellsFrom kept told → IsOwnFrom kept (answer_in self.old session) → EndsFrom kept result }
    {
        steps_reach();
        match told {
            Reply::Answer(answer) => Called::Ended(answer),
            _ => self.finish(alloc, session),
        }
    }

    /// A session's call goes on, whose leaf has come or was kept from it.
    pub(crate) fn resume(&mut self, alloc: Global, session: u32) -> Called
        requires open { session < length self.old.sessions }
        requires sound { IsSound self.old }
        ensures answer { (kept : KeptBy) (w now : World) (asked : Call) → session < length w.sessions → IsUnderWay kept w session asked now → Stands self.old now → ResumesTo result self.new kept w session asked }
        ensures ends { (w : World) → Stands self.old w → Ends result self.new w session }
        ensures waits { WaitsAs result self.new session }
        ensures fewer { WaitsFewer result self.old self.new session }
        ensures kept { Keeps self.old self.new }
        ensures tells { EndsFrom (answer_in self.old session) result }
    {
        steps_reach();
        self.finish(alloc, session)
    }

    /// The leaf that a session's call waits for cannot be had: the call is refused so.
    pub(crate) fn keep_out(&mut self, session: u32, refusal: Refusal)
        requires waits { IsWaiting self.old session }
        requires sound { IsSound self.old }
        requires refusal { refusal ≢ Refusal.NotFound }
        ensures steps { (w : World) → Stands self.old w → (later : World) × MayKeepOut w session refusal later × Stands self.new later }
        ensures reaches { (w now : World) (asked : Call) → session < length w.sessions → IsUnderWay None w session asked now → Stands self.old now → (later : World) × IsUnderWay (Some refusal) w session asked later × Stands self.new later }
        ensures ready { waits_in self.new session ≡ None }
        ensures fewer { turns_in self.new session < turns_in self.old session }
        ensures hub { self.new.hub ≡ self.old.hub }
        ensures sessions { length self.new.sessions ≡ length self.old.sessions }
        ensures own { KeepsOut session refusal self.old self.new }
        ensures sound { IsSound self.new }
    {
        keeps_out_go();
        kept_out_reaches();
        calls_end();
        seats_stay();
        calls_run();
        self.sessions[session as usize].keep_out(refusal);
    }

    // There is no call to go on with.
    fn rest(&self, session: u32) -> Reply
        requires open { session < length self.now.sessions }
        requires next { (a : State) → slice_get self.now.sessions session ≡ Some a → next_of a ≡ Next.Nothing }
        ensures step { LeadsEach self.now self.now session result }
        ensures fewer { LeavesFewer self.now self.now session result }
        ensures tells { TellsFrom Answer.Done result }
    {
        Reply::Answer(Answer::Refused(Refusal::Invalid(Invalid::NoCall)))
    }

    fn go_on_hub(&mut self, session: u32) -> Reply
        requires open { session < length self.old.sessions }
        requires sound { IsSound self.old }
        requires next { (a : State) → slice_get self.old.sessions session ≡ Some a → IsHubNext self.old.hub a }
        ensures step { LeadsEach self.old self.new session result }
        ensures fewer { LeavesFewer self.old self.new session result }
        ensures kept { Keeps self.old self.new }
        ensures tells { TellsFrom (answer_in self.old session) result }
    {
        begins_go();
        finds_go();
        fills_go();
        passes_go();
        histories_go();
        releases_go();
        decides_go();
        resolves_go();
        ends_go();
        calls_end();
        seats_stay();
        calls_run();
        answers_are_own();
        // What holds of every directory holds of this one.
        self.hub.dir.stands();
        hub_event(&mut self.hub, session, &mut self.sessions[session as usize])
    }

    fn go_on_frame(&mut self, alloc: Global, session: u32, frame: u32) -> Reply
        requires open { session < length self.old.sessions }
        requires sound { IsSound self.old }
        requires next { (a : State) → slice_get self.old.sessions session ≡ Some a → next_of a ≡ Next.Frame frame }
        ensures step { LeadsEach self.old self.new session result }
        ensures fewer { LeavesFewer self.old self.new session result }
        ensures kept { Keeps self.old self.new }
        ensures tells { TellsFrom (answer_in self.old session) result }
    {
        if frame as usize >= self.pieces.len() {
            return no_frame();
        }
        match self.hub.txns.view(session) {
            None => no_frame(),
            Some(view) => {
                reads_go();
                writes_go();
                rows_go();
                marks_go();
                orders_go();
                stamps_go();
                undos_go();
                calls_end();
                seats_stay();
                calls_run();
                answers_are_own();
                frame_step(
                    alloc,
                    self.pieces.as_mut_slice(),
                    self.sessions.as_mut_slice(),
                    &view,
                    session,
                    frame,
                );
                Reply::More
            }
        }
    }

    fn load(&mut self, session: u32, frame: u32) -> Reply
        requires open { session < length self.old.sessions }
        requires next { (a : State) → slice_get self.old.sessions session ≡ Some a → next_of a ≡ Next.Load frame }
        ensures step { LeadsEach self.old self.new session result }
        ensures fewer { LeavesFewer self.old self.new session result }
        ensures kept { Keeps self.old self.new }
        ensures tells { TellsFrom (answer_in self.old session) result }
    {
        loads_go();
        calls_end();
        seats_stay();
        calls_run();
        answers_are_own();
        let seen = word_at(self.states.as_slice(), frame);
        self.sessions[session as usize].loaded(seen);
        Reply::More
    }

    fn store(&mut self, alloc: Global, session: u32, word: u32, value: u64) -> Reply
        requires open { session < length self.old.sessions }
        requires next { (a : State) → slice_get self.old.sessions session ≡ Some a → next_of a ≡ Next.Store word value }
        ensures step { LeadsEach self.old self.new session result }
        ensures fewer { LeavesFewer self.old self.new session result }
        ensures kept { Keeps self.old self.new }
        ensures tells { TellsFrom (answer_in self.old session) result }
    {
        publishes_go();
        clears_go();
        resets_go();
        unpins_go();
        calls_end();
        seats_stay();
        calls_run();
        answers_are_own();
        set_word(
            self.hazards.as_mut_slice(),
            session as usize * WORDS + word as usize,
            value,
        );
        self.sessions[session as usize].stored(alloc)
    }
}

// How the call went, by the reply to its step, with its answer.
#[inline(always)]
fn take_answer(reply: Reply, answer: &mut Answer<Item>) -> Went
    ensures { IsTaken reply result answer.new }
{
    match reply {
        Reply::Answer(made) => {
            *answer = made;
            Went::Ended
        }
        _ => Went::On,
    }
}

// The frame that a call goes to is not there, or the session has no transaction: no engine that
// stands for a world comes there.
fn no_frame() -> Reply
    ensures { result ≡ Reply.Answer (Answer.Refused Refusal.CacheFull) }
{
    Reply::Answer(Answer::Refused(Refusal::CacheFull))
}

// The leaf that an event waits for, which is there in no frame.
fn waits_at(dir: &Dir, next: Next) -> Option<u64>
    ensures { result ≡ waits_at dir.now.leaves next }
{
    match next {
        Next::Fill(leaf) => { if is_away(dir, leaf) { Some(leaf) } else { None } }
        _ => None,
    }
}

// A leaf of this id is there, in no frame.
fn is_away(dir: &Dir, leaf: u64) -> bool
    ensures { result ≡ is_away dir.now.leaves leaf }
{
    match dir.leaf(leaf) {
        None => false,
        Some(leaf) => match leaf.frame {
            None => true,
            Some(_) => false,
        },
    }
}

// The hazard words of a session.
const WORDS: usize = 5;

fn frame_step(
    alloc: Global,
    pieces: &mut [FramePiece],
    sessions: &mut [SessionState],
    view: &View<'_>,
    session: u32,
    frame: u32,
)
    requires session { session < length sessions.old }
    requires frame { frame < length pieces.old }
    requires view { IsSight (sight_of view.now) }
    ensures { IsFrameEvent view.now session frame pieces.old sessions.old pieces.new sessions.new }
{
    let state = &mut sessions[session as usize];
    // That the stamps of its call have 64 bits.
    let _stage = state.stage();
    frame_event(alloc, &mut pieces[frame as usize], view, state);
}

fn word_at(states: &[u64], frame: u32) -> u64
    ensures { result ≡ word_at states.now frame }
{
    match states.get(frame as usize) {
        None => 0,
        Some(word) => *word,
    }
}

fn set_word(words: &mut [u64], at: usize, value: u64)
    ensures { words.new ≡ slice_set words.old at value }
{
    if at < words.len() {
        words[at] = value;
    }
}
