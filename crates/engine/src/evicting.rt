// Leaves that are evicted while sessions are at work: what is out of reach, why a leaf stays, and the
// leaf that leaves its frame once its block is written anew.

ghost use Rattle.std.specs.Prelude.{◌≡◌, ◌≢◌, ◌<◌, ◌+◌, ◌^◌, ℕ, List, None, Some, false, length, option_copied, slice_get, IfOk, IfSome, IsTrue, OnErr};
ghost use Rattle.item.specs.declared.Change.{Change as AChange};
ghost use Rattle.stamp.specs.declared.Version.{Version as AVersion};
ghost use Rattle.kv_model.specs.Droppable.{pin};
ghost use Rattle.kv_model.specs.Holds.{Member};
ghost use Rattle.row_page.specs.Rows.{Row as ARow};
ghost use Rattle.snapshot.specs.Past.{IsPast};
ghost use Rattle.call_steps.specs.declared.written.WrittenKey.{WrittenKey as AKey};
ghost use Rattle.engine_world.specs.Evicting.{IsEvictedTo, with_rows};
ghost use Rattle.engine_world.specs.GoingOut.{frame_in_hand, with_again};
ghost use Rattle.engine_world.specs.Leaves.{frame_in};
ghost use Rattle.engine_world.specs.Stands.{Stands};
ghost use Rattle.engine_world.specs.Worlds.{World, with_records};
ghost use Rattle.engine.specs.Evictions.{AllAside, HasBeenEvicted, HasWrittenIn, IsCalledIn, KeepsFrame, KeepsLeaf, MayBeEmptied, MayBeEvicted, NoneWrote, horizon_of};
ghost use Rattle.engine.specs.Frames.{IsUnpinned};
ghost use Rattle.engine.specs.Running.{RunsAs};
ghost use Rattle.engine.specs.Sound.{IsSound};
ghost use Rattle.engine.specs.Told.{KeepOwn};

use crate::frames::has_next;
use crate::giving::{clear, leave};
use crate::local::Local;
use crate::parts::Parts;
use crate::running_checkpoint::{RunningCheckpoint, recorded_by, snapshot_of};
use call_steps::{SessionState, Stage, WrittenKey};
use device_layout::Link;
use engine_world::leaves_are_evicted;
use failure::NoMemory;
use stamp::Name;
use txn_table::{pasts_stand, pins_are_the_machines};

/// What is out of reach at a moment: of a key's versions those that are older than one that is durable
/// at the pin stamp, and whose name is below the floor.
#[derive(Clone, Copy, Debug, PartialEq, Eq)]
pub struct Horizon {
    /// The least of oldest, of the oldest that a running checkpoint recorded, and of the active read stamps.
    pub pin: u64,
    /// Each active snapshot, and that of a running checkpoint, sees what is committed under a name
    /// below it.
    pub floor: Name,
}

/// Why a leaf may not be evicted at this moment, or may not part.
#[derive(Clone, Copy, Debug, PartialEq, Eq)]
pub enum Stays {
    /// It is not there, or in no frame.
    Away,
    /// A call of this session is at it.
    Call(u32),
    /// This hazard word names its frame. Each session has five, one session's behind the other's.
    Pinned(usize),
    /// The transaction of this session wrote in it, and has not ended.
    Written(u32),
    /// Its frame is at its last generation.
    LastGeneration,
    /// It does not part: a call of this session is on its way to it.
    Coming(u32),
    /// It does not part: a call of this session goes over its table leaf by leaf.
    Walked(u32),
}

impl Local {
    /// What is out of reach at this moment, beside the checkpoint that runs, if one does. `O(n)` in the
    /// sessions.
    pub fn horizon(&self, running: Option<&RunningCheckpoint>) -> Horizon
        ensures is { result ≡ horizon_of self.now (option_copied running.entry) }
        ensures pin { (w : World) → Stands self.now w → RunsAs w.machine (option_copied running.entry) → result.pin ≡ pin w.machine }
        ensures past { (w : World) → Stands self.now w → RunsAs w.machine (option_copied running.entry) → (table : ℕ) (key : List ℕ) → IsPast w.machine table key result.pin result.floor }
    {
        self.parts.horizon(running)
    }

    /// Why the leaf of this id may not be evicted at this moment; none exactly where it may. `O(n)` in
    /// the sessions and in what their transactions wrote.
    pub fn why_it_stays(&self, leaf: u64) -> Option<Stays>
        ensures none { result ≡ None → MayBeEvicted self.now leaf }
        ensures some { IfSome result (λ why. KeepsLeaf self.now leaf why) }
        ensures not { IfSome result (λ why. MayBeEvicted self.now leaf → ⊥) }
    {
        self.parts.why_it_stays(leaf)
    }

    /// The leaf of this id leaves its frame, where it may (`why_it_stays`), and leads to this block,
    /// from which it is read again when a call needs it. Nobody sees it where the block has the newest
    /// version of each of its keys, and the history those older ones that are in reach; but a call that
    /// has found it, and has not come to it yet, may be told so, and finds its key again. `Ok(false)`
    /// where it may not; then, and without memory, nothing is changed. `O(n)` in the sessions and in
    /// what their transactions wrote.
    pub fn evict(&mut self, leaf: u64, link: Link) -> Result<bool, NoMemory>
        ensures out { IfOk result (λ out. IsTrue out → HasBeenEvicted self.old self.new leaf link) }
        ensures not { IfOk result (λ out. out ≡ false → (MayBeEvicted self.old leaf → ⊥) × (self.new ≡ self.old)) }
        ensures kept { OnErr result (self.new ≡ self.old) }
        ensures stands { IfOk result (λ out. IsTrue out → (may : MayBeEvicted self.old leaf) (w : World) (rows : List ARow) (moved : List ℕ → List (AVersion AChange)) → Stands self.old w → IsEvictedTo w.machine self.old.hub.dir.leaves may.leaf may.frame rows moved
            → Stands self.new (with_records leaf moved (with_rows leaf rows (with_again self.old may.framed.frame w)))) }
        ensures own { KeepOwn self.old self.new }
    {
        self.parts.evict(leaf, link)
    }
}

impl Parts {
    fn horizon(&self, running: Option<&RunningCheckpoint>) -> Horizon
        ensures is { result ≡ horizon_of self.now (option_copied running.entry) }
        ensures pin { (w : World) → Stands self.now w → RunsAs w.machine (option_copied running.entry) → result.pin ≡ pin w.machine }
        ensures past { (w : World) → Stands self.now w → RunsAs w.machine (option_copied running.entry) → (table : ℕ) (key : List ℕ) → IsPast w.machine table key result.pin result.floor }
    {
        pasts_stand();
        pins_are_the_machines();
        let oldest = self.hub.stamps.oldest;
        Horizon {
            pin: self.hub.txns.pin_stamp(oldest, recorded_by(running)),
            floor: self.hub.txns.floor(snapshot_of(running)),
        }
    }

    fn evict(&mut self, leaf: u64, link: Link) -> Result<bool, NoMemory>
        requires sound { IsSound self.old }
        ensures out { IfOk result (λ out. IsTrue out → HasBeenEvicted self.old self.new leaf link) }
        ensures not { IfOk result (λ out. out ≡ false → (MayBeEvicted self.old leaf → ⊥) × (self.new ≡ self.old)) }
        ensures kept { OnErr result (self.new ≡ self.old) }
        ensures stands { IfOk result (λ out. IsTrue out → (may : MayBeEvicted self.old leaf) (w : World) (rows : List ARow) (moved : List ℕ → List (AVersion AChange)) → Stands self.old w → IsEvictedTo w.machine self.old.hub.dir.leaves may.leaf may.frame rows moved
            → Stands self.new (with_records leaf moved (with_rows leaf rows (with_again self.old may.framed.frame w)))) }
        ensures own { KeepOwn self.old self.new }
        ensures sound { IsSound self.new }
    {
        leaves_are_evicted();
        let Some(frame) = self.frame_to_empty(leaf) else {
            return Ok(false);
        };
        self.bare.reserve(1)?;
        self.hub.dir.set_link(leaf, link);
        self.hub.dir.set_frame(leaf, None);
        // What holds of every directory holds of this one.
        self.hub.dir.stands();
        let generation = leave(&mut self.pieces, frame);
        clear(&mut self.states, frame, generation);
        self.bare.push_reserved(frame);
        Ok(true)
    }

    // The frame of the leaf of this id, where that may be evicted.
    fn frame_to_empty(&self, leaf: u64) -> Option<u32>
        requires sound { IsSound self.now }
        ensures some { IfSome result (λ frame. (may : MayBeEvicted self.now leaf) × (may.framed.frame ≡ frame)) }
        ensures none { result ≡ None → MayBeEvicted self.now leaf → ⊥ }
    {
        let framed = self.hub.dir.frame(leaf)?;
        match self.why_frame_stays(framed.frame) {
            None => Some(framed.frame),
            Some(_) => None,
        }
    }

    pub(crate) fn why_it_stays(&self, leaf: u64) -> Option<Stays>
        requires sound { IsSound self.now }
        ensures none { result ≡ None → MayBeEvicted self.now leaf }
        ensures some { IfSome result (λ why. KeepsLeaf self.now leaf why) }
        ensures not { IfSome result (λ why. MayBeEvicted self.now leaf → ⊥) }
    {
        match self.hub.dir.frame(leaf) {
            None => Some(Stays::Away),
            Some(framed) => self.why_frame_stays(framed.frame),
        }
    }

    // Why a frame may not be emptied at this moment.
    fn why_frame_stays(&self, frame: u32) -> Option<Stays>
        requires sound { IsSound self.now }
        ensures none { result ≡ None → (frame_in self.now.pieces frame ≢ None) × MayBeEmptied self.now frame }
        ensures some { IfSome result (λ why. KeepsFrame self.now frame why) }
    {
        if self.leaf_in(frame).is_none() {
            return Some(Stays::Away);
        }
        let _count = self.count();
        if let Some(session) = session_at(&self.sessions, frame) {
            return Some(Stays::Call(session));
        }
        if let Some(word) = word_naming(&self.hazards, frame) {
            return Some(Stays::Pinned(word));
        }
        if let Some(session) = writer_in(&self.sessions, frame) {
            return Some(Stays::Written(session));
        }
        if has_next(&self.pieces, frame) {
            None
        } else {
            Some(Stays::LastGeneration)
        }
    }
}

// The first session whose call is at the leaf in the frame.
fn session_at(sessions: &[SessionState], frame: u32) -> Option<u32>
    requires few { length sessions.now < 2 ^ 32 }
    ensures none { result ≡ None → AllAside frame sessions.now }
    ensures some { IfSome result (λ session. IsCalledIn frame sessions.now session) }
{
    for (at, session) in sessions.iter().enumerate() {
        if is_at(session, frame) {
            return Some(at as u32);
        }
    }
    None
}

fn is_at(session: &SessionState, frame: u32) -> bool
    ensures yes { IsTrue result → frame_in_hand session.now.stage ≡ Some frame }
    ensures no { result ≡ false → frame_in_hand session.now.stage ≢ Some frame }
{
    match frame_in_hand(session.stage()) {
        None => false,
        Some(at) => at == frame,
    }
}

// The frame whose leaf a call is at.
fn frame_in_hand(stage: Stage) -> Option<u32>
    ensures { result ≡ frame_in_hand stage }
{
    match stage {
        Stage::Look(_, target)
        | Stage::Pass(_, target)
        | Stage::History(_, target)
        | Stage::ClearCursor(_, target) => Some(target.frame),
        _ => None,
    }
}

// The first hazard word that names the frame, of any session.
fn word_naming(words: &[u64], frame: u32) -> Option<usize>
    ensures none { result ≡ None → IsUnpinned frame words.now }
    ensures some { IfSome result (λ word. slice_get words.now word ≡ Some (frame + 1)) }
{
    let named = u64::from(frame) + 1;
    for (at, word) in words.iter().enumerate() {
        if *word == named {
            return Some(at);
        }
    }
    None
}

// The first session whose transaction wrote in the frame.
fn writer_in(sessions: &[SessionState], frame: u32) -> Option<u32>
    requires few { length sessions.now < 2 ^ 32 }
    ensures none { result ≡ None → NoneWrote frame sessions.now }
    ensures some { IfSome result (λ session. HasWrittenIn frame sessions.now session) }
{
    for (at, session) in sessions.iter().enumerate() {
        if has_written(session.written(), frame) {
            return Some(at as u32);
        }
    }
    None
}

fn has_written(keys: &[WrittenKey], frame: u32) -> bool
    ensures yes { IsTrue result → (k : AKey) × Member k keys.now × (k.frame ≡ frame) }
    ensures no { result ≡ false → (k : AKey) → Member k keys.now → k.frame ≢ frame }
{
    for key in keys {
        if key.frame == frame {
            return true;
        }
    }
    false
}
