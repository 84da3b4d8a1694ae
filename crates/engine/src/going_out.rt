// Leaves that go out of their frames as they were read, while sessions are at work.

ghost use Rattle.std.specs.Prelude.{◌≡◌, None, false, IfOk, IfSome, IsTrue, OnErr};
ghost use Rattle.engine_world.specs.GoingOut.{IsClearOf, frame_named};
ghost use Rattle.engine_world.specs.Stands.{Stands};
ghost use Rattle.engine_world.specs.Worlds.{World};
ghost use Rattle.engine.specs.Frames.{AllClearOf, HasGoneOut, IsUnpinned, IsUnwritten, MayGoOut};
ghost use Rattle.engine.specs.Sound.{IsSound};
ghost use Rattle.engine.specs.Told.{KeepOwn};

use crate::frames::has_next;
use crate::giving::{clear, leave};
use crate::local::Local;
use crate::parts::Parts;
use call_steps::{SessionState, Stage};
use engine_world::leaves_go_out_unseen;
use failure::NoMemory;
use leaf_frame::LeafFrame;

impl Local {
    /// The leaf of this id goes out of its frame, where it may: its keys were never written since it
    /// was read, no call has found it or is at it, no hazard word names its frame, and that is not at
    /// its last generation. It is read again when a call needs it, and another leaf may come into that
    /// frame. Nobody sees it. `Ok(false)` where it may not; then, and without memory, nothing is
    /// changed. `O(n)` in the sessions.
    pub fn go_out(&mut self, leaf: u64) -> Result<bool, NoMemory>
        ensures out { IfOk result (λ out. IsTrue out → HasGoneOut self.old self.new leaf) }
        ensures not { IfOk result (λ out. out ≡ false → (MayGoOut self.old leaf → ⊥) × (self.new ≡ self.old)) }
        ensures kept { OnErr result (self.new ≡ self.old) }
        ensures stands { (w : World) → Stands self.old w → Stands self.new w }
        ensures own { KeepOwn self.old self.new }
    {
        self.parts.go_out(leaf)
    }
}

impl Parts {
    fn go_out(&mut self, leaf: u64) -> Result<bool, NoMemory>
        requires sound { IsSound self.old }
        ensures out { IfOk result (λ out. IsTrue out → HasGoneOut self.old self.new leaf) }
        ensures not { IfOk result (λ out. out ≡ false → (MayGoOut self.old leaf → ⊥) × (self.new ≡ self.old)) }
        ensures kept { OnErr result (self.new ≡ self.old) }
        ensures stands { (w : World) → Stands self.old w → Stands self.new w }
        ensures own { KeepOwn self.old self.new }
        ensures sound { IsSound self.new }
    {
        leaves_go_out_unseen();
        let Some(frame) = self.frame_to_leave(leaf) else {
            return Ok(false);
        };
        self.bare.reserve(1)?;
        self.hub.dir.set_frame(leaf, None);
        // What holds of every directory holds of this one.
        self.hub.dir.stands();
        let generation = leave(&mut self.pieces, frame);
        clear(&mut self.states, frame, generation);
        self.bare.push_reserved(frame);
        Ok(true)
    }

    // The frame of the leaf of this id, where it may go out of it.
    fn frame_to_leave(&self, leaf: u64) -> Option<u32>
        ensures some { IfSome result (λ frame. (may : MayGoOut self.now leaf) × (may.framed.frame ≡ frame)) }
        ensures none { result ≡ None → MayGoOut self.now leaf → ⊥ }
    {
        let frame = self.hub.dir.frame(leaf)?.frame;
        if is_unwritten(self.leaf_in(frame)?)
            && are_clear_of(&self.sessions, frame)
            && is_unpinned(&self.hazards, frame)
            && has_next(&self.pieces, frame)
        {
            Some(frame)
        } else {
            None
        }
    }
}

// Whether the leaf was read, and its keys were never written since.
fn is_unwritten(leaf: &LeafFrame) -> bool
    ensures yes { IsTrue result → IsUnwritten leaf.now }
    ensures no { result ≡ false → IsUnwritten leaf.now → ⊥ }
{
    match leaf.page() {
        None => false,
        Some(page) => leaf.chains().is_empty() && !page.is_empty(),
    }
}

// Whether no call has found the leaf in the frame, or is at it.
fn are_clear_of(sessions: &[SessionState], frame: u32) -> bool
    ensures yes { IsTrue result → AllClearOf frame sessions.now }
    ensures no { result ≡ false → AllClearOf frame sessions.now → ⊥ }
{
    for session in sessions {
        if !is_clear_of(session, frame) {
            return false;
        }
    }
    true
}

fn is_clear_of(session: &SessionState, frame: u32) -> bool
    ensures yes { IsTrue result → IsClearOf frame session.now }
    ensures no { result ≡ false → IsClearOf frame session.now → ⊥ }
{
    match frame_named(session.stage()) {
        None => true,
        Some(at) => at != frame,
    }
}

// The frame that a call names, from the finding of its leaf on.
fn frame_named(stage: Stage) -> Option<u32>
    ensures { result ≡ frame_named stage }
{
    match stage {
        Stage::Publish(_, target)
        | Stage::Validate(_, target)
        | Stage::Look(_, target)
        | Stage::Pass(_, target)
        | Stage::History(_, target)
        | Stage::ClearCursor(_, target)
        | Stage::Clear(_, target) => Some(target.frame),
        _ => None,
    }
}

// Whether no hazard word names the frame.
fn is_unpinned(words: &[u64], frame: u32) -> bool
    ensures yes { IsTrue result → IsUnpinned frame words.now }
    ensures no { result ≡ false → IsUnpinned frame words.now → ⊥ }
{
    let named = u64::from(frame) + 1;
    for word in words {
        if *word == named {
            return false;
        }
    }
    true
}
