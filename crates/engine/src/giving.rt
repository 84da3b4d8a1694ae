// Leaves that leave their frames while nobody is at work.

ghost use Rattle.std.specs.Prelude.{◌≡◌, ◌<◌, ◌+◌, ◌^◌, ℕ, List, false, length, option_map, IsTrue, OnErr, OnOk, slice_set};
ghost use Rattle.row_page.specs.Rows.{Row as ARow};
ghost use Rattle.call_steps.specs.Tables.{empty};
ghost use Rattle.tree_dir.specs.Leaves.{IsDirectory, TakePlace, leaves_with};
ghost use Rattle.engine_world.specs.GivingWay.{IsIdle, IsShelved, RestsWhole};
ghost use Rattle.engine_world.specs.Leaves.{emptied, frame_in, generation_at};
ghost use Rattle.engine_world.specs.Stands.{Stands};
ghost use Rattle.engine_world.specs.Worlds.{World};
ghost use Rattle.engine.specs.Frames.{HasGivenWay, IsFramed};
ghost use Rattle.engine.specs.Sound.{IsSound};
ghost use Rattle.engine.specs.Told.{KeepOwn};

use crate::frames::{generation_at, has_next};
use crate::local::Local;
use crate::parts::Parts;
use call_steps::{FramePiece, SessionState, Stage, empty};
use engine_world::leaves_give_way;
use failure::NoMemory;
use inner_page::Entry;
use txn_table::Phase;

impl Local {
    /// How many frames there are. `O(1)`.
    pub fn frames(&self) -> usize
        ensures { result ≡ length self.now.pieces }
    {
        self.parts.frames()
    }

    /// The id of the leaf in a frame. `O(1)`.
    pub fn id_in(&self, frame: u32) -> Option<u64>
        ensures { result ≡ option_map (λ f. f.id) (frame_in self.now.pieces frame) }
    {
        self.parts.id_in(frame)
    }

    /// Whether no session has a call, a transaction, or a cursor on a leaf. `O(n)` in the sessions.
    pub fn is_idle(&self) -> bool
        ensures yes { IsTrue result → IsIdle self.now }
        ensures no { result ≡ false → IsIdle self.now → ⊥ }
    {
        self.parts.is_idle()
    }

    /// Others take the place of a leaf that is in a frame, the first from its low key on, while nobody
    /// is at work. They are in no frame, and another leaf may come into that one. Nobody sees it where
    /// their blocks have the newest version of each key, durable at the oldest stamp. Without memory,
    /// or where the frame is at its last generation, nothing is changed. `O(log n)` comparisons for
    /// each with n leaves.
    pub fn give_way(&mut self, leaf: u64, entries: Vec<Entry>) -> Result<(), NoMemory>
        requires idle { IsIdle self.old }
        requires framed { IsFramed self.old.hub.dir.leaves leaf }
        requires place { TakePlace leaf entries.items self.old.hub.dir.leaves }
        ensures given { OnOk result (HasGivenWay self.old self.new leaf entries.items) }
        ensures stands { OnOk result ((way : HasGivenWay self.old self.new leaf entries.items) (w : World) (shelf : ℕ → List ARow) → Stands self.old w → w.machine.checkpoint ≡ None
            → IsShelved w.machine self.old.hub.dir self.new.hub.dir (leaves_with way.leaf.table way.ids entries.items) w.shelf shelf → Stands self.new (record w { shelf = shelf })) }
        ensures kept { OnErr result (self.new ≡ self.old) }
        ensures own { KeepOwn self.old self.new }
    {
        self.parts.give_way(leaf, entries)
    }
}

impl Parts {
    fn frames(&self) -> usize
        ensures { result ≡ length self.now.pieces }
    {
        self.pieces.len()
    }

    fn id_in(&self, frame: u32) -> Option<u64>
        ensures { result ≡ option_map (λ f. f.id) (frame_in self.now.pieces frame) }
    {
        let piece = self.pieces.get(frame as usize)?;
        match &piece.frame {
            None => None,
            Some(frame) => Some(frame.id),
        }
    }

    fn is_idle(&self) -> bool
        ensures yes { IsTrue result → IsIdle self.now }
        ensures no { result ≡ false → IsIdle self.now → ⊥ }
    {
        for session in &self.sessions {
            if !rests_whole(session) {
                return false;
            }
        }
        true
    }

    fn give_way(&mut self, leaf: u64, entries: Vec<Entry>) -> Result<(), NoMemory>
        requires idle { IsIdle self.old }
        requires framed { IsFramed self.old.hub.dir.leaves leaf }
        requires place { TakePlace leaf entries.items self.old.hub.dir.leaves }
        requires sound { IsSound self.old }
        ensures given { OnOk result (HasGivenWay self.old self.new leaf entries.items) }
        ensures stands { OnOk result ((way : HasGivenWay self.old self.new leaf entries.items) (w : World) (shelf : ℕ → List ARow) → Stands self.old w → w.machine.checkpoint ≡ None
            → IsShelved w.machine self.old.hub.dir self.new.hub.dir (leaves_with way.leaf.table way.ids entries.items) w.shelf shelf → Stands self.new (record w { shelf = shelf })) }
        ensures kept { OnErr result (self.new ≡ self.old) }
        ensures own { KeepOwn self.old self.new }
        ensures sound { IsSound self.new }
    {
        leaves_give_way();
        self.replace_leaf(leaf, entries)
    }

    /// Others take the place of a leaf that is in a frame, and are in none. Without memory, or where the
    /// frame is at its last generation, nothing is changed.
    pub(crate) fn replace_leaf(&mut self, leaf: u64, entries: Vec<Entry>) -> Result<(), NoMemory>
        requires framed { IsFramed self.old.hub.dir.leaves leaf }
        requires place { TakePlace leaf entries.items self.old.hub.dir.leaves }
        requires sound { IsSound self.old }
        ensures given { OnOk result (HasGivenWay self.old self.new leaf entries.items) }
        ensures now { OnOk result (IsDirectory self.new.hub.dir) }
        ensures kept { OnErr result (self.new ≡ self.old) }
        ensures own { KeepOwn self.old self.new }
        ensures sound { IsSound self.new }
    {
        let Some(framed) = self.hub.dir.frame(leaf) else {
            return Err(NoMemory);
        };
        if !has_next(&self.pieces, framed.frame) {
            return Err(NoMemory);
        }
        self.bare.reserve(1)?;
        self.hub.dir.replace(leaf, entries)?;
        // What holds of every directory holds of this one.
        self.hub.dir.stands();
        let generation = leave(&mut self.pieces, framed.frame);
        clear(&mut self.states, framed.frame, generation);
        self.bare.push_reserved(framed.frame);
        Ok(())
    }
}

// Whether the session has no call, no transaction and no cursor on a leaf.
fn rests_whole(session: &SessionState) -> bool
    ensures yes { IsTrue result → RestsWhole session.now }
    ensures no { result ≡ false → RestsWhole session.now → ⊥ }
{
    session.stage() == Stage::Rest
        && session.phase() == Phase::Idle
        && session.pinned_cursor().is_none()
}

// The frame has no leaf any more, and is at the next generation.
pub(crate) fn leave(pieces: &mut [FramePiece], frame: u32) -> u64
    requires { generation_at pieces.old frame + 1 < 2 ^ 62 }
    ensures piece { pieces.new ≡ slice_set pieces.old frame (emptied pieces.old frame) }
    ensures next { result ≡ generation_at pieces.old frame + 1 }
{
    let generation = generation_at(pieces, frame) + 1;
    let at = frame as usize;
    if at < pieces.len() {
        pieces[at] = FramePiece {
            generation,
            frame: None,
        };
    }
    generation
}

// Its state word is that of no leaf, at this generation.
pub(crate) fn clear(states: &mut [u64], frame: u32, generation: u64)
    ensures { states.new ≡ slice_set states.old frame (empty generation) }
{
    let at = frame as usize;
    if at < states.len() {
        states[at] = empty(generation);
    }
}
