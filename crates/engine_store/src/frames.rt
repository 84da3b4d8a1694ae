// How many frames a store has, and whether each of them has a leaf that may not go.

ghost use Rattle.std.specs.Prelude.{◌≡◌, ◌≤◌, ◌+◌, ◌^◌, ℕ, false, length, IsTrue};
ghost use Rattle.engine_store.specs.Full.{CountsKept, IsFull, IsFullOf, IsKeptIn, count_of};

use crate::store::Store;

/// How many frames a store has, and what a call is told whose leaf needs one while each of them has a
/// leaf that may not go: one that a call is at, that a cursor stands on, or in which a transaction
/// wrote that has not ended.
#[derive(Clone, Copy, Debug, PartialEq, Eq)]
pub enum Frames {
    /// So many; then a frame is added, until one of those leaves may go.
    Soft(u32),
    /// So many; then the call is refused as `CacheFull`.
    Firm(u32),
}

impl Frames {
    /// How many there are.
    pub fn count(self) -> u32
        ensures { result ≡ count_of self }
    {
        match self {
            Frames::Soft(count) => count,
            Frames::Firm(count) => count,
        }
    }
}

// So many numbers a frame may have.
const NUMBERS: usize = 1 << 32;

impl Store {
    // Whether no call may have a leaf more: the frames are firm, and as many as there are to be have a leaf
    // that may not go. `O(n)` in the frames at most, and for each in the sessions and in what their
    // transactions wrote; where there are no more frames than there are to be, up to the first that has none.
    pub(crate) fn is_full(&self) -> bool
        ensures yes { IsTrue result → IsFullOf self.now.frames self.now.engine }
        ensures no { result ≡ false → IsFullOf self.now.frames self.now.engine → ⊥ }
    {
        match self.frames {
            Frames::Soft(_) => false,
            Frames::Firm(count) => self.has_kept(count as usize),
        }
    }

    // How many frames there are that have numbers.
    fn numbered(&self) -> usize
        ensures within { result ≤ length self.now.engine.pieces }
        ensures fit { result ≤ 2 ^ 32 }
        ensures all { (frames : ℕ) → frames ≤ length self.now.engine.pieces → frames ≤ 2 ^ 32 → frames ≤ result }
    {
        let frames = self.engine.frames();
        if frames < NUMBERS { frames } else { NUMBERS }
    }

    // Whether so many frames have a leaf that may not go. Those behind are not looked at once they can be
    // no more.
    fn has_kept(&self, most: usize) -> bool
        ensures yes { IsTrue result → IsFull most self.now.engine }
        ensures no { result ≡ false → IsFull most self.now.engine → ⊥ }
    {
        let frames = self.numbered();
        let mut kept: usize = 0;
        for frame in 0..frames {
            let left = frames - frame;
            if kept + left < most {
                return false;
            }
            kept = self.kept_with(frame as u32, kept);
        }
        kept >= most
    }

    // How many they are with this frame, behind so many of those before it.
    fn kept_with(&self, frame: u32, kept: usize) -> usize
        requires within { kept ≤ frame }
        ensures counts { CountsKept self.now.engine frame kept → CountsKept self.now.engine (frame + 1) result }
        ensures within { result ≤ frame + 1 }
    {
        if self.is_kept(frame) { kept + 1 } else { kept }
    }

    // Whether the frame has a leaf that may not go.
    fn is_kept(&self, frame: u32) -> bool
        ensures yes { IsTrue result → IsKeptIn self.now.engine frame }
        ensures no { result ≡ false → IsKeptIn self.now.engine frame → ⊥ }
    {
        match self.engine.id_in(frame) {
            None => false,
            Some(leaf) => self.engine.why_it_stays(leaf).is_some(),
        }
    }
}
