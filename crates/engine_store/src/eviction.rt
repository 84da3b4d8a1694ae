//! Leaves that go out of their frames while calls read others.

ghost use Rattle.std.specs.Prelude.{◌≡◌, IsTrue};
ghost use Rattle.engine_store.specs.GoneOut.{GoOut, IsWhole, LeadsToRows};

use crate::frames::Frames;
use crate::store::Store;
use ckpt_step::grounds_let_go;
use disk_model::Disk;
use tree_dir::Dir;

/// So many frames an engine has where nobody says how many.
pub const FRAMES: u32 = 64;

// At most so many frames are looked at for a leaf that goes out, each time that one came in, where the
// frames are soft.
pub(crate) const TRIES: usize = 4;

// So many calls are passed over between two looks for leaves of which many keys were written.
const LOOK_EVERY: u32 = 1_000; // calls

// So many where one of these leaves stayed at the last look, as while a transaction that wrote there goes on.
const LOOK_AGAIN: u32 = 32; // calls

/// Which leaves go out: a hand that goes over the frames, one after the other.
#[derive(Drop)]
pub(crate) struct Clock {
    // The frame that is looked at next.
    hand: u32,
    // Whether a leaf came in since leaves last went out.
    is_due: bool,
    // Whether more frames had leaves than the store has, as leaves last went out.
    is_over: bool,
    // How many calls went by since leaves were looked for of which many keys were written.
    calls: u32,
    // Whether there were such leaves behind that look.
    are_left: bool,
}

impl Clock {
    pub(crate) fn new() -> Clock {
        Clock {
            hand: 0,
            is_due: false,
            is_over: false,
            calls: 0,
            are_left: false,
        }
    }

    // A leaf came in.
    pub(crate) fn tick(&mut self) {
        self.is_due = true;
    }

    // Whether more frames had leaves than the store has. It is told once.
    pub(crate) fn take_over(&mut self) -> bool {
        let is_over = self.is_over;
        self.is_over = false;
        is_over
    }

    pub(crate) fn note_over(&mut self, is_over: bool) {
        self.is_over = is_over;
    }

    // A call went by. Whether leaves are looked for of which many keys were written.
    pub(crate) fn count_call(&mut self) -> bool {
        self.calls = self.calls.wrapping_add(1);
        if self.calls < self.pause() {
            return false;
        }
        self.calls = 0;
        // Leaves of new tables came into frames unread.
        self.is_due = true;
        true
    }

    // How many calls go by between two looks for such leaves.
    fn pause(&self) -> u32 {
        if self.are_left {
            LOOK_AGAIN
        } else {
            LOOK_EVERY
        }
    }

    pub(crate) fn note_left(&mut self, are_left: bool) {
        self.are_left = are_left;
    }

    // The next one of so many frames.
    pub(crate) fn next(&mut self, frames: usize) -> u32 {
        let frame = self.hand;
        let next = frame.wrapping_add(1);
        self.hand = if (next as usize) < frames { next } else { 0 };
        frame
    }
}

impl Store {
    /// Behind a call for which leaves were read: while more frames have leaves than there are to be, some
    /// go out of theirs, or each where the frames are firm, that no call has in hand and no cursor stands
    /// on, whose keys were never written since they were read, and which no checkpoint of this engine
    /// wrote. They are read again when a call needs them. `O(1)` where no leaf was read, else `O(n)` in
    /// the frames and sessions.
    #[inline(always)]
    pub(crate) fn make_way<D: Disk>(&mut self)
        ensures { GoOut D.Disk self.old self.new }
    {
        if self.clock.is_due {
            self.turn::<D>();
        }
    }

    // The hand goes on.
    #[inline(never)]
    fn turn<D: Disk>(&mut self)
        ensures { GoOut D.Disk self.old self.new }
    {
        self.clock.is_due = false;
        let mut over = self.over();
        self.clock.note_over(over > 0);
        for _ in 0..self.looks(over) {
            if over == 0 {
                return;
            }
            if self.next_out::<D>() {
                over = over.wrapping_sub(1);
            }
        }
    }

    // How many frames are looked at, where so many are over: each of them where they are firm.
    fn looks(&self, over: usize) -> usize {
        match self.frames {
            Frames::Soft(_) => over.min(TRIES),
            Frames::Firm(_) => self.engine.frames(),
        }
    }

    // How many more frames have leaves than there are to be.
    pub(crate) fn over(&self) -> usize {
        self.filled().saturating_sub(self.frames.count() as usize)
    }

    // The leaf in the next frame goes out of it, if it may. Whether it went.
    fn next_out<D: Disk>(&mut self) -> bool
        ensures { GoOut D.Disk self.old self.new }
    {
        let frame = self.clock.next(self.engine.frames());
        let had_leaf = self.has_leaf(frame as usize);
        self.let_out::<D>(frame);
        had_leaf && !self.has_leaf(frame as usize)
    }

    // How many frames have leaves.
    pub(crate) fn filled(&self) -> usize {
        let mut filled: usize = 0;
        for frame in 0..self.engine.frames() {
            if self.has_leaf(frame) {
                filled = filled.wrapping_add(1);
            }
        }
        filled
    }

    pub(crate) fn has_leaf(&self, frame: usize) -> bool {
        match u32::try_from(frame) {
            Ok(number) => self.engine.id_in(number).is_some(),
            Err(_) => false,
        }
    }

    // The leaf in a frame goes out of it, if it may.
    fn let_out<D: Disk>(&mut self, frame: u32)
        ensures { GoOut D.Disk self.old self.new }
    {
        grounds_let_go::<D>();
        // What holds of the leaves of every engine holds of these.
        self.engine.leaves();
        let Some(leaf) = self.engine.id_in(frame) else {
            return;
        };
        if self.is_whole(leaf) {
            let _ = self.engine.go_out(leaf);
            self.engine.leaves();
        }
    }

    // Whether no checkpoint of this engine wrote the leaf of this id, and its link leads to rows.
    fn is_whole(&self, leaf: u64) -> bool
        ensures { IsTrue result → IsWhole self.now leaf }
    {
        match self.ground.parts.of(leaf) {
            Some(_) => false,
            None => leads_to_rows(self.engine.leaves(), leaf),
        }
    }
}

fn leads_to_rows(leaves: &Dir, leaf: u64) -> bool
    ensures { IsTrue result → LeadsToRows leaves.now.leaves leaf }
{
    match leaves.leaf(leaf) {
        None => false,
        Some(found) => found.entry.link.greatest.id != 0,
    }
}
