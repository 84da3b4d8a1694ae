//! A seat locks a frame, scans the hazard words, and frees the frame or unlocks it.

ghost use Rattle.std.specs.Prelude.{◌≡◌, ℕ, suc, ◌+◌, ◌<◌, ◌==◌, ◌^◌};
ghost use prog.Atomic.{either};
ghost use Rattle.pool_law.specs.Asks.{FindsAndMayGo, MayGo, MayTurn};
ghost use Rattle.latch_table.specs.Tables.{SamePieces, knows, note_of, shape_of};
ghost use Rattle.hazard_law.specs.declared.known.Lock.TheVariants.{Locks};
ghost use Rattle.hazard_law.specs.Safety.{HasLock, inner};
ghost use Rattle.hazard_law.specs.Words.{empty, filled, locked};
ghost use Rattle.hazard_table.specs.Leaves.{HasLocked, HasScannedAll, LocksFrame, Opens, Scans, word_at_lock, word_of_session};
ghost use Rattle.hazard_table.specs.Sessions.{IsSession};

use crate::answers::{Locking, Scanning};
use crate::kinds::{Fill, Free, LockFrame, Scan, Unlock};
use crate::pool::Pool;
use crate::with_hazards::WithHazards;
use crate::words::{empty_at, filled_at, locked_at, name_of};
use latch_table::Seat;
use pool_law::Law;

impl<L: Law> Pool<L> {
    /// Locks the frame where it is in at this generation; else answers its state word. O(1): one
    /// compare-exchange.
    pub fn lock(&self, seat: &mut Seat<WithHazards<L>>, f: u32, g: u64) -> Locking
        requires session { IsSession self.now.pieces seat.old }
        requires frame { f < (shape_of self.now.pieces).frames }
        requires generation { g < 2 ^ 62 }
        requires beside { MayTurn L.finds L.turns (inner (knows seat.old)) f (λ r. either (r == filled g) (locked g) r) }
        ensures session { IsSession self.now.pieces seat.new }
        ensures pieces { SamePieces seat.old seat.new }
        ensures finds { L.finds (inner (knows seat.old)) f (word_at_lock g result) }
        ensures locked { LocksFrame L.turns (knows seat.old) (note_of seat.new) f g result }
    {
        let old = filled_at(g);
        let new = locked_at(g);
        match self.pieces.word_swap::<LockFrame>(seat, f, old, new) {
            Ok(()) => Locking::Locked,
            Err(seen) => Locking::Again { seen },
        }
    }

    /// Whether a hazard word of the session names the frame, which this seat locked last. A word
    /// that does not counts as scanned clear where it is the next one. O(1): one load.
    pub fn scan(&self, seat: &mut Seat<WithHazards<L>>, session: u32, word: u32, f: u32) -> Scanning
        requires session { IsSession self.now.pieces seat.old }
        requires scanned { (session < (shape_of self.now.pieces).seats) × (word < 5) }
        requires lock { (g : ℕ) × HasLocked (knows seat.old) f g }
        requires last { (note_of seat.old).last_frame ≡ f }
        requires beside { MayTurn L.finds L.turns (inner (knows seat.old)) (word_of_session (knows seat.old) session word) (λ r. r) }
        ensures session { IsSession self.now.pieces seat.new }
        ensures pieces { SamePieces seat.old seat.new }
        ensures scanned { (g c : ℕ) → HasLock (note_of seat.old) f (Locks g c)
            → Scans L.turns (knows seat.old) (note_of seat.new) session word f g c result }
    {
        let at = self.hazard_at(session, word);
        let name = name_of(f);
        let seen = self.pieces.word_load::<Scan>(seat, at);
        if seen == name {
            return Scanning::Pinned(session);
        }
        Scanning::Clear
    }

    /// The frame that this seat locked is in again, at the same generation. O(1): one swap.
    pub fn unlock(&self, seat: &mut Seat<WithHazards<L>>, f: u32, g: u64)
        requires session { IsSession self.now.pieces seat.old }
        requires generation { g < 2 ^ 62 }
        requires lock { HasLocked (knows seat.old) f g }
        requires frame { f < (shape_of self.now.pieces).frames }
        requires beside { MayGo L.finds L.turns (inner (knows seat.old)) f (locked g) (filled g) }
        ensures session { IsSession self.now.pieces seat.new }
        ensures pieces { SamePieces seat.old seat.new }
        ensures unlocked { Opens L.turns (knows seat.old) (note_of seat.new) f (locked g) (filled g) }
    {
        self.pieces.word_store::<Unlock>(seat, f, filled_at(g));
    }

    /// The frame that this seat locked is empty, at the next generation: every hazard word was
    /// scanned clear since. O(1): one swap.
    pub fn free(&self, seat: &mut Seat<WithHazards<L>>, f: u32, g: u64)
        requires session { IsSession self.now.pieces seat.old }
        requires generation { g + 1 < 2 ^ 62 }
        requires scanned { HasScannedAll (knows seat.old) f g }
        requires frame { f < (shape_of self.now.pieces).frames }
        requires beside { MayGo L.finds L.turns (inner (knows seat.old)) f (locked g) (empty (suc g)) }
        ensures session { IsSession self.now.pieces seat.new }
        ensures pieces { SamePieces seat.old seat.new }
        ensures freed { Opens L.turns (knows seat.old) (note_of seat.new) f (locked g) (empty (suc g)) }
    {
        self.pieces.word_store::<Free>(seat, f, empty_at(g + 1));
    }

    /// The empty frame is in, at this generation, by the seat that the law of the pieces lets fill
    /// it. O(1): one swap.
    pub fn fill(&self, seat: &mut Seat<WithHazards<L>>, f: u32, g: u64)
        requires session { IsSession self.now.pieces seat.old }
        requires generation { g < 2 ^ 62 }
        requires frame { f < (shape_of self.now.pieces).frames }
        requires beside { FindsAndMayGo L.finds L.turns (inner (knows seat.old)) f (empty g) (filled g) }
        ensures session { IsSession self.now.pieces seat.new }
        ensures pieces { SamePieces seat.old seat.new }
        ensures filled { Opens L.turns (knows seat.old) (note_of seat.new) f (empty g) (filled g) }
    {
        self.pieces.word_store::<Fill>(seat, f, filled_at(g));
    }
}
