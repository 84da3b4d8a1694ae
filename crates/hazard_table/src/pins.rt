//! A seat pins frames by its hazard words.

ghost use Rattle.std.specs.Prelude.{◌≡◌, ℕ, ◌<◌, ◌^◌};
ghost use Rattle.pool_law.specs.Asks.{MayTurn};
ghost use Rattle.latch_table.specs.Tables.{SamePieces, knows, note_of, shape_of};
ghost use Rattle.hazard_law.specs.declared.known.Mark.TheVariants.{Names};
ghost use Rattle.hazard_law.specs.Safety.{Marks, inner};
ghost use Rattle.hazard_law.specs.Words.{naming};
ghost use Rattle.hazard_table.specs.Asks.{MayPin};
ghost use Rattle.hazard_table.specs.Leaves.{Looks, PinsFrame, Publishes, Unpins, Validates, own_word, word_at_look, word_at_validate};
ghost use Rattle.hazard_table.specs.Sessions.{IsSession};

use crate::answers::{Looking, Pinning};
use crate::kinds::{Clear, Look, Publish, Validate};
use crate::pool::Pool;
use crate::with_hazards::WithHazards;
use crate::words::{empty_at, filled_at, name_of};
use latch_table::Seat;
use pool_law::Law;

impl<L: Law> Pool<L> {
    /// Names the frame in the own hazard word, ahead of `validate`. O(1): one swap.
    pub fn publish(&self, seat: &mut Seat<WithHazards<L>>, word: u32, f: u32)
        requires session { IsSession self.now.pieces seat.old }
        requires word { word < 5 }
        requires beside { MayTurn L.finds L.turns (inner (knows seat.old)) (own_word (knows seat.old) word) (λ r. naming f) }
        ensures session { IsSession self.now.pieces seat.new }
        ensures pieces { SamePieces seat.old seat.new }
        ensures published { Publishes L.turns (knows seat.old) (note_of seat.new) word f }
    {
        let at = self.hazard_at(seat.number(), word);
        self.pieces.word_store::<Publish>(seat, at, name_of(f));
    }

    /// Pins the frame that the own hazard word names, where it is in at this generation; else
    /// answers its state word. The hazard word is the one that was written last. O(1): one load.
    pub fn validate(&self, seat: &mut Seat<WithHazards<L>>, word: u32, f: u32, g: u64) -> Pinning
        requires session { IsSession self.now.pieces seat.old }
        requires frame { f < (shape_of self.now.pieces).frames }
        requires generation { g < 2 ^ 62 }
        requires named { Marks (note_of seat.old) word (Names f) }
        requires last { (note_of seat.old).last_word ≡ word }
        requires beside { MayTurn L.finds L.turns (inner (knows seat.old)) f (λ r. r) }
        ensures session { IsSession self.now.pieces seat.new }
        ensures pieces { SamePieces seat.old seat.new }
        ensures finds { L.finds (inner (knows seat.old)) f (word_at_validate g result) }
        ensures validated { Validates L.turns (knows seat.old) (note_of seat.new) word f g result }
    {
        let expected = filled_at(g);
        let seen = self.pieces.word_load::<Validate>(seat, f);
        if seen == expected {
            return Pinning::Pinned;
        }
        Pinning::Again { seen }
    }

    /// Lets the own hazard word name nothing. O(1): one swap.
    pub fn unpin(&self, seat: &mut Seat<WithHazards<L>>, word: u32)
        requires session { IsSession self.now.pieces seat.old }
        requires word { word < 5 }
        requires beside { MayTurn L.finds L.turns (inner (knows seat.old)) (own_word (knows seat.old) word) (λ r. 0) }
        ensures session { IsSession self.now.pieces seat.new }
        ensures pieces { SamePieces seat.old seat.new }
        ensures unpinned { Unpins L.turns (knows seat.old) (note_of seat.new) word }
    {
        let at = self.hazard_at(seat.number(), word);
        self.pieces.word_store::<Clear>(seat, at, 0);
    }

    /// Pins the frame by the own hazard word where it is in at this generation; else the word names
    /// nothing, and the frame's state word is answered. O(1): one swap and one load, and at `Again`
    /// another swap.
    pub fn pin(&self, seat: &mut Seat<WithHazards<L>>, word: u32, f: u32, g: u64) -> Pinning
        requires session { IsSession self.now.pieces seat.old }
        requires word { word < 5 }
        requires frame { f < (shape_of self.now.pieces).frames }
        requires generation { g < 2 ^ 62 }
        requires beside { MayPin L.finds L.turns (inner (knows seat.old)) (own_word (knows seat.old) word) f }
        ensures session { IsSession self.now.pieces seat.new }
        ensures pieces { SamePieces seat.old seat.new }
        ensures pinned { PinsFrame L.turns (knows seat.old) (note_of seat.new) word f g result }
    {
        self.publish(seat, word, f);
        match self.validate(seat, word, f, g) {
            Pinning::Pinned => Pinning::Pinned,
            Pinning::Again { seen } => {
                self.unpin(seat, word);
                Pinning::Again { seen }
            }
        }
    }

    /// Whether the frame is empty at this generation; else answers its state word. O(1): one load.
    pub fn look(&self, seat: &mut Seat<WithHazards<L>>, f: u32, g: u64) -> Looking
        requires session { IsSession self.now.pieces seat.old }
        requires frame { f < (shape_of self.now.pieces).frames }
        requires generation { g < 2 ^ 62 }
        requires beside { MayTurn L.finds L.turns (inner (knows seat.old)) f (λ r. r) }
        ensures session { IsSession self.now.pieces seat.new }
        ensures pieces { SamePieces seat.old seat.new }
        ensures finds { L.finds (inner (knows seat.old)) f (word_at_look g result) }
        ensures looked { Looks L.turns (knows seat.old) (note_of seat.new) f g result }
    {
        let expected = empty_at(g);
        let seen = self.pieces.word_load::<Look>(seat, f);
        if seen == expected {
            return Looking::Empty;
        }
        Looking::Again { seen }
    }
}
