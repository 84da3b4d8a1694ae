//! The calls of a table of latched pieces.

ghost use Rattle.std.specs.Prelude.{◌≡◌, ◌<◌, ◌==◌, ◌≢◌, MatchResult, slice_set};
ghost use prog.Atomic.{either};
ghost use Rattle.pool_law.specs.declared.part.Part.TheVariants.{Gone};
ghost use Rattle.pool_law.specs.Asks.{MayTurn};
ghost use Rattle.pool_law.specs.Whole.{Holds};
ghost use Rattle.latch_table.specs.declared.latching.Latching.TheVariants.{Held};
ghost use Rattle.latch_table.specs.Seats.{piece_number};
ghost use Rattle.latch_table.specs.Tables.{IsSeatOf, Latches, MayPut, Puts, SamePieces, SameSeat, knows, note_of, pieces_in, pieces_with, words_in};

use crate::latching::Latching;
use crate::rule::Ruled;
use crate::seat::Seat;
use crate::view::View;
use atomic_table::Table;
use pool_law::{Law, Part, Piece, Shape, Turn};
use std::alloc::Global;
use std::sync::Wait;
use std::{mem, thread};

/// A hub and frames under their latches, and further words. Threads share it by `&`.
#[derive(Drop)]
pub struct Latched<L: Law> {
    pub(crate) table: Table<
        Part<L::Hub, L::Frame>,
        View<L::Hub, L::Frame, L::Note>,
        Shape,
        Ruled<L>,
        Global,
    >,
}

fn number_of(piece: Piece) -> usize
    ensures { result ≡ piece_number piece }
{
    match piece {
        Piece::Hub => 0,
        Piece::Frame(f) => f as usize + 1,
    }
}

impl<L: Law> Latched<L> {
    /// Takes the piece, or answers `Again` with its latch word where another seat holds it. Takes
    /// no memory and does not wait. O(1): one compare-exchange, and a move of the piece.
    pub fn try_latch(&self, seat: &mut Seat<L>, piece: Piece) -> Latching
        requires seat { IsSeatOf self.now seat.old }
        requires piece { piece_number piece < pieces_in self.now }
        requires apart { ¬ Holds (piece_number piece) (knows seat.old).held }
        requires may { L.may_latch (knows seat.old) (piece_number piece) }
        ensures seat { IsSeatOf self.now seat.new }
        ensures number { SameSeat seat.old seat.new }
        ensures latches { Latches L.told (piece_number piece) seat.old seat.new result }
    {
        let at = number_of(piece);
        let seen = self.take(&mut seat.raw, at);
        if seen != 0 {
            return Latching::Again { seen };
        }
        seat.parts[at] = self.table.shared.exchange(&mut seat.raw, at, Part::Gone);
        Latching::Held
    }

    /// Puts the piece back, the one that the seat took last, as it is now. Takes no memory and
    /// does not wait. O(1): a move of the piece, and one store.
    pub fn unlatch(&self, seat: &mut Seat<L>, piece: Piece)
        requires seat { IsSeatOf self.now seat.old }
        requires puts { MayPut L.puts (piece_number piece) seat.old }
        ensures seat { IsSeatOf self.now seat.new }
        ensures number { SameSeat seat.old seat.new }
        ensures put { Puts L.puts (piece_number piece) seat.old seat.new }
        ensures rest { pieces_with seat.new ≡ slice_set (pieces_with seat.old) (piece_number piece) Gone }
    {
        let at = number_of(piece);
        let part = mem::replace(&mut seat.parts[at], Part::Gone);
        self.table.shared.exchange(&mut seat.raw, at, part);
        self.give(&mut seat.raw, at);
    }

    /// Reads a further word. Takes no memory and does not wait. O(1): one load.
    pub fn word_load<M: Turn<L>>(&self, seat: &mut Seat<L>, word: u32) -> u64
        requires seat { IsSeatOf self.now seat.old }
        requires word { word < words_in self.now }
        requires turns { MayTurn L.finds M.turns (knows seat.old) word (λ r. r) }
        ensures seat { IsSeatOf self.now seat.new }
        ensures pieces { SamePieces seat.old seat.new }
        ensures finds { L.finds (knows seat.old) word result }
        ensures turns { M.turns (knows seat.old) word result result (note_of seat.new) }
    {
        let at = seat.parts.len() + word as usize;
        self.load_at::<M>(&mut seat.raw, at, word)
    }

    /// Writes a further word, and answers what it was. Takes no memory and does not wait. O(1):
    /// one swap.
    pub fn word_store<M: Turn<L>>(&self, seat: &mut Seat<L>, word: u32, value: u64) -> u64
        requires seat { IsSeatOf self.now seat.old }
        requires word { word < words_in self.now }
        requires turns { MayTurn L.finds M.turns (knows seat.old) word (λ r. value) }
        ensures seat { IsSeatOf self.now seat.new }
        ensures pieces { SamePieces seat.old seat.new }
        ensures finds { L.finds (knows seat.old) word result }
        ensures turns { M.turns (knows seat.old) word result value (note_of seat.new) }
    {
        let at = seat.parts.len() + word as usize;
        self.store_at::<M>(&mut seat.raw, at, word, value)
    }

    /// Writes a further word where it is `old`, or answers what it is. Takes no memory and does
    /// not wait. O(1): one compare-exchange.
    pub fn word_swap<M: Turn<L>>(
        &self,
        seat: &mut Seat<L>,
        word: u32,
        old: u64,
        new: u64,
    ) -> Result<(), u64>
        requires seat { IsSeatOf self.now seat.old }
        requires word { word < words_in self.now }
        requires turns { MayTurn L.finds M.turns (knows seat.old) word (λ r. either (r == old) new r) }
        ensures seat { IsSeatOf self.now seat.new }
        ensures pieces { SamePieces seat.old seat.new }
        ensures swapped { MatchResult result (λ _. L.finds (knows seat.old) word old) (λ r. (r ≢ old) × L.finds (knows seat.old) word r) }
        ensures turns { MatchResult result (λ _. M.turns (knows seat.old) word old new (note_of seat.new))
            (λ r. M.turns (knows seat.old) word r r (note_of seat.new)) }
    {
        let at = seat.parts.len() + word as usize;
        let found = self.swap_at::<M>(&mut seat.raw, at, word, old, new);
        if found == old { Ok(()) } else { Err(found) }
    }

    /// Takes the piece, as soon as no other seat holds it. The one call that waits.
    pub fn latch<R: Wait>(&self, rt: &R, seat: &mut Seat<L>, piece: Piece)
        requires seat { IsSeatOf self.now seat.old }
        requires piece { piece_number piece < pieces_in self.now }
        requires apart { ¬ Holds (piece_number piece) (knows seat.old).held }
        requires may { L.may_latch (knows seat.old) (piece_number piece) }
        ensures seat { IsSeatOf self.now seat.new }
        ensures number { SameSeat seat.old seat.new }
        ensures latches { Latches L.told (piece_number piece) seat.old seat.new Held }
    {
        for _ in rt.forever() {
            if let Latching::Held = self.try_latch(seat, piece) {
                return;
            }
            thread::yield_now();
        }
        unreachable!()
    }
}
