//! A table ends.

ghost use Rattle.std.specs.Prelude.{◌≡◌, ℕ, suc, ◌+◌, ◌-◌, ◌<◌, ◌≤◌, [], ◌∷◌, IfErr, IfOk, drop, length, map, vec_capacity};
ghost use Rattle.std.specs.Slots.{slots_items, slots_len, IsFull};
ghost use Rattle.pool_law.specs.declared.part.Part.TheVariants.{Frame, Hub};
ghost use Rattle.latch_table.specs.Closing.{AreAll, EndsAs, EndsWith};
ghost use Rattle.latch_table.specs.Ends.{LeavesAll};
ghost use Rattle.latch_table.specs.Tables.{pieces_in, shape_of};

use crate::latched::Latched;
use crate::open::{frame_in, hub_in};
use crate::seat::Seat;
use atomic_table::Closed;
use failure::NoMemory;
use pool_law::{Law, Part};
use std::alloc::Global;

/// What a table gives back at its end.
#[derive(Drop)]
pub struct Pieces<H, F> {
    pub hub: H,
    pub frames: Vec<F>,
    pub words: Vec<u64>,
}

// All seats go into one, which ends the table.
fn gather<L: Law>(
    table: Latched<L>,
    mut seats: Vec<Seat<L>>,
) -> Closed<Part<L::Hub, L::Frame>, Global>
    requires some_seat { 0 < (shape_of table).seats }
    requires some_word { 0 < table.table.shared.table_id.words }
    requires all { AreAll table seats.items }
    ensures full { IsFull result.slots × IsFull result.words }
    ensures counts { (slots_len result.words ≡ table.table.shared.table_id.words) × (slots_len result.slots ≡ pieces_in table) }
    ensures leaves { LeavesAll L.joint seats.items (slots_items result.words) (slots_items result.slots) }
{
    let Some(last) = seats.pop() else {
        unreachable!()
    };
    let Seat {
        number: _,
        raw: mut keeper,
        parts: _,
    } = last;
    while let Some(seat) = seats.pop() {
        let Seat {
            number: _,
            raw,
            parts: _,
        } = seat;
        table.absorb(&mut keeper, raw);
    }
    table.finish(keeper)
}

// The words from this one on.
fn read_words<S>(closed: &Closed<S, Global>, from: usize, words: &mut Vec<u64>)
    requires full { IsFull closed.now.words }
    requires from { from ≤ slots_len closed.now.words }
    requires room { slots_len closed.now.words ≤ from + vec_capacity words.old }
    requires empty { words.old.items ≡ [] }
    ensures { words.new.items ≡ drop from (slots_items closed.now.words) }
{
    let count = closed.words.len();
    let mut i = from;
    while i < count {
        words.push_reserved(closed.word(i));
        i += 1;
    }
}

// The pieces, beside the words.
fn take_pieces<H: Drop, F: Drop>(
    mut closed: Closed<Part<H, F>, Global>,
    mut frames: Vec<F>,
    words: Vec<u64>,
) -> Pieces<H, F>
    requires full { IsFull closed.slots }
    requires parts { (h : H) × (fs : _) × (slots_items closed.slots ≡ Hub h ∷ map Frame fs) × (length fs ≤ vec_capacity frames) }
    requires empty { frames.items ≡ [] }
    ensures pieces { slots_items closed.slots ≡ Hub result.hub ∷ map Frame result.frames.items }
    ensures words { result.words.items ≡ words.items }
{
    let hub = hub_in(closed.take(0));
    let mut i = 1;
    while i < closed.slot_count() {
        frames.push_reserved(frame_in(closed.take(i)));
        i += 1;
    }
    closed.free();
    Pieces { hub, frames, words }
}

// The hub alone; the frames are let go.
fn take_hub<H: Drop, F: Drop>(mut closed: Closed<Part<H, F>, Global>) -> H
    requires full { IsFull closed.slots }
    requires parts { (h : H) × (fs : _) × (slots_items closed.slots ≡ Hub h ∷ map Frame fs) }
    ensures { (fs : _) × (slots_items closed.slots ≡ Hub result ∷ map Frame fs) }
{
    let hub = hub_in(closed.take(0));
    let mut i = 1;
    while i < closed.slot_count() {
        drop(closed.take(i));
        i += 1;
    }
    closed.free();
    hub
}

impl<L: Law> Latched<L> {
    /// Ends the table: gives back its pieces and its further words, with which the law holds
    /// beside the notes of the seats. All seats are given, and none holds a piece. At `Err` there
    /// was no memory, and all is as before. O(frames and words).
    pub fn close(
        self,
        alloc: Global,
        seats: Vec<Seat<L>>,
    ) -> Result<Pieces<L::Hub, L::Frame>, (NoMemory, Latched<L>, Vec<Seat<L>>)>
        requires all { AreAll self seats.items }
        requires some_seat { 0 < (shape_of self).seats }
        requires pieces { 0 < pieces_in self }
        ensures pieces { IfOk result (λ p. EndsAs L.joint seats.items p.hub p.frames.items p.words.items) }
        ensures no_memory { IfErr result (λ e. (e.1 ≡ self) × (e.2 ≡ seats)) }
    {
        let pieces = self.table.slot_count();
        let Ok(frames) = Vec::with_capacity(alloc, pieces) else {
            return Err((NoMemory, self, seats));
        };
        let Ok(mut words) = Vec::with_capacity(alloc, self.table.word_count()) else {
            return Err((NoMemory, self, seats));
        };
        let closed = gather(self, seats);
        read_words(&closed, pieces, &mut words);
        Ok(take_pieces(closed, frames, words))
    }

    /// Ends the table and gives back the hub; the frames are let go. Takes no memory. All seats
    /// are given, and none holds a piece. O(frames).
    pub fn end(self, seats: Vec<Seat<L>>) -> L::Hub
        requires all { AreAll self seats.items }
        requires some_seat { 0 < (shape_of self).seats }
        requires pieces { 0 < pieces_in self }
        ensures { EndsWith L.joint seats.items result }
    {
        take_hub(gather(self, seats))
    }
}
