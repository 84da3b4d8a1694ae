//! A pool is made, and ends.

ghost use Rattle.std.specs.Prelude.{◌≡◌, suc, ◌+◌, ◌*◌, ◌<◌, ◌^◌, All, IfErr, IfOk, length, vec_len};
ghost use Rattle.pool_law.specs.Whole.{whole};
ghost use Rattle.latch_table.specs.Closing.{AreAll, EndsAs, EndsWith};
ghost use Rattle.latch_table.specs.Opening.{AreSeats, shape};
ghost use Rattle.latch_table.specs.Rule.{starts};
ghost use Rattle.latch_table.specs.Tables.{pieces_in, shape_of};
ghost use Rattle.hazard_law.specs.Safety.{Both, beginning};
ghost use Rattle.hazard_table.specs.Sessions.{IsSession, first_words};

use crate::pool::{HAZARDS, Pool};
use crate::with_hazards::WithHazards;
use latch_table::{Latched, NoMemory, Pieces, Seat};
use pool_law::Law;
use std::alloc::Global;

// The state words, and behind them hazard words that name no frame.
fn words_with(alloc: Global, states: &[u64], seats: u32) -> Result<Vec<u64>, NoMemory>
    requires { 5 * seats < 2 ^ 32 }
    ensures { IfOk result (λ v. v.items ≡ first_words states.now seats) }
{
    let hazards = (HAZARDS * seats) as usize;
    let mut words = Vec::new(alloc);
    words.extend_from_slice(states)?;
    words.resize(states.len() + hazards, 0)?;
    Ok(words)
}

impl<L: Law> Pool<L> {
    /// A pool of these pieces, all of them free, with so many seats and with these state words, one
    /// a frame; no hazard word names a frame, and the seats stand by number. At `Err` there was no
    /// memory, and the pieces come back as they were. O(frames times seats).
    pub fn new(
        alloc: Global,
        hub: L::Hub,
        frames: Vec<L::Frame>,
        seats: u32,
        states: &[u64],
    ) -> Result<(Pool<L>, Vec<Seat<WithHazards<L>>>), (NoMemory, L::Hub, Vec<L::Frame>)>
        requires states { length states.now ≡ vec_len frames }
        requires some_seat { 0 < seats }
        requires few { vec_len frames + 5 * seats < 2 ^ 32 }
        requires joint { L.joint (whole (first_words states.now seats) hub frames.items
            (starts (L.start (shape (vec_len frames) seats)) 0 seats)) }
        ensures shape { IfOk result (λ r. shape_of r.0.pieces ≡ shape (vec_len frames) seats) }
        ensures pieces { IfOk result (λ r. pieces_in r.0.pieces ≡ suc (vec_len frames)) }
        ensures seats { IfOk result (λ r. AreSeats (beginning L.start (shape_of r.0.pieces)) r.0.pieces r.1.items) }
        ensures sessions { IfOk result (λ r. All (IsSession r.0.pieces) r.1.items) }
        ensures no_memory { IfErr result (λ e. (e.1 ≡ hub) × (e.2.items ≡ frames.items)) }
    {
        let count = frames.len() as u32;
        let Ok(words) = words_with(alloc, states, seats) else {
            return Err((NoMemory, hub, frames));
        };
        match Latched::new(alloc, hub, frames, seats, words) {
            Ok((pieces, sessions)) => {
                let pool = Pool {
                    pieces,
                    frames: count,
                };
                Ok((pool, sessions))
            }
            Err(refused) => Err(refused),
        }
    }

    /// Ends the pool: gives back its pieces and its words, with which the law holds beside the
    /// notes of the seats. All seats are given, and none holds a piece. At `Err` there was no
    /// memory, and all is as before. O(frames and words).
    pub fn close(
        self,
        alloc: Global,
        seats: Vec<Seat<WithHazards<L>>>,
    ) -> Result<Pieces<L::Hub, L::Frame>, (NoMemory, Pool<L>, Vec<Seat<WithHazards<L>>>)>
        requires all { AreAll self.pieces seats.items }
        ensures pieces { IfOk result (λ p. EndsAs (Both L.joint) seats.items p.hub p.frames.items p.words.items) }
        ensures no_memory { IfErr result (λ e. (e.1.pieces ≡ self.pieces) × (e.2 ≡ seats)) }
    {
        let Pool { pieces, frames } = self;
        match pieces.close(alloc, seats) {
            Ok(all) => Ok(all),
            Err((none, pieces, seats)) => Err((none, Pool { pieces, frames }, seats)),
        }
    }

    /// Ends the pool and gives back the hub; the frames are let go. Takes no memory. All seats are
    /// given, and none holds a piece. O(frames).
    pub fn end(self, seats: Vec<Seat<WithHazards<L>>>) -> L::Hub
        requires all { AreAll self.pieces seats.items }
        ensures { EndsWith (Both L.joint) seats.items result }
    {
        let Pool { pieces, frames: _ } = self;
        pieces.end(seats)
    }
}
