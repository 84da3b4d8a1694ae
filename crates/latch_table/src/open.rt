//! A table is made.

ghost use Rattle.std.specs.Prelude.{◌≡◌, ℕ, suc, ◌+◌, ◌<◌, ◌≤◌, ◌^◌, ◌++◌, [], ◌∷◌, All, IfErr, IfOk, length, map, replicate, vec_capacity, vec_len};
ghost use Rattle.pool_law.specs.declared.part.Part.TheVariants.{Frame, Gone, Hub};
ghost use Rattle.pool_law.specs.Whole.{whole};
ghost use Rattle.latch_table.specs.Rule.{starts};
ghost use Rattle.latch_table.specs.Opening.{AreSeats, Grows, IsGone, shape};
ghost use Rattle.latch_table.specs.Seats.{IsFirst};
ghost use Rattle.latch_table.specs.Tables.{pieces_in, shape_of, words_in};

use crate::latched::Latched;
use crate::seat::Seat;
use crate::steps::Raws;
use failure::NoMemory;
use pool_law::{Law, Part, Shape};
use std::alloc::Global;

// What a table takes memory for, before any piece moves.
struct Room<L: Law> {
    // The latches, and behind them the further words.
    words: Vec<u64>,
    parts: Vec<Part<L::Hub, L::Frame>>,
    // The places of the pieces that a seat takes, one row a seat.
    rows: Vec<Vec<Part<L::Hub, L::Frame>>>,
    seats: Vec<Seat<L>>,
}

// A row of empty places.
fn gone<H: Drop, F: Drop>(alloc: Global, pieces: usize) -> Result<Vec<Part<H, F>>, NoMemory>
    ensures { IfOk result (λ v. v.items ≡ replicate pieces Gone) }
{
    let mut parts = Vec::with_capacity(alloc, pieces)?;
    for _ in 0..pieces {
        parts.push_reserved(Part::Gone);
    }
    Ok(parts)
}

// So many rows of empty places.
fn gone_rows<H: Drop, F: Drop>(
    alloc: Global,
    pieces: usize,
    seats: usize,
) -> Result<Vec<Vec<Part<H, F>>>, NoMemory>
    ensures rows { IfOk result (λ v. All (IsGone pieces) v.items) }
    ensures count { IfOk result (λ v. length v.items ≡ seats) }
{
    let mut rows = Vec::with_capacity(alloc, seats)?;
    for _ in 0..seats {
        rows.push_reserved(gone(alloc, pieces)?);
    }
    Ok(rows)
}

// The latches, all free, and then the further words.
fn latches(alloc: Global, pieces: usize, further: &[u64]) -> Result<Vec<u64>, NoMemory>
    ensures { IfOk result (λ v. v.items ≡ replicate pieces 0 ++ further.now) }
{
    let mut words = Vec::new(alloc);
    words.resize(pieces, 0)?;
    words.extend_from_slice(further)?;
    Ok(words)
}

fn take_room<L: Law>(
    alloc: Global,
    pieces: usize,
    seats: usize,
    further: &[u64],
) -> Result<Room<L>, NoMemory>
    ensures words { IfOk result (λ r. r.words.items ≡ replicate pieces 0 ++ further.now) }
    ensures parts { IfOk result (λ r. (r.parts.items ≡ []) × (pieces ≤ vec_capacity r.parts)) }
    ensures rows { IfOk result (λ r. All (IsGone pieces) r.rows.items × (length r.rows.items ≡ seats)) }
    ensures seats { IfOk result (λ r. (r.seats.items ≡ []) × (seats ≤ vec_capacity r.seats)) }
{
    Ok(Room {
        words: latches(alloc, pieces, further)?,
        parts: Vec::with_capacity(alloc, pieces)?,
        rows: gone_rows(alloc, pieces, seats)?,
        seats: Vec::with_capacity(alloc, seats)?,
    })
}

// The hub and the frames as parts, in the order of their numbers. The emptied vector keeps its room.
fn pack<H: Drop, F: Drop>(
    hub: H,
    frames: &mut Vec<F>,
    mut parts: Vec<Part<H, F>>,
) -> Vec<Part<H, F>>
    requires { (parts.items ≡ []) × (vec_len frames.old < vec_capacity parts) }
    ensures packed { result.items ≡ Hub hub ∷ map Frame frames.old.items }
    ensures emptied { (frames.new.items ≡ []) × (vec_capacity frames.new ≡ vec_capacity frames.old) }
{
    while let Some(frame) = frames.pop() {
        parts.push_reserved(Part::Frame(frame));
    }
    parts.push_reserved(Part::Hub(hub));
    parts.reverse();
    parts
}

pub(crate) fn hub_in<H: Drop, F: Drop>(part: Part<H, F>) -> H
    requires { (h : H) × (part ≡ Hub h) }
    ensures { part ≡ Hub result }
{
    match part {
        Part::Hub(hub) => hub,
        _ => unreachable!(),
    }
}

pub(crate) fn frame_in<H: Drop, F: Drop>(part: Part<H, F>) -> F
    requires { (f : F) × (part ≡ Frame f) }
    ensures { part ≡ Frame result }
{
    match part {
        Part::Frame(frame) => frame,
        _ => unreachable!(),
    }
}

// The hub and the frames again, the frames into their emptied vector.
fn unpack<H: Drop, F: Drop>(mut parts: Vec<Part<H, F>>, frames: &mut Vec<F>) -> H
    requires packed { (h : H) × (fs : _) × (parts.items ≡ Hub h ∷ map Frame fs) × (length fs ≤ vec_capacity frames.old) }
    requires emptied { frames.old.items ≡ [] }
    ensures { parts.items ≡ Hub result ∷ map Frame frames.new.items }
{
    parts.reverse();
    let Some(hub) = parts.pop() else {
        unreachable!()
    };
    while let Some(part) = parts.pop() {
        frames.push_reserved(frame_in(part));
    }
    hub_in(hub)
}

// The next seat of a new table.
fn add_seat<L: Law>(
    table: &Latched<L>,
    seats: &mut Vec<Seat<L>>,
    parts: Vec<Part<L::Hub, L::Frame>>,
)
    requires grows { Grows (L.start (shape_of table.now)) table.now seats.old.items }
    requires some { (0 < vec_len seats.old) × (vec_len seats.old < (shape_of table.now).seats) }
    requires few { (shape_of table.now).seats < 2 ^ 32 }
    requires room { vec_len seats.old < vec_capacity seats.old }
    requires row { IsGone (pieces_in table.now) parts }
    requires words { 0 < table.now.table.shared.table_id.words }
    ensures grows { Grows (L.start (shape_of table.now)) table.now seats.new.items }
    ensures one_more { vec_len seats.new ≡ vec_len seats.old + 1 }
    ensures room { vec_capacity seats.new ≡ vec_capacity seats.old }
{
    let number = seats.len() as u32;
    let first = &mut seats[0];
    let raw = table.make_seat(&mut first.raw);
    seats.push_reserved(Seat { number, raw, parts });
}

// The seats of a new table, the first and those that it makes, one a row.
fn seat_all<L: Law>(
    table: &Latched<L>,
    first: Raws<L::Hub, L::Frame, L::Note>,
    mut rows: Vec<Vec<Part<L::Hub, L::Frame>>>,
    mut seats: Vec<Seat<L>>,
) -> Vec<Seat<L>>
    requires first { IsFirst (L.start (shape_of table.now) 0) (shape_of table.now) table.now.table.shared.table_id first }
    requires few { (shape_of table.now).seats < 2 ^ 32 }
    requires wide { (pieces_in table.now ≤ table.now.table.shared.table_id.words) × (0 < table.now.table.shared.table_id.words) }
    requires rows { All (IsGone (pieces_in table.now)) rows.items × (length rows.items ≡ (shape_of table.now).seats) }
    requires room { (seats.items ≡ []) × (0 < length rows.items) × (length rows.items ≤ vec_capacity seats) }
    ensures { AreSeats (L.start (shape_of table.now)) table.now result.items }
{
    let Some(row) = rows.pop() else {
        unreachable!()
    };
    seats.push_reserved(Seat {
        number: 0,
        raw: first,
        parts: row,
    });
    while let Some(row) = rows.pop() {
        add_seat(table, &mut seats, row);
    }
    seats
}

impl<L: Law> Latched<L> {
    /// A table of these pieces, all of them free, with so many seats and with these further words;
    /// the seats stand by number. At `Err` there was no memory, and the pieces come back as they
    /// were. O(frames times seats).
    pub fn new(
        alloc: Global,
        hub: L::Hub,
        mut frames: Vec<L::Frame>,
        seats: u32,
        words: Vec<u64>,
    ) -> Result<(Latched<L>, Vec<Seat<L>>), (NoMemory, L::Hub, Vec<L::Frame>)>
        requires frames { vec_len frames < 2 ^ 32 }
        requires some_seat { 0 < seats }
        requires joint { L.joint (whole words.items hub frames.items (starts (L.start (shape (vec_len frames) seats)) 0 seats)) }
        ensures shape { IfOk result (λ r. shape_of r.0 ≡ shape (vec_len frames) seats) }
        ensures pieces { IfOk result (λ r. pieces_in r.0 ≡ suc (vec_len frames)) }
        ensures words { IfOk result (λ r. words_in r.0 ≡ vec_len words) }
        ensures seats { IfOk result (λ r. AreSeats (L.start (shape_of r.0)) r.0 r.1.items) }
        ensures no_memory { IfErr result (λ e. (e.1 ≡ hub) × (e.2.items ≡ frames.items)) }
    {
        let pieces = frames.len() + 1;
        let shape = Shape {
            frames: frames.len() as u32,
            seats,
        };
        let Ok(room) = take_room::<L>(alloc, pieces, seats as usize, &words) else {
            return Err((NoMemory, hub, frames));
        };
        let Room {
            words,
            parts,
            rows,
            seats,
        } = room;
        let parts = pack(hub, &mut frames, parts);
        match Latched::open(alloc, &words, parts, shape) {
            Ok((table, first)) => {
                let seats = seat_all(&table, first, rows, seats);
                Ok((table, seats))
            }
            Err(parts) => {
                let hub = unpack(parts, &mut frames);
                Err((NoMemory, hub, frames))
            }
        }
    }
}
