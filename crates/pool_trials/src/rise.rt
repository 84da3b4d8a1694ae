//! Frames that rise.

ghost use Rattle.std.specs.Prelude.{◌≡◌, ℕ, suc, ◌+◌, ◌<◌, ◌≤◌, slice_set};
ghost use Rattle.pool_law.specs.declared.part.Part.TheVariants.{Frame, Hub};
ghost use Rattle.pool_law.specs.Growing.{total};
ghost use Rattle.latch_table.specs.Closing.{IsIdle};
ghost use Rattle.latch_table.specs.Lending.{HasFrame, HasHub, IsFrameWith, with_part};
ghost use Rattle.latch_table.specs.Tables.{SameSeat, note_of, pieces_in};

use crate::grow::Grow;
use latch_table::{Latched, Latching, Seat};
use pool_law::{Law, Piece};
use std::sync::Wait;

/// Adds so much to the frame, which the seat holds, as far as numbers go; answers what it is then.
pub fn add<L: Law<Frame = u64>>(seat: &mut Seat<L>, f: u32, by: u64) -> u64
    requires held { HasFrame seat.old f }
    ensures frame { (x : ℕ) × IsFrameWith seat.old f x × (x ≤ result) }
    ensures seat { seat.new ≡ with_part seat.old (f + 1) (Frame result) }
{
    let frame = seat.frame_mut(f);
    let value = (*frame).saturating_add(by);
    *frame = value;
    value
}

/// Adds so much to the frame under its latch, as far as numbers go; answers what it is then.
pub fn raise<R: Wait, const F: usize>(
    rt: &R,
    table: &Latched<Grow<F>>,
    seat: &mut Seat<Grow<F>>,
    f: u32,
    by: u64,
) -> u64
    requires idle { IsIdle table.now seat.old }
    requires frame { suc f < pieces_in table.now }
    ensures idle { IsIdle table.now seat.new }
    ensures number { SameSeat seat.old seat.new }
    ensures note { note_of seat.new ≡ slice_set (note_of seat.old) f result }
{
    table.latch(rt, seat, Piece::Frame(f));
    let value = add(seat, f, by);
    table.unlatch(seat, Piece::Frame(f));
    value
}

/// Whether another seat is told that the frame is held, while this one holds it.
pub fn meets<R: Wait, const F: usize>(
    rt: &R,
    table: &Latched<Grow<F>>,
    seat: &mut Seat<Grow<F>>,
    other: &mut Seat<Grow<F>>,
    f: u32,
) -> bool
    requires idle { IsIdle table.now seat.old × IsIdle table.now other.old }
    requires frame { suc f < pieces_in table.now }
    ensures idle { IsIdle table.now seat.new × IsIdle table.now other.new }
    ensures number { SameSeat seat.old seat.new × SameSeat other.old other.new }
{
    table.latch(rt, seat, Piece::Frame(f));
    let is_held = !tries(table, other, f);
    let _same = add(seat, f, 0);
    table.unlatch(seat, Piece::Frame(f));
    is_held
}

// Takes the frame, where no other seat holds it, and puts it back as it was.
fn tries<const F: usize>(table: &Latched<Grow<F>>, seat: &mut Seat<Grow<F>>, f: u32) -> bool
    requires idle { IsIdle table.now seat.old }
    requires frame { suc f < pieces_in table.now }
    ensures idle { IsIdle table.now seat.new }
    ensures number { SameSeat seat.old seat.new }
{
    match table.try_latch(seat, Piece::Frame(f)) {
        Latching::Again { seen: _ } => false,
        Latching::Held => {
            let _same = add(seat, f, 0);
            table.unlatch(seat, Piece::Frame(f));
            true
        }
    }
}

/// Sets the hub, to no more than what the seat saw of the frames.
pub fn set_hub<R: Wait, const F: usize>(
    rt: &R,
    table: &Latched<Grow<F>>,
    seat: &mut Seat<Grow<F>>,
    value: u64,
)
    requires idle { IsIdle table.now seat.old }
    requires hub { 0 < pieces_in table.now }
    requires few { value ≤ total (note_of seat.old) }
    ensures idle { IsIdle table.now seat.new }
    ensures number { SameSeat seat.old seat.new }
{
    table.latch(rt, seat, Piece::Hub);
    write_hub(seat, value);
    table.unlatch(seat, Piece::Hub);
}

fn write_hub<const F: usize>(seat: &mut Seat<Grow<F>>, value: u64)
    requires held { HasHub seat.old }
    ensures { seat.new ≡ with_part seat.old 0 (Hub value) }
{
    *seat.hub_mut() = value;
}
