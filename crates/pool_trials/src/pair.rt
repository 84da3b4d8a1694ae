//! A table of two seats.

ghost use Rattle.std.specs.Prelude.{◌≡◌, IfOk};
ghost use Rattle.latch_table.specs.Closing.{AreAll, IsIdle};
ghost use Rattle.latch_table.specs.Opening.{AreSeats, IsFresh};
ghost use Rattle.latch_table.specs.Tables.{number_of_seat, shape_of};

use latch_table::{Latched, NoMemory, Seat};
use pool_law::Law;
use std::alloc::Global;

/// The two seats of a new table of two.
pub fn two_seats<L: Law>(table: &Latched<L>, mut seats: Vec<Seat<L>>) -> (Seat<L>, Seat<L>)
    requires seats { AreSeats (L.start (shape_of table.now)) table.now seats.items }
    requires two { (shape_of table.now).seats ≡ 2 }
    ensures first { IsFresh (L.start (shape_of table.now)) table.now 0 result.0 }
    ensures second { IsFresh (L.start (shape_of table.now)) table.now 1 result.1 }
{
    let Some(second) = seats.pop() else {
        unreachable!()
    };
    let Some(first) = seats.pop() else {
        unreachable!()
    };
    (first, second)
}

/// All seats of a table of two, which hold nothing.
pub fn both<L: Law>(
    alloc: Global,
    table: &Latched<L>,
    first: Seat<L>,
    second: Seat<L>,
) -> Result<Vec<Seat<L>>, NoMemory>
    requires two { (shape_of table.now).seats ≡ 2 }
    requires first { IsIdle table.now first × (number_of_seat first ≡ 0) }
    requires second { IsIdle table.now second × (number_of_seat second ≡ 1) }
    ensures { IfOk result (λ v. AreAll table.now v.items) }
{
    let mut seats = Vec::with_capacity(alloc, 2)?;
    seats.push_reserved(first);
    seats.push_reserved(second);
    Ok(seats)
}
