//! Tables and pools of two seats.

ghost use Rattle.std.specs.Prelude.{◌≡◌, ◌+◌, ◌≤◌, ◌<◌, [], ◌∷◌, IfOk, replicate};
ghost use Rattle.latch_table.specs.Closing.{IsIdle};
ghost use Rattle.latch_table.specs.Opening.{IsFresh};
ghost use Rattle.latch_table.specs.Tables.{number_of_seat, pieces_in, shape_of};
ghost use Rattle.pool_trials.specs.Trials.{IsKeeper};

use crate::grow::Grow;
use crate::keepers::Keepers;
use crate::pair::{both, two_seats};
use hazard_table::{Pool, WithHazards};
use latch_table::{Latched, NoMemory, Pieces, Seat};
use pool_law::Law;
use std::alloc::Global;

// Two numbers.
fn pair_of(alloc: Global, first: u64, second: u64) -> Result<Vec<u64>, NoMemory>
    ensures { IfOk result (λ v. v.items ≡ first ∷ second ∷ []) }
{
    let mut both = Vec::with_capacity(alloc, 2)?;
    both.push_reserved(first);
    both.push_reserved(second);
    Ok(both)
}

/// A table of two frames that only rise, with its two seats.
pub fn open_rising(
    alloc: Global,
    hub: u64,
    first: u64,
    second: u64,
) -> Result<(Latched<Grow<2>>, Seat<Grow<2>>, Seat<Grow<2>>), NoMemory>
    requires few { hub ≤ first + second }
    ensures table { IfOk result (λ r. ((shape_of r.0).seats ≡ 2) × (pieces_in r.0 ≡ 3)) }
    ensures first { IfOk result (λ r. IsFresh (λ _. replicate 2 0) r.0 0 r.1) }
    ensures second { IfOk result (λ r. IsFresh (λ _. replicate 2 0) r.0 1 r.2) }
{
    let frames = pair_of(alloc, first, second)?;
    match Latched::<Grow<2>>::new(alloc, hub, frames, 2, Vec::new(alloc)) {
        Err((none, _, _)) => Err(none),
        Ok((table, seats)) => {
            let (one, other) = two_seats(&table, seats);
            Ok((table, one, other))
        }
    }
}

/// A pool of two frames with their keepers, in at the generation 7.
pub fn open_kept(
    alloc: Global,
) -> Result<
    (
        Pool<Keepers>,
        Seat<WithHazards<Keepers>>,
        Seat<WithHazards<Keepers>>,
    ),
    NoMemory,
>
    ensures first { IfOk result (λ r. IsKeeper r.0.pieces r.1 29 × (number_of_seat r.1 ≡ 0)) }
    ensures second { IfOk result (λ r. IsKeeper r.0.pieces r.2 29 × (number_of_seat r.2 ≡ 1)) }
{
    let frames = pair_of(alloc, 0, 0)?;
    match Pool::<Keepers>::new(alloc, 0, frames, 2, &[29, 29]) {
        Err((none, _, _)) => Err(none),
        Ok((pool, seats)) => {
            let (one, other) = two_seats(&pool.pieces, seats);
            Ok((pool, one, other))
        }
    }
}

/// Ends a table of two seats, which hold nothing.
pub fn close_two<L: Law>(
    alloc: Global,
    table: Latched<L>,
    first: Seat<L>,
    second: Seat<L>,
) -> Result<Pieces<L::Hub, L::Frame>, NoMemory>
    requires two { (shape_of table).seats ≡ 2 }
    requires pieces { 0 < pieces_in table }
    requires first { IsIdle table first × (number_of_seat first ≡ 0) }
    requires second { IsIdle table second × (number_of_seat second ≡ 1) }
{
    let seats = both(alloc, &table, first, second)?;
    match table.close(alloc, seats) {
        Ok(pieces) => Ok(pieces),
        Err((none, _, _)) => Err(none),
    }
}
