//! Frames that never fall.

ghost use Rattle.std.specs.Prelude.{◌≡◌, replicate};
ghost use Rattle.pool_law.specs.Growing.{Grown, looks, raises};
ghost use Rattle.pool_trials.specs.Laws.{grow_latches, grow_puts, grow_turns};

use pool_law::Law;
use std::collections::LinkedList;

/// So many frames are numbers that never fall. A note has the greatest value of each frame that
/// its seat saw, and the hub is at most the sum of the frames.
pub struct Grow<const F: usize>;

impl<const F: usize> Law for Grow<F> {
    type Hub = u64;

    type Frame = u64;

    type Note = LinkedList<u64>;

    ghost joint = { Grown F };

    ghost start = { λ _ _. replicate F 0 };

    ghost may_latch = { λ _ _. Unit {0} };

    ghost told = { looks };

    ghost puts = { raises };

    ghost finds = { λ _ _ _. Unit {0} };

    ghost turns = { λ v i m n w. w ≡ v.note };

    ghost latch_keeps = { grow_latches F };

    ghost put_keeps = { grow_puts F };

    ghost find_holds = { λ x id v i j a. tt };

    ghost turn_keeps = { grow_turns F };
}
