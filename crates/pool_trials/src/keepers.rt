//! Frames with keepers.

ghost use Rattle.pool_law.specs.Keeping.{Kept, finds_own, puts_anything, tells_nothing, turns_own};
ghost use Rattle.pool_trials.specs.Laws.{keep_finds, keep_latches, keep_puts, keep_turns};

use pool_law::Law;

/// Each of two seats keeps the frame of its own number: it alone changes the frame's state word,
/// and its note has its number and that word. At the beginning the frames are in at the generation
/// 7.
pub struct Keepers;

impl Law for Keepers {
    type Hub = u64;

    type Frame = u64;

    type Note = (u32, u64);

    ghost joint = { Kept 2 };

    ghost start = { λ _ j. (j, 29) };

    ghost may_latch = { λ _ _. Unit {0} };

    ghost told = { tells_nothing };

    ghost puts = { puts_anything };

    ghost finds = { finds_own 2 };

    ghost turns = { turns_own 2 };

    ghost latch_keeps = { keep_latches 2 };

    ghost put_keeps = { keep_puts 2 };

    ghost find_holds = { keep_finds 2 };

    ghost turn_keeps = { keep_turns 2 };
}
