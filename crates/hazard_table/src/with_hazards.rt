//! A law of the pieces with the law of the words.

ghost use Rattle.hazard_law.specs.Safety.{Both, Finds, MayLatch, Puts, Told, Turns, beginning};
ghost use Rattle.hazard_table.specs.Laws.{finds_beside, latches_beside, puts_beside, turns_beside};

use hazard_law::Hazards;
use pool_law::Law;
use std::marker::PhantomData;

/// The law `L` of the pieces, and beside it the law of the words. `L` sees the same words, and
/// says by its own members which steps on them it allows.
pub struct WithHazards<L> {
    law: PhantomData<L>,
}

impl<L: Law> Law for WithHazards<L> {
    type Hub = L::Hub;

    type Frame = L::Frame;

    type Note = Hazards<L::Note>;

    ghost joint = { Both L.joint };

    ghost start = { beginning L.start };

    ghost may_latch = { MayLatch L.may_latch };

    ghost told = { Told L.told };

    ghost puts = { Puts L.puts };

    ghost finds = { Finds L.finds };

    ghost turns = { Turns L.turns };

    ghost latch_keeps = { latches_beside L.joint L.may_latch L.told L.latch_keeps };

    ghost put_keeps = { puts_beside L.joint L.puts L.put_keeps };

    ghost find_holds = { finds_beside L.joint L.finds L.find_holds };

    ghost turn_keeps = { turns_beside L.joint L.turns L.turn_keeps };
}
