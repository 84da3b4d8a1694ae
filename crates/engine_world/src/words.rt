//! Laws of the start of a call and of events on words. A law calls those of lower crates
//! that its proof rests on.

ghost use Rattle.engine_world.specs.Laws.{ClearsGo, LoadGoes, PublishesGo, ResetsGo, StartsGo, UnpinsGo};

use update_chain::chains_go_on;

/// A call begins, unless its session has one.
pub fn starts_go()
    ensures { StartsGo }
{}

/// A load of a state word: the frame has the leaf that was found, or the call is refused.
pub fn loads_go()
    ensures { LoadGoes }
{}

/// A store that names a frame.
pub fn publishes_go()
    ensures { PublishesGo }
{}

/// A store that clears the word of a cursor or of the call: the last one gives the answer.
pub fn clears_go()
    ensures { ClearsGo }
{
    chains_go_on();
}

/// The store of a reset.
pub fn resets_go()
    ensures { ResetsGo }
{
    chains_go_on();
}

/// A store that clears the word of a cursor after the end of its transaction.
pub fn unpins_go()
    ensures { UnpinsGo }
{}
