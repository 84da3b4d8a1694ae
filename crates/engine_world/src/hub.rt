//! Laws of the events on the hub. A law calls those of lower crates
//! that its proof rests on.

ghost use Rattle.engine_world.specs.Laws.{BeginsGo, DecidesGo, EndsGo, FillsGo, FindsGo, HistoriesGo, KeepsOutGo, PassesGo, ReleasesGo, ResolvesGo};

use update_chain::{chains_go_on, commits_stand, ends_stand, prepares_stand, resolves_stand};

/// A begin.
pub fn begins_go()
    ensures { BeginsGo }
{
    chains_go_on();
}

/// The event that finds the table of a call.
pub fn finds_go()
    ensures { FindsGo }
{
    chains_go_on();
}

/// The event that goes on once the leaf of a call is in a frame.
pub fn fills_go()
    ensures { FillsGo }
{}

/// The leaf that a call waits for cannot be had: the call is refused so.
pub fn keeps_out_go()
    ensures { KeepsOutGo }
{}

/// The event that goes on to the next leaf on the way.
pub fn passes_go()
    ensures { PassesGo }
{}

/// The look in the history, after a leaf that held nothing which is admitted.
pub fn histories_go()
    ensures { HistoriesGo }
{}

/// A prepare, after the marks.
pub fn releases_go()
    ensures { ReleasesGo }
{
    chains_go_on();
    prepares_stand();
}

/// The decision of a commit.
pub fn decides_go()
    ensures { DecidesGo }
{
    chains_go_on();
    commits_stand();
    resolves_stand();
}

/// The decision of a rollback.
pub fn resolves_go()
    ensures { ResolvesGo }
{
    chains_go_on();
}

/// The end of a transaction whose commit or rollback was decided.
pub fn ends_go()
    ensures { EndsGo }
{
    chains_go_on();
    ends_stand();
}
