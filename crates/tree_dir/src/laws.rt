//! How the leaves of a table part its keys.

ghost use Rattle.tree_dir.specs.GivingWay.{LeavesGiveWay};
ghost use Rattle.tree_dir.specs.Ranges.{FirstBegins, HasUnder, IdsName, KeysHaveLeaves, LastEnds, NextGoesOn, NextTurns, PrevTurns, TablesEnd, UnderHas};

/// The leaf under a key has it.
pub fn under_has()
    ensures { UnderHas }
{}

/// The leaf that has a key is the one under it, so no other has it.
pub fn has_is_under()
    ensures { HasUnder }
{}

/// Each key of a table that is there lies in a leaf.
pub fn keys_have_leaves()
    ensures { KeysHaveLeaves }
{}

/// The next leaf has the keys directly above those of a leaf.
pub fn next_goes_on()
    ensures { NextGoesOn }
{}

/// The leaf before the next one is the leaf itself.
pub fn next_turns()
    ensures { NextTurns }
{}

/// The leaf behind the one before a leaf is the leaf itself.
pub fn prev_turns()
    ensures { PrevTurns }
{}

/// The first leaf of a table begins at the empty key.
pub fn first_begins()
    ensures { FirstBegins }
{}

/// No leaf of a table is behind its last one.
pub fn last_ends()
    ensures { LastEnds }
{}

/// A table that is there has a last leaf.
pub fn tables_end()
    ensures { TablesEnd }
{}

/// A leaf is found by its id.
pub fn ids_name()
    ensures { IdsName }
{}

/// Where a leaf gave way, each key that lay in it lies in one of the leaves in its place, and any
/// other key where it lay.
pub fn leaves_give_way()
    ensures { LeavesGiveWay }
{}
