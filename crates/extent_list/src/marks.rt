// Flags of units and bounds, set over a range.
ghost use Rattle.std.specs.Prelude.{◌≡◌, ◌+◌, ◌≤◌, length};
ghost use Rattle.extent_list.specs.Units.{Marked, Raised};

// Gives the units of a range one state.
pub(crate) fn mark(units: &mut Vec<bool>, from: usize, to: usize, state: bool)
    requires order { from ≤ to }
    requires within { to ≤ length units.old.items }
    ensures { Marked units.old.items units.new.items from to state }
{
    for u in from..to {
        units[u] = state;
    }
}

// Lifts the bounds of a range up to this.
pub(crate) fn raise(bounds: &mut Vec<u16>, from: usize, to: usize, least: u16)
    requires order { from ≤ to }
    requires within { to ≤ length bounds.old.items }
    ensures { Raised bounds.old.items bounds.new.items from to least }
{
    for k in from..to {
        lift(bounds, k, least);
    }
}

fn lift(bounds: &mut Vec<u16>, k: usize, least: u16)
    requires { k + 1 ≤ length bounds.old.items }
    ensures { Raised bounds.old.items bounds.new.items k (k + 1) least }
{
    if bounds[k] < least {
        bounds[k] = least;
    }
}
