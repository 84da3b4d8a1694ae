//! Laws of the versions of every key, over adds, sweeps and look-ups.

ghost use Rattle.hist_store.specs.Laws.{AddsAdd, AddsChange, AddsDescend, AddsKeep, FirstIsNewest, SweepsChange, SweepsDescend, SweepsSweep};

/// After an add its key has the version among those that it had.
pub fn adds_change()
    ensures { AddsChange }
{}

/// Every other key has the versions that it had.
pub fn adds_keep()
    ensures { AddsKeep }
{}

/// What a key had stays over an add, and the name that is added is there.
pub fn adds_add()
    ensures { AddsAdd }
{}

/// A sweep of all slots sweeps the versions of each key.
pub fn sweeps_change()
    ensures { SweepsChange }
{}

/// Each version that a sweep drops lies below one that is past.
pub fn sweeps_sweep()
    ensures { SweepsSweep }
{}

/// Names that descend strictly do so after an add.
pub fn adds_descend()
    ensures { AddsDescend }
{}

/// Names that descend strictly do so after a sweep.
pub fn sweeps_descend()
    ensures { SweepsDescend }
{}

/// Where names descend strictly, the first version that is admitted is the newest.
pub fn first_is_newest()
    ensures { FirstIsNewest }
{}
