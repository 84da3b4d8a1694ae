//! A law of what is loaded.

ghost use Rattle.leaf_load.specs.Loads.{OneIsLoaded};

/// Whatever rows the device has where the link leads, what is loaded is what an opening keeps of
/// them.
pub fn one_is_loaded()
    ensures { OneIsLoaded }
{}
