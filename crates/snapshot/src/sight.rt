//! Who sees what.

ghost use Rattle.std.specs.Prelude.{◌≡◌, ℕ};
ghost use Rattle.snapshot.specs.Sight.{Ascends, IsSight, is_listed, is_seen, sight_of};

use stamp::{Name, View};

/// Whether the snapshot that a view lends sees a name: one of an earlier run, or one of its run
/// that is below `min`, or below `max` and not listed. `O(log n)` in the length of the list.
pub fn is_seen(view: &View<'_>, name: Name) -> bool
    requires { IsSight (sight_of view.now) }
    ensures { result ≡ is_seen (sight_of view.now) name }
{
    is_seen_among(view.run, view.min, view.max, view.list, name)
}

pub(crate) fn is_seen_among(run: u64, min: u64, max: u64, list: &[u64], name: Name) -> bool
    requires { Ascends min list.now max }
    ensures { result ≡ is_seen (record { run = run; min = min; max = max; list = list.now }) name }
{
    if name.run != run {
        return name.run < run;
    }
    if name.id < min {
        return true;
    }
    name.id < max && !is_listed(list, name.id)
}

fn is_listed(list: &[u64], id: u64) -> bool
    requires { (low high : ℕ) × Ascends low list.now high }
    ensures { result ≡ is_listed list.now id }
{
    list.binary_search(&id).is_ok()
}
