// How names stand to each other, and versions to a look-up and to a sweep.

ghost use Rattle.std.specs.Prelude.{◌≡◌};
ghost use Rattle.kv_model.specs.History.{name_eq};
ghost use Rattle.snapshot.specs.Sight.{IsSight, sight_of};
ghost use Rattle.hist_store.specs.Versions.{is_admitted, is_past};

use item::Change;
use snapshot::is_seen;
use stamp::{Name, Version, View};

pub(crate) fn is_same(a: Name, b: Name) -> bool
    ensures { result ≡ name_eq a b }
{
    a.run == b.run && a.id == b.id
}

// Whether a look-up may give this version.
pub(crate) fn is_admitted(view: &View<'_>, version: &Version<Change>) -> bool
    requires { IsSight (sight_of view.now) }
    ensures { result ≡ is_admitted view.now version.now }
{
    let window = version.window;
    is_seen(view, window.name) && (view.read == 0 || window.commit <= view.read)
}

// Whether no look-up needs what is older than this version.
pub(crate) fn is_past(version: &Version<Change>, pin: u64, floor: Name) -> bool
    ensures { result ≡ is_past pin floor version.now }
{
    let window = version.window;
    window.durable <= pin && window.name.is_before(floor)
}
