//! Which versions are written, and which make what is older unreachable.

ghost use Rattle.std.specs.Prelude.{◌≡◌};
ghost use Rattle.reconcile.specs.Held.{lives, passes};

use snapshot::Snapshot;
use stamp::{Name, Window};

/// Which versions may be written.
#[derive(Clone, Copy)]
pub enum Live<'a> {
    /// Each: nothing in the leaf is unresolved.
    All,
    /// Those whose names the snapshot sees.
    Seen(&'a Snapshot),
}

// What decides about a version.
#[derive(Clone, Copy)]
pub(crate) struct Rule<'a> {
    pub live: Live<'a>,
    pub pin: u64,
    pub floor: Name,
}

// Whether a version may be written.
#[inline(always)]
pub(crate) fn is_live(rule: &Rule<'_>, window: &Window) -> bool
    ensures { result ≡ lives rule.now.live window.now }
{
    match rule.live {
        Live::All => true,
        Live::Seen(snapshot) => snapshot.sees(window.name),
    }
}

// Whether a version makes what is older unreachable.
#[inline(always)]
pub(crate) fn is_past(rule: &Rule<'_>, window: &Window) -> bool
    ensures { result ≡ passes rule.now.pin rule.now.floor window.now }
{
    window.durable <= rule.pin && window.name.is_before(rule.floor)
}
