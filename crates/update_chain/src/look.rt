//! How a view looks at an update.

ghost use Rattle.std.specs.Prelude.{◌≡◌};
ghost use Rattle.kv_model.specs.History.{is_stable, name_eq, reads_at};
ghost use Rattle.snapshot.specs.Sight.{IsSight, sight_of};
ghost use Rattle.update_chain.specs.Updates.{covers_at, decides, is_own, reply_by, reply_of};
ghost use Rattle.update_chain.specs.Looks.{reply_in};
ghost use Rattle.update_chain.specs.Writing.{judgement_by, may_follow_by};

use crate::update::Update;
use item::{Change, Item};
use snapshot::is_seen;
use stamp::{Name, View};

/// What a read of a chain answers.
pub enum Read<'a> {
    /// The key has this value.
    Found(&'a Item),
    /// The key is absent.
    Removed,
    /// Another transaction, of this id, has prepared an update of the key that may be visible.
    Conflict(u64),
    /// The chain has no update that is admitted: older versions may stand elsewhere.
    Older,
}

/// Whether a write of a key is allowed.
#[derive(Clone, Copy, Debug, PartialEq, Eq)]
pub enum Judgement {
    /// It may come.
    Allowed,
    /// The newest update, of the transaction of this name, refuses it.
    Refused(Name),
}

pub(crate) fn is_same(a: Name, b: Name) -> bool
    ensures { result ≡ name_eq a b }
{
    a.run == b.run && a.id == b.id
}

fn is_own(view: &View<'_>, update: &Update) -> bool
    ensures { result ≡ is_own view.now update.now }
{
    let name = update.version.window.name;
    view.own != 0 && name.run == view.run && name.id == view.own
}

fn is_admitted(read: u64, stamp: u64) -> bool
    ensures { result ≡ reads_at read stamp }
{
    read == 0 || stamp <= read
}

// Whether a read ends at this update.
pub(crate) fn decides(view: &View<'_>, update: &Update) -> bool
    requires { IsSight (sight_of view.now) }
    ensures { result ≡ decides view.now update.now }
{
    if is_own(view, update) {
        return true;
    }
    let window = update.version.window;
    let stamp = if update.prepared == 0 {
        window.commit
    } else {
        update.prepared
    };
    is_admitted(view.read, stamp) && is_seen(view, window.name)
}

// Whether a write may follow this update: its own, or one that is not marked, seen and admitted.
fn may_follow(view: &View<'_>, update: &Update) -> bool
    requires { IsSight (sight_of view.now) }
    ensures { result ≡ may_follow_by view.now update.now }
{
    if is_own(view, update) {
        return true;
    }
    let window = update.version.window;
    update.prepared == 0 && is_seen(view, window.name) && is_admitted(view.read, window.commit)
}

/// How an update judges a write over it: a cell, where the chain of its key is empty.
pub fn judge_update(view: &View<'_>, update: &Update) -> Judgement
    requires { IsSight (sight_of view.now) }
    ensures { result ≡ judgement_by view.now update.now }
{
    if may_follow(view, update) {
        Judgement::Allowed
    } else {
        Judgement::Refused(update.version.window.name)
    }
}

fn content(change: &Change) -> Read<'_>
    ensures { reply_in result ≡ reply_of change.now }
{
    match change {
        Change::Put(value) => Read::Found(value),
        Change::Remove => Read::Removed,
    }
}

// What a read that ends at this update answers.
pub(crate) fn answer<'a>(view: &View<'_>, update: &'a Update) -> Read<'a>
    ensures { reply_in result ≡ reply_by view.now update.now }
{
    if update.prepared == 0 || is_own(view, update) {
        content(&update.version.change)
    } else {
        Read::Conflict(update.version.window.name.id)
    }
}

// Whether what is older than this update is out of reach.
pub(crate) fn covers(update: &Update, pin: u64, floor: Name) -> bool
    ensures { result ≡ covers_at pin floor update.now }
{
    let window = update.version.window;
    update.prepared == 0 && window.durable <= pin && window.name.is_before(floor)
}

// Whether a rollback to this stable stamp keeps the update.
pub(crate) fn is_stable(update: &Update, stable: u64) -> bool
    ensures { result ≡ is_stable stable update.now.version }
{
    stable == 0 || update.version.window.durable <= stable
}
