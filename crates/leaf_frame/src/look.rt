//! How a view looks at a row of a page.

ghost use Rattle.std.specs.Prelude.{◌≡◌, ◌&&◌, Some};
ghost use Rattle.kv_model.specs.History.{reads_at};
ghost use Rattle.snapshot.specs.Sight.{IsSight, is_seen, sight_of};
ghost use Rattle.update_chain.specs.Updates.{unmarked_update};
ghost use Rattle.update_chain.specs.Writing.{judgement_by};
ghost use Rattle.leaf_frame.specs.Looks.{is_own_name, reply_by_row, reply_in, version_seen};

use row_page::{Cell, CellChange};
use snapshot::is_seen;
use stamp::{Name, View, Window};
use update_chain::Judgement;

/// What a read of a key answers. The value is lent by the leaf.
#[derive(Clone, Copy)]
pub enum FrameRead<'a> {
    /// The key has this value.
    Found(&'a [u8]),
    /// The key is absent.
    Removed,
    /// Another transaction, of this id, has prepared an update of the key that may be visible.
    Conflict(u64),
    /// The leaf holds nothing of the key that is admitted: older versions may stand elsewhere.
    Older,
}

fn reads_at(read: u64, commit: u64) -> bool
    ensures { result ≡ reads_at read commit }
{
    read == 0 || commit <= read
}

// Whether the view's snapshot sees a version, and its read stamp admits it.
fn admits(view: &View<'_>, window: &Window) -> bool
    requires { IsSight (sight_of view.now) }
    ensures { result ≡ is_seen (sight_of view.now) window.now.name && reads_at view.now.read window.now.commit }
{
    reads_at(view.read, window.commit) && is_seen(view, window.name)
}

// What a read answers by the row of its key.
pub(crate) fn read_row<'a>(cell: Cell<'a>, view: &View<'_>) -> FrameRead<'a>
    requires { IsSight (sight_of view.now) }
    ensures { reply_in result ≡ reply_by_row view.now (Some (version_seen cell.entry)) }
{
    if !admits(view, &cell.window) {
        return FrameRead::Older;
    }
    match cell.change {
        CellChange::Put(value) => FrameRead::Found(value),
        CellChange::Remove => FrameRead::Removed,
    }
}

fn is_own(view: &View<'_>, name: Name) -> bool
    ensures { result ≡ is_own_name view.now name }
{
    view.own != 0 && name.run == view.run && name.id == view.own
}

/// Whether a write over a row is allowed: by the transaction that wrote it, or where the view's
/// snapshot sees it and the read stamp admits it. Takes no memory. `O(log n)` in the names that the
/// snapshot leaves out.
pub fn judge_row(cell: &Cell<'_>, view: &View<'_>) -> Judgement
    requires { IsSight (sight_of view.now) }
    ensures { result ≡ judgement_by view.now (unmarked_update (version_seen cell.now)) }
{
    let name = cell.window.name;
    if is_own(view, name) || admits(view, &cell.window) {
        Judgement::Allowed
    } else {
        Judgement::Refused(name)
    }
}
