// The leaves that a transaction wrote, one by one.

ghost use Rattle.std.specs.Prelude.{◌≡◌};
ghost use Rattle.leaf_chains.specs.Slots.{slot_changed};
ghost use Rattle.call_steps.specs.Leaves.{leaf_changed, leaf_prev, edited};
ghost use Rattle.call_steps.specs.Written.{slot_at, leaf_start};

use crate::edit::Edit;
use crate::words::frame_at;
use crate::written::WrittenKey;
use leaf_frame::LeafFrame;
use stamp::Name;

// The slot of the last of the first `left` keys.
fn slot_at(keys: &[WrittenKey], left: usize) -> u32
    ensures { result ≡ slot_at keys.now left }
{
    if left == 0 {
        return 0;
    }
    match keys.get(left - 1) {
        None => 0,
        Some(key) => key.slot,
    }
}

/// Where the keys of a frame begin that end the first `left`. `O(k)` in these keys.
pub(crate) fn leaf_start(keys: &[WrittenKey], frame: u32, left: usize) -> usize
    ensures { result ≡ leaf_start keys.now frame left }
{
    let mut at = left;
    while at > 0 {
        if frame_at(keys, at) != frame {
            return at;
        }
        at -= 1;
    }
    0
}

/// Edits the chain of each key of a frame among those that end the first `left`. Takes no memory.
/// `O(k)` in these keys.
#[inline(always)]
pub(crate) fn edit_leaf(
    leaf: &mut LeafFrame,
    keys: &[WrittenKey],
    frame: u32,
    left: usize,
    name: Name,
    edit: Edit,
)
    ensures { leaf.new ≡ record leaf.old { chains = leaf_changed (edited name edit) keys.now frame left leaf.old.chains } }
{
    let mut at = left;
    while at > 0 {
        if frame_at(keys, at) != frame {
            return;
        }
        edit_slot(leaf, slot_at(keys, at), name, edit);
        at -= 1;
    }
}

fn edit_slot(leaf: &mut LeafFrame, slot: u32, name: Name, edit: Edit)
    ensures { leaf.new ≡ record leaf.old { chains = slot_changed slot (edited name edit) leaf.old.chains } }
{
    match edit {
        Edit::Mark(stamp) => leaf.mark_prepared(slot, name, stamp),
        Edit::Stamp(commit, durable) => leaf.stamp(slot, name, commit, durable),
        Edit::Undo => leaf.undo(slot, name),
    }
}

/// The greatest durable stamp below one of the keys of a frame among those that end the first
/// `left`, or the one from before. `O(k)` in these keys, and `O(log n)` in the rows of the page for
/// each that has one update.
pub(crate) fn leaf_prev(
    leaf: &LeafFrame,
    keys: &[WrittenKey],
    frame: u32,
    left: usize,
    prev: u64,
) -> u64
    ensures { result ≡ leaf_prev keys.now frame left leaf.now prev }
{
    let mut at = left;
    let mut most = prev;
    while at > 0 {
        if frame_at(keys, at) != frame {
            return most;
        }
        most = most.max(leaf.durable_below(slot_at(keys, at)));
        at -= 1;
    }
    most
}
