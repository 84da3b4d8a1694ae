// What may take the place of a leaf that leaves its frame.
ghost use Rattle.std.specs.Prelude.{◌≡◌, ◌≤◌, ◌++◌, List, Option, None, Some, false, option_map, IfOk, IfSome, IsTrue};
ghost use Rattle.std.specs.Option.{option_to_list};
ghost use Rattle.stored.specs.TableTree.{Climbs, Entry as StoredEntry, first_key};
ghost use Rattle.tree_dir.specs.Leaves.{leaf_behind};
ghost use Rattle.ckpt_step.specs.Giving.{AreDurableAt, MayStand, MayTakeOver};
ghost use Rattle.ckpt_step.specs.Rooms.{known_in};

use crate::clean::part_of;
use crate::leaves::{copy_of, is_above};
use crate::parts::Parts;
use failure::NoMemory;
use inner_page::Entry;
use item::Item;
use std::alloc::Global;
use tree_dir::{Dir, Leaf};

/// A copy of the entries that the last completed checkpoint has of a leaf, where these may take its
/// place: there are some, the first begins at the leaf's low key, their keys ascend and are below the
/// next leaf's, and what they lead to is durable at this oldest stamp. The error is want of memory.
/// `O(n)` in the entries, one allocation for each, and `O(log n)` in the leaves.
pub fn entries_in_place(
    alloc: Global,
    parts: &Parts,
    leaves: &Dir,
    leaf: u64,
    oldest: u64,
) -> Result<Option<Vec<Entry>>, NoMemory>
    ensures some { IfOk result (λ o. IfSome o (λ es. MayTakeOver leaves.now (known_in parts.now) leaf oldest es.items)) }
    ensures none { IfOk result (λ o. o ≡ None → (es : List StoredEntry) → MayTakeOver leaves.now (known_in parts.now) leaf oldest es → ⊥) }
{
    let Some(found) = leaves.leaf(leaf) else {
        return Ok(None);
    };
    let Some(entries) = part_of(parts, found) else {
        return Ok(None);
    };
    if !may_stand(entries, low_of(found), behind(leaves, leaf), oldest) {
        return Ok(None);
    }
    Ok(Some(copy_of(alloc, entries)?))
}

fn low_of(leaf: &Leaf) -> &Item
    ensures { result.now ≡ leaf.now.entry.key }
{
    &leaf.entry.key
}

// The entry of the leaf behind the one of this id in its table.
pub(crate) fn behind(leaves: &Dir, leaf: u64) -> Option<&Entry>
    ensures { option_map (λ e. e.now) result ≡ option_map (λ l. l.entry) (leaf_behind leaf leaves.now.leaves) }
{
    leaves.stands();
    let next = leaves.next_leaf(leaf)?;
    leaves.entry(next)
}

// Whether entries may stand where a leaf stood, from its low key on, with this entry behind it.
fn may_stand(entries: &[Entry], low: &Item, next: Option<&Entry>, oldest: u64) -> bool
    ensures yes { IsTrue result → MayStand entries.now low.now (option_map (λ e. e.now) next.entry) oldest }
    ensures no { result ≡ false → MayStand entries.now low.now (option_map (λ e. e.now) next.entry) oldest → ⊥ }
{
    begin_at(entries, low) && ascend(entries, next) && are_durable(entries, oldest)
}

// Whether there are some, and the first has this key.
fn begin_at(entries: &[Entry], low: &Item) -> bool
    ensures yes { IsTrue result → first_key entries.now ≡ Some low.now }
    ensures no { result ≡ false → first_key entries.now ≡ Some low.now → ⊥ }
{
    match entries.first() {
        None => false,
        Some(first) => first.key.as_bytes() == low.as_bytes(),
    }
}

// Whether the keys ascend, with this entry behind them.
fn ascend(entries: &[Entry], next: Option<&Entry>) -> bool
    ensures yes { IsTrue result → Climbs (entries.now ++ option_to_list (option_map (λ e. e.now) next.entry)) }
    ensures no { result ≡ false → Climbs (entries.now ++ option_to_list (option_map (λ e. e.now) next.entry)) → ⊥ }
{
    let mut last: Option<&Entry> = None;
    for entry in entries {
        if !is_above(entry, last) {
            return false;
        }
        last = Some(entry);
    }
    match next {
        None => true,
        Some(next) => is_above(next, last),
    }
}

// Whether what they lead to is durable at this stamp.
fn are_durable(entries: &[Entry], oldest: u64) -> bool
    ensures yes { IsTrue result → AreDurableAt oldest entries.now }
    ensures no { result ≡ false → AreDurableAt oldest entries.now → ⊥ }
{
    for entry in entries {
        if entry.link.durable > oldest {
            return false;
        }
    }
    true
}
