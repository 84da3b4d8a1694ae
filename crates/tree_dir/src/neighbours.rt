// The leaf under a key, the last leaf of a table, and the leaves beside a leaf.

ghost use Rattle.std.specs.Prelude.{◌≡◌, ◌<◌, length, option_map, slice_get};
ghost use Rattle.ordered_groups.specs.Groups.{entries};
ghost use Rattle.tree_dir.specs.Leaves.{leaf_ahead, leaf_behind, leaf_last, leaf_under};
ghost use Rattle.tree_dir.specs.Order.{IsWay};
ghost use Rattle.tree_dir.specs.Slots.{if_of_table, leaf_at, leaves_at};
ghost use Rattle.tree_dir.specs.Sound.{AreHome};

use crate::leaf::Leaf;
use crate::places::{gap_above, gap_behind, place_in, table_in};
use ordered_groups::OrderedGroups;

// The id of the leaf in a slot, where it is of this table.
fn id_in(slots: &[Leaf], slot: u32, table: u32) -> Option<u64>
    ensures { result ≡ option_map (λ l. l.id) (if_of_table table (slice_get slots.now slot)) }
{
    let there = slots.get(slot as usize)?;
    if there.table == table {
        Some(there.id)
    } else {
        None
    }
}

pub(crate) fn id_under(
    slots: &[Leaf],
    order: &OrderedGroups<u32>,
    table: u32,
    key: &[u8],
) -> Option<u64>
    requires { IsWay slots.now (entries order.now) }
    ensures { result ≡ option_map (λ l. l.id) (leaf_under table key.now (leaves_at slots.now (entries order.now))) }
{
    let gap = gap_above(slots, order, table, key);
    let place = order.before_gap(gap)?;
    id_in(slots, order.get(place), table)
}

pub(crate) fn id_last(slots: &[Leaf], order: &OrderedGroups<u32>, table: u32) -> Option<u64>
    requires { IsWay slots.now (entries order.now) }
    ensures { result ≡ option_map (λ l. l.id) (leaf_last table (leaves_at slots.now (entries order.now))) }
{
    let gap = gap_behind(slots, order, table);
    let place = order.before_gap(gap)?;
    id_in(slots, order.get(place), table)
}

pub(crate) fn id_behind(slots: &[Leaf], order: &OrderedGroups<u32>, slot: usize) -> Option<u64>
    requires way { IsWay slots.now (entries order.now) }
    requires home { AreHome slots.now }
    requires within { slot < length slots.now }
    ensures { result ≡ option_map (λ l. l.id) (leaf_behind (leaf_at slots.now slot).id (leaves_at slots.now (entries order.now))) }
{
    let table = table_in(slots, slot);
    let place = place_in(slots, order, slot)?;
    let next = order.next(place)?;
    id_in(slots, order.get(next), table)
}

pub(crate) fn id_ahead(slots: &[Leaf], order: &OrderedGroups<u32>, slot: usize) -> Option<u64>
    requires way { IsWay slots.now (entries order.now) }
    requires home { AreHome slots.now }
    requires within { slot < length slots.now }
    ensures { result ≡ option_map (λ l. l.id) (leaf_ahead (leaf_at slots.now slot).id (leaves_at slots.now (entries order.now))) }
{
    let table = table_in(slots, slot);
    let place = place_in(slots, order, slot)?;
    let before = order.prev(place)?;
    id_in(slots, order.get(before), table)
}
