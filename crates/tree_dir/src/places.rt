// Where leaves stand in the order of the slots.

ghost use Rattle.std.specs.Prelude.{◌≡◌, ◌<◌, ◌∷◌, length, slice_get, slice_index, IsSomeAnd, MatchResult};
ghost use Rattle.std.specs.Cmp.Lexicographic.{slice_cmp};
ghost use Rattle.std.specs.Ordering.{nat_cmp};
ghost use Rattle.ordered_groups.specs.Groups.{entries};
ghost use Rattle.ordered_groups.specs.Places.{rank, Finds, IsGap, IsPlace, PartsAt};
ghost use Rattle.tree_dir.specs.Leaves.{place_key};
ghost use Rattle.tree_dir.specs.Slots.{leaf_at};
ghost use Rattle.tree_dir.specs.Order.{not_above, rank_order, table_order, IsWay};

use crate::leaf::Leaf;
use ordered_groups::{OrderedGroups, Place};
use std::cmp::Ordering;

fn order(there: &Leaf, table: u32, key: &[u8]) -> Ordering
    ensures { result ≡ slice_cmp nat_cmp (place_key there.now) (table ∷ key.now) }
{
    match there.table.cmp(&table) {
        Ordering::Equal => byte_order::order(there.entry.key.as_bytes(), key),
        unequal => unequal,
    }
}

fn compare(slots: &[Leaf], slot: u32, table: u32, key: &[u8]) -> Ordering
    ensures { result ≡ rank_order slots.now (table ∷ key.now) slot }
{
    match slots.get(slot as usize) {
        None => Ordering::Less,
        Some(there) => order(there, table, key),
    }
}

fn not_above(order: Ordering) -> Ordering
    ensures { result ≡ not_above order }
{
    match order {
        Ordering::Less => Ordering::Less,
        Ordering::Equal => Ordering::Less,
        Ordering::Greater => Ordering::Greater,
    }
}

// Where the slot of a table and a low key is named, or would be.
pub(crate) fn place_of(
    slots: &[Leaf],
    order: &OrderedGroups<u32>,
    table: u32,
    key: &[u8],
) -> Result<Place, Place>
    ensures place { MatchResult result (IsPlace order.now) (IsGap order.now) }
    ensures found { Finds (rank_order slots.now (table ∷ key.now)) order.now result }
{
    order.find(|slot: u32| compare(slots, slot, table, key))
}

// The gap behind the slots that are not above this table and key.
pub(crate) fn gap_above(slots: &[Leaf], order: &OrderedGroups<u32>, table: u32, key: &[u8]) -> Place
    ensures gap { IsGap order.now result }
    ensures parts { PartsAt (λ i. not_above (rank_order slots.now (table ∷ key.now) i)) (entries order.now) (rank order.now result) }
{
    match order.find(|slot: u32| not_above(compare(slots, slot, table, key))) {
        Ok(place) => place,
        Err(gap) => gap,
    }
}

// An equal table counts as below.
fn compare_tables(slots: &[Leaf], slot: u32, table: u32) -> Ordering
    ensures { result ≡ table_order table (slice_get slots.now slot) }
{
    match slots.get(slot as usize) {
        None => Ordering::Less,
        Some(there) => {
            if table < there.table {
                Ordering::Greater
            } else {
                Ordering::Less
            }
        }
    }
}

// The gap behind the slots whose tables are not above this one.
pub(crate) fn gap_behind(slots: &[Leaf], order: &OrderedGroups<u32>, table: u32) -> Place
    ensures gap { IsGap order.now result }
    ensures parts { PartsAt (λ i. table_order table (slice_get slots.now i)) (entries order.now) (rank order.now result) }
{
    match order.find(|slot: u32| compare_tables(slots, slot, table)) {
        Ok(place) => place,
        Err(gap) => gap,
    }
}

// Where a slot is named.
pub(crate) fn place_in(slots: &[Leaf], order: &OrderedGroups<u32>, slot: usize) -> Option<Place>
    requires way { IsWay slots.now (entries order.now) }
    requires within { slot < length slots.now }
    ensures { IsSomeAnd result (λ p. IsPlace order.now p × (slice_index (entries order.now) (rank order.now p) ≡ slot)) }
{
    let table = table_in(slots, slot);
    match place_of(slots, order, table, low_in(slots, slot)) {
        Ok(place) => Some(place),
        Err(_) => None,
    }
}

fn low_in(slots: &[Leaf], slot: usize) -> &[u8]
    requires { slot < length slots.now }
    ensures { result.now ≡ (leaf_at slots.now slot).entry.key }
{
    let there = &slots[slot];
    there.entry.key.as_bytes()
}

pub(crate) fn table_in(slots: &[Leaf], slot: usize) -> u32
    requires { slot < length slots.now }
    ensures { result ≡ (leaf_at slots.now slot).table }
{
    slots[slot].table
}
