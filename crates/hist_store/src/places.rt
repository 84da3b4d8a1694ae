// Where keys stand in the order of the slots.

ghost use Rattle.std.specs.Prelude.{◌≡◌, ◌∷◌, MatchResult};
ghost use Rattle.std.specs.Cmp.Lexicographic.{slice_cmp};
ghost use Rattle.std.specs.Ordering.{nat_cmp};
ghost use Rattle.ordered_groups.specs.Groups.{entries};
ghost use Rattle.ordered_groups.specs.Places.{rank, Finds, IsGap, IsPlace};
ghost use Rattle.hist_store.specs.Order.{IsWay, rank_order, slot_key};
ghost use Rattle.hist_store.specs.Slots.{slot_of};

use crate::key_history::KeyHistory;
use ordered_groups::{OrderedGroups, Place};
use std::cmp::Ordering;

fn order(there: &KeyHistory, table: u32, key: &[u8]) -> Ordering
    ensures { result ≡ slice_cmp nat_cmp (slot_key there.now) (table ∷ key.now) }
{
    match there.table.cmp(&table) {
        Ordering::Equal => byte_order::order(there.key.as_bytes(), key),
        unequal => unequal,
    }
}

fn compare(slots: &[KeyHistory], slot: u32, table: u32, key: &[u8]) -> Ordering
    ensures { result ≡ rank_order slots.now (table ∷ key.now) slot }
{
    match slots.get(slot as usize) {
        None => Ordering::Less,
        Some(there) => order(there, table, key),
    }
}

// Where the slot of a key is named, or would be.
pub(crate) fn place_of(
    slots: &[KeyHistory],
    order: &OrderedGroups<u32>,
    table: u32,
    key: &[u8],
) -> Result<Place, Place>
    ensures place { MatchResult result (IsPlace order.now) (IsGap order.now) }
    ensures found { Finds (rank_order slots.now (table ∷ key.now)) order.now result }
{
    order.find(|slot: u32| compare(slots, slot, table, key))
}

// The slot of a key.
pub(crate) fn slot_with(
    slots: &[KeyHistory],
    order: &OrderedGroups<u32>,
    table: u32,
    key: &[u8],
) -> Option<u32>
    requires { IsWay slots.now (entries order.now) }
    ensures { result ≡ slot_of table key.now slots.now }
{
    match place_of(slots, order, table, key) {
        Ok(place) => Some(order.get(place)),
        Err(_) => None,
    }
}

// Where the first entry lies, or would.
pub(crate) fn start_of(order: &OrderedGroups<u32>) -> Place
    ensures gap { IsGap order.now result }
    ensures start { rank order.now result ≡ 0 }
{
    match order.first() {
        Some(place) => place,
        None => order.end(),
    }
}
