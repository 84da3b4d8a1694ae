// Where keys stand in the order of a leaf's slots.

ghost use Rattle.std.specs.Prelude.{◌≡◌, IfSome, MatchOption, MatchResult, option_map};
ghost use Rattle.kv_model.specs.Rows.{Up, Down};
ghost use Rattle.ordered_groups.specs.Groups.{entries};
ghost use Rattle.ordered_groups.specs.Places.{rank, Finds, IsGap, IsPlace, PartsAt};
ghost use Rattle.leaf_chains.specs.Heads.{AreHeads, IsHead};
ghost use Rattle.leaf_chains.specs.Nearest.{IsWayUp, NextAbove, NextBelow, NonePast};
ghost use Rattle.leaf_chains.specs.Order.{IsIndex, key_order, not_above, not_below};
ghost use Rattle.leaf_chains.specs.Slots.{key_at, slot_of};

use crate::heads::Heads;
use crate::slot::KeyChain;
use ordered_groups::{OrderedGroups, Place, Walk};
use std::cmp::Ordering;

// The key in a slot, the empty one where there is no such slot.
#[inline(always)]
pub(crate) fn key_in(slots: &[KeyChain], slot: u32) -> &[u8]
    ensures { result.now ≡ key_at slots.now slot }
{
    match slots.get(slot as usize) {
        None => &[],
        Some(there) => there.key.as_bytes(),
    }
}

#[inline(always)]
fn compare(slots: &[KeyChain], slot: u32, key: &[u8]) -> Ordering
    ensures { result ≡ key_order slots.now key.now slot }
{
    byte_order::order(key_in(slots, slot), key)
}

// Not inlined, so that a comparison of heads alone is.
#[inline(never)]
fn compare_whole(slots: &[KeyChain], slot: u32, key: &[u8]) -> Ordering
    ensures { result ≡ key_order slots.now key.now slot }
{
    compare(slots, slot, key)
}

// Compares by heads, where they differ.
#[inline(always)]
fn compare_heads(slots: &[KeyChain], heads: &Heads, slot: u32, key: &[u8], head: u64) -> Ordering
    requires kept { AreHeads heads.now.front.items heads.now.words.items slots.now }
    requires head { IsHead heads.now.front.items key.now head }
    ensures { result ≡ key_order slots.now key.now slot }
{
    match heads.at(slot) {
        None => compare_whole(slots, slot, key),
        Some(kept) => {
            if kept < head {
                return Ordering::Less;
            }
            if head < kept {
                return Ordering::Greater;
            }
            compare_whole(slots, slot, key)
        }
    }
}

// Where the slot of a key is named, or would be.
#[inline(always)]
fn place_of(
    slots: &[KeyChain],
    order: &OrderedGroups<u32>,
    heads: &Heads,
    key: &[u8],
) -> Result<Place, Place>
    requires { AreHeads heads.now.front.items heads.now.words.items slots.now }
    ensures place { MatchResult result (IsPlace order.now) (IsGap order.now) }
    ensures found { Finds (key_order slots.now key.now) order.now result }
{
    match heads.of(key) {
        None => order.find(|slot: u32| compare(slots, slot, key)),
        Some(head) => order.find(
            |slot: u32|
                requires { AreHeads heads.now.front.items heads.now.words.items slots.now × IsHead heads.now.front.items key.now head }
            { compare_heads(slots, heads, slot, key, head) },
        ),
    }
}

// As `place_of`, but asks for the greatest key first.
pub(crate) fn place_from_last(
    slots: &[KeyChain],
    order: &OrderedGroups<u32>,
    heads: &Heads,
    key: &[u8],
    head: Option<u64>,
) -> Result<Place, Place>
    requires kept { AreHeads heads.now.front.items heads.now.words.items slots.now }
    requires head { IfSome head (IsHead heads.now.front.items key.now) }
    ensures place { MatchResult result (IsPlace order.now) (IsGap order.now) }
    ensures found { Finds (key_order slots.now key.now) order.now result }
{
    match head {
        None => order.find_from_last(|slot: u32| compare(slots, slot, key)),
        Some(head) => {
            order.find_from_last(
                |slot: u32|
                    requires { AreHeads heads.now.front.items heads.now.words.items slots.now × IsHead heads.now.front.items key.now head }
                { compare_heads(slots, heads, slot, key, head) },
            )
        }
    }
}

// The slot of a key.
pub(crate) fn slot_with(
    slots: &[KeyChain],
    order: &OrderedGroups<u32>,
    heads: &Heads,
    key: &[u8],
) -> Option<u32>
    requires index { IsIndex slots.now (entries order.now) }
    requires heads { AreHeads heads.now.front.items heads.now.words.items slots.now }
    ensures { result ≡ slot_of key.now slots.now }
{
    match place_of(slots, order, heads, key) {
        Ok(place) => Some(order.get(place)),
        Err(_) => None,
    }
}

// As `place_of`, but looks first where the hint says.
#[inline(always)]
fn place_near(
    slots: &[KeyChain],
    order: &OrderedGroups<u32>,
    heads: &Heads,
    key: &[u8],
    hint: Place,
) -> Result<Place, Place>
    requires { AreHeads heads.now.front.items heads.now.words.items slots.now }
    ensures place { MatchResult result (IsPlace order.now) (IsGap order.now) }
    ensures found { Finds (key_order slots.now key.now) order.now result }
{
    match order.look_near(hint, |slot: u32| compare(slots, slot, key)) {
        Some(found) => found,
        None => place_afar(slots, order, heads, key),
    }
}

// As `place_of`. Not inlined, so that a look at the hint alone is.
#[inline(never)]
fn place_afar(
    slots: &[KeyChain],
    order: &OrderedGroups<u32>,
    heads: &Heads,
    key: &[u8],
) -> Result<Place, Place>
    requires { AreHeads heads.now.front.items heads.now.words.items slots.now }
    ensures place { MatchResult result (IsPlace order.now) (IsGap order.now) }
    ensures found { Finds (key_order slots.now key.now) order.now result }
{
    place_of(slots, order, heads, key)
}

// The gap behind the slots whose keys are not above this one.
#[inline(always)]
fn gap_above(
    slots: &[KeyChain],
    order: &OrderedGroups<u32>,
    heads: &Heads,
    key: &[u8],
    hint: Place,
) -> Place
    requires index { IsIndex slots.now (entries order.now) }
    requires heads { AreHeads heads.now.front.items heads.now.words.items slots.now }
    ensures gap { IsGap order.now result }
    ensures parts { PartsAt (λ i. not_above (key_order slots.now key.now i)) (entries order.now) (rank order.now result) }
{
    match place_near(slots, order, heads, key, hint) {
        Ok(place) => order.gap_behind(place),
        Err(gap) => gap,
    }
}

// The gap behind the slots whose keys are below this one.
fn gap_below(slots: &[KeyChain], order: &OrderedGroups<u32>, heads: &Heads, key: &[u8]) -> Place
    requires index { IsIndex slots.now (entries order.now) }
    requires heads { AreHeads heads.now.front.items heads.now.words.items slots.now }
    ensures gap { IsGap order.now result }
    ensures parts { PartsAt (λ i. not_below (key_order slots.now key.now i)) (entries order.now) (rank order.now result) }
{
    match place_of(slots, order, heads, key) {
        Ok(place) => place,
        Err(gap) => gap,
    }
}

// The slot of the least key above the bound, or of all.
pub(crate) fn slot_above(
    slots: &[KeyChain],
    order: &OrderedGroups<u32>,
    heads: &Heads,
    bound: Option<&[u8]>,
) -> Option<u32>
    requires index { IsIndex slots.now (entries order.now) }
    requires heads { AreHeads heads.now.front.items heads.now.words.items slots.now }
    ensures { let from = option_map (λ k. k.now) bound.entry in MatchOption result (NonePast Up from slots.now) (λ i. NextAbove from slots.now i) }
{
    match bound {
        None => Some(order.get(order.first()?)),
        Some(key) => {
            let gap = gap_above(slots, order, heads, key, Place::nowhere());
            Some(order.get(order.behind_gap(gap)?))
        }
    }
}

// Where the first entry lies, or would.
fn start_of(order: &OrderedGroups<u32>) -> Place
    ensures gap { IsGap order.now result }
    ensures start { rank order.now result ≡ 0 }
{
    match order.first() {
        Some(place) => place,
        None => order.end(),
    }
}

// The slots in the order of their keys, from the least key above the bound on, or all. The hint says
// where the bound may stand.
#[inline(always)]
pub(crate) fn walk_above<'a>(
    slots: &[KeyChain],
    order: &'a OrderedGroups<u32>,
    heads: &Heads,
    bound: Option<&[u8]>,
    hint: Place,
) -> Walk<'a, u32>
    requires index { IsIndex slots.now (entries order.now) }
    requires heads { AreHeads heads.now.front.items heads.now.words.items slots.now }
    ensures { IsWayUp (option_map (λ k. k.now) bound.entry) slots.now result }
{
    match bound {
        None => order.walk(start_of(order)),
        Some(key) => order.walk(gap_above(slots, order, heads, key, hint)),
    }
}

// The slot of the greatest key below the bound, or of all.
pub(crate) fn slot_below(
    slots: &[KeyChain],
    order: &OrderedGroups<u32>,
    heads: &Heads,
    bound: Option<&[u8]>,
) -> Option<u32>
    requires index { IsIndex slots.now (entries order.now) }
    requires heads { AreHeads heads.now.front.items heads.now.words.items slots.now }
    ensures { let from = option_map (λ k. k.now) bound.entry in MatchOption result (NonePast Down from slots.now) (λ i. NextBelow from slots.now i) }
{
    match bound {
        None => Some(order.get(order.last()?)),
        Some(key) => {
            let gap = gap_below(slots, order, heads, key);
            Some(order.get(order.before_gap(gap)?))
        }
    }
}
