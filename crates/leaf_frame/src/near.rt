//! The next key of a leaf, from its chains and its page.

ghost use Rattle.std.specs.Prelude.{◌≡◌, ◌↔◌, [], IsTrue, MatchOption, None, Some, option_map};
ghost use Rattle.snapshot.specs.Sight.{IsSight, sight_of};
ghost use Rattle.update_chain.specs.Updates.{read_of};
ghost use Rattle.leaf_chains.specs.Nearest.{IsNearest, NonePast as NoSlot};
ghost use Rattle.leaf_frame.specs.Looks.{read_held, reply_by_row, reply_in, version_seen};
ghost use Rattle.leaf_frame.specs.Near.{IsNearSlot, IsOfBoth, IsOfRow, IsOfSlot, NoSlotPast, chain_in, towards};
ghost use Rattle.leaf_frame.specs.Next.{PassedBy, StaysBy, held_of};
ghost use Rattle.leaf_frame.specs.Walks.{IsFirst};
ghost use Rattle.leaf_frame.specs.Ways.{way_in};

use crate::look::{FrameRead, read_row};
use crate::page::RowAt;
use crate::way::Way;
use byte_order::order;
use leaf_chains::{KeyChain, LeafChains};
use row_page::Cell;
use stamp::View;
use std::cmp::Ordering;
use update_chain::Read;

/// A key that a leaf holds, and what a read of it answers.
#[derive(Clone, Copy)]
pub struct HeldRow<'a> {
    /// The key.
    pub key: &'a [u8],
    /// What a read of it answers.
    pub read: FrameRead<'a>,
}

// A key, with its slot and its row, where it has them.
#[derive(Drop)]
pub(crate) struct Near<'a> {
    pub key: &'a [u8],
    pub there: Option<&'a KeyChain>,
    pub cell: Option<Cell<'a>>,
}

// What comes first on a way.
pub(crate) enum First<'a> {
    Slot(&'a KeyChain),
    Row(RowAt<'a>),
    // Of one key.
    Both(&'a KeyChain, RowAt<'a>),
}

// What is given of a key, unless it is passed.
#[inline(always)]
pub(crate) fn row_of<'a>(near: Near<'a>, view: &View<'_>) -> Option<HeldRow<'a>>
    requires { IsSight (sight_of view.now) }
    ensures { let chain = chain_in near.entry.there in let row = option_map version_seen near.entry.cell in MatchOption result (PassedBy view.now chain row) (StaysBy view.now near.entry.key.now chain row) }
{
    let key = near.key;
    if is_bare(&near) {
        return None;
    }
    match read_near(near, view) {
        FrameRead::Removed => None,
        read => Some(HeldRow { key, read }),
    }
}

// Whether neither chain nor row has anything of the key.
#[inline(always)]
fn is_bare(near: &Near<'_>) -> bool
    ensures { IsTrue result ↔ (held_of (chain_in near.now.there) (option_map version_seen near.now.cell) ≡ []) }
{
    near.cell.is_none() && is_empty(near.there)
}

#[inline(always)]
fn is_empty(there: Option<&KeyChain>) -> bool
    ensures { IsTrue result ↔ (chain_in there.entry ≡ []) }
{
    match there {
        None => true,
        Some(there) => there.chain.is_empty(),
    }
}

// What a read of the key answers.
#[inline(always)]
fn read_near<'a>(near: Near<'a>, view: &View<'_>) -> FrameRead<'a>
    requires { IsSight (sight_of view.now) }
    ensures { reply_in result ≡ read_held view.now (chain_in near.entry.there) (option_map version_seen near.entry.cell) }
{
    match read_chain(near.there, view) {
        FrameRead::Older => read_cell(near.cell, view),
        read => read,
    }
}

// What a read answers by the chain of a slot.
#[inline(always)]
fn read_chain<'a>(there: Option<&'a KeyChain>, view: &View<'_>) -> FrameRead<'a>
    requires { IsSight (sight_of view.now) }
    ensures { reply_in result ≡ read_of view.now (chain_in there.entry) }
{
    match there {
        None => FrameRead::Older,
        Some(there) => match there.chain.read(view) {
            Read::Found(value) => FrameRead::Found(value.as_bytes()),
            Read::Removed => FrameRead::Removed,
            Read::Conflict(id) => FrameRead::Conflict(id),
            Read::Older => FrameRead::Older,
        },
    }
}

// What a read answers by a row, where there is one.
#[inline(always)]
fn read_cell<'a>(cell: Option<Cell<'a>>, view: &View<'_>) -> FrameRead<'a>
    requires { IsSight (sight_of view.now) }
    ensures { reply_in result ≡ reply_by_row view.now (option_map version_seen cell.entry) }
{
    match cell {
        None => FrameRead::Older,
        Some(cell) => read_row(cell, view),
    }
}

#[inline(always)]
pub(crate) fn of_row<'a>(cell: Cell<'a>) -> Near<'a>
    ensures { IsOfRow result cell.entry }
{
    Near {
        key: cell.key,
        there: None,
        cell: Some(cell),
    }
}

#[inline(always)]
pub(crate) fn of_slot<'a>(there: &'a KeyChain) -> Near<'a>
    ensures { IsOfSlot result there.now }
{
    Near {
        key: there.key.as_bytes(),
        there: Some(there),
        cell: None,
    }
}

#[inline(always)]
pub(crate) fn of_both<'a>(there: &'a KeyChain, cell: Cell<'a>) -> Near<'a>
    requires { there.now.key ≡ cell.key.now }
    ensures { IsOfBoth result there.now cell.entry }
{
    Near {
        key: cell.key,
        there: Some(there),
        cell: Some(cell),
    }
}

// The one that comes first on the way, or both where they are of one key.
#[inline(always)]
pub(crate) fn first_of<'a>(
    there: Option<&'a KeyChain>,
    row: Option<RowAt<'a>>,
    way: Way,
) -> Option<First<'a>>
    ensures { MatchOption result ((there.entry ≡ None) × (row.entry ≡ None)) (IsFirst (way_in way) there.entry row.entry) }
{
    match there {
        None => match row {
            None => None,
            Some(row) => Some(First::Row(row)),
        },
        Some(there) => match row {
            None => Some(First::Slot(there)),
            Some(row) => Some(nearer(way, there, row)),
        },
    }
}

fn nearer<'a>(way: Way, there: &'a KeyChain, row: RowAt<'a>) -> First<'a>
    ensures { IsFirst (way_in way) (Some there.entry) (Some row.entry) result }
{
    match towards(way, order(there.key.as_bytes(), row.cell.key)) {
        Ordering::Less => First::Slot(there),
        Ordering::Greater => First::Row(row),
        Ordering::Equal => First::Both(there, row),
    }
}

// How keys that compare so compare on the way.
fn towards(way: Way, order: Ordering) -> Ordering
    ensures { result ≡ towards (way_in way) order }
{
    match way {
        Way::Up => order,
        Way::Down => order.reverse(),
    }
}

// The slot of the nearest key past the bound, or of the first on the way. `O(log n)`.
#[inline(never)]
pub(crate) fn near_slot<'a>(
    chains: &'a LeafChains,
    way: Way,
    from: Option<&[u8]>,
) -> Option<&'a KeyChain>
    ensures { let start = option_map (λ k. k.now) from.entry in MatchOption result (NoSlotPast (way_in way) start chains.now) (λ s. IsNearSlot (way_in way) start chains.now s.now) }
{
    let slot = next_slot(chains, way, from)?;
    chains.slot(slot)
}

fn next_slot(chains: &LeafChains, way: Way, from: Option<&[u8]>) -> Option<u32>
    ensures { let start = option_map (λ k. k.now) from.entry in MatchOption result (NoSlot (way_in way) start chains.now) (λ i. IsNearest (way_in way) start chains.now i) }
{
    match way {
        Way::Up => chains.next_above(from),
        Way::Down => chains.next_below(from),
    }
}
