//! Rows of a page, where there is one.

ghost use Rattle.std.specs.Prelude.{◌≡◌, ◌≤◌, ℕ, suc, [], Some, IsTrue, MatchOption, MatchResult, length, option_map, slice_get};
ghost use Rattle.row_page.specs.Views.{row_seen, HasKeyAt, Splits};
ghost use Rattle.snapshot.specs.Sight.{IsSight, sight_of};
ghost use Rattle.leaf_rows.specs.Rows.{AreFit};
ghost use Rattle.reconcile.specs.Shows.{shown_at};
ghost use Rattle.update_chain.specs.FrameLaws.{durable_of};
ghost use Rattle.update_chain.specs.Writing.{judgement_to, newest_of};
ghost use Rattle.reconcile.specs.Held.{page_rows};
ghost use Rattle.leaf_frame.specs.Leaf.{rows_of};
ghost use Rattle.leaf_frame.specs.Looks.{reply_by_row, reply_in, version_seen};
ghost use Rattle.leaf_frame.specs.Near.{IsPlaceAbove, IsPlaceBelow, NoRowPast};
ghost use Rattle.leaf_frame.specs.Walks.{IsRowAt};
ghost use Rattle.leaf_frame.specs.Ways.{way_in};

use crate::look::{FrameRead, judge_row, read_row};
use crate::way::Way;
use byte_order::order;
use row_page::{Cell, Leaf};
use stamp::View;
use std::cmp::Ordering;
use update_chain::Judgement;

#[inline(always)]
pub(crate) fn page_of(page: &Option<Leaf>) -> Option<&Leaf>
    ensures { page_rows result ≡ rows_of page.now }
{
    match page {
        None => None,
        Some(leaf) => Some(leaf),
    }
}

// The row of a key, lent. `O(log rows)`.
pub(crate) fn row_with<'a>(page: Option<&'a Leaf>, key: &[u8]) -> Option<Cell<'a>>
    requires { AreFit (page_rows page) }
    ensures { option_map version_seen result ≡ shown_at key.now (page_rows page.entry) }
{
    let leaf = page?;
    match leaf.find(key) {
        Ok(i) => Some(leaf.cell(i)),
        Err(_) => None,
    }
}

// What a read answers by the row of its key.
pub(crate) fn read_page<'a>(page: Option<&'a Leaf>, key: &[u8], view: &View<'_>) -> FrameRead<'a>
    requires fit { AreFit (page_rows page) }
    requires sight { IsSight (sight_of view.now) }
    ensures { reply_in result ≡ reply_by_row view.now (shown_at key.now (page_rows page.entry)) }
{
    match row_with(page, key) {
        None => FrameRead::Older,
        Some(cell) => read_row(cell, view),
    }
}

// Whether a write of a key is allowed by its row.
pub(crate) fn judge_page(page: Option<&Leaf>, key: &[u8], view: &View<'_>) -> Judgement
    requires fit { AreFit (page_rows page) }
    requires sight { IsSight (sight_of view.now) }
    ensures { result ≡ judgement_to view.now (newest_of [] (shown_at key.now (page_rows page.entry))) }
{
    match row_with(page, key) {
        None => Judgement::Allowed,
        Some(cell) => judge_row(&cell, view),
    }
}

// The durable stamp of a key's row, 0 where it has none.
pub(crate) fn durable_on(page: Option<&Leaf>, key: &[u8]) -> u64
    requires { AreFit (page_rows page) }
    ensures { result ≡ durable_of (newest_of [] (shown_at key.now (page_rows page.entry))) }
{
    match row_with(page, key) {
        None => 0,
        Some(cell) => cell.window.durable,
    }
}

// A row, with its place among the rows.
#[derive(Clone, Copy)]
pub(crate) struct RowAt<'a> {
    pub index: usize,
    pub cell: Cell<'a>,
}

// The row of the nearest key past the bound, or of the first on the way. `O(log rows)`, and one
// comparison where the row at the hint has the key of the bound.
#[inline(always)]
pub(crate) fn near_row<'a>(
    page: Option<&'a Leaf>,
    way: Way,
    bound: Option<&[u8]>,
    hint: usize,
) -> Option<RowAt<'a>>
    requires { AreFit (page_rows page) }
    ensures { let from = option_map (λ k. k.now) bound.entry in MatchOption result (NoRowPast (way_in way) from (page_rows page.entry)) (IsRowAt (way_in way) from (page_rows page.entry)) }
{
    let leaf = page?;
    match way {
        Way::Up => row_at(leaf, place_above(leaf, bound, hint)),
        Way::Down => row_before(leaf, place_below(leaf, bound, hint)),
    }
}

// The row behind one on the way. `O(1)`.
pub(crate) fn row_behind<'a>(page: Option<&'a Leaf>, way: Way, here: RowAt<'_>) -> Option<RowAt<'a>>
    requires fit { AreFit (page_rows page) }
    requires here { slice_get (page_rows page) here.index ≡ Some (row_seen here.cell) }
    ensures { let from = Some here.entry.cell.key.now in MatchOption result (NoRowPast (way_in way) from (page_rows page.entry)) (IsRowAt (way_in way) from (page_rows page.entry)) }
{
    let leaf = page?;
    let rows = leaf.len();
    prove!(here.index < rows);
    match way {
        Way::Up => row_at(leaf, here.index + 1),
        Way::Down => row_before(leaf, here.index),
    }
}

// The row at a place; none behind the last.
#[inline(always)]
fn row_at<'a>(leaf: &'a Leaf, index: usize) -> Option<RowAt<'a>>
    ensures { MatchOption result (length leaf.now ≤ index) (λ r. (r.index ≡ index) × (slice_get leaf.now index ≡ Some (row_seen r.cell))) }
{
    if index < leaf.len() {
        Some(RowAt {
            index,
            cell: leaf.cell(index),
        })
    } else {
        None
    }
}

// The row before a place; none before the first.
#[inline(always)]
fn row_before<'a>(leaf: &'a Leaf, end: usize) -> Option<RowAt<'a>>
    requires { end ≤ length leaf.now }
    ensures { MatchOption result (end ≡ 0) (λ r. (end ≡ suc r.index) × (slice_get leaf.now r.index ≡ Some (row_seen r.cell))) }
{
    if end > 0 {
        let index = end - 1;
        Some(RowAt {
            index,
            cell: leaf.cell(index),
        })
    } else {
        None
    }
}

// How many rows, from the first on, have keys that are not above the bound.
fn place_above(leaf: &Leaf, bound: Option<&[u8]>, hint: usize) -> usize
    requires { AreFit leaf.now }
    ensures { IsPlaceAbove (option_map (λ k. k.now) bound.entry) leaf.now result }
{
    match bound {
        None => 0,
        Some(key) => match find_near(leaf, key, hint) {
            Ok(i) => {
                let rows = leaf.len();
                prove!(i < rows);
                i + 1
            }
            Err(i) => i,
        },
    }
}

// How many rows, from the first on, have keys below the bound.
fn place_below(leaf: &Leaf, bound: Option<&[u8]>, hint: usize) -> usize
    requires { AreFit leaf.now }
    ensures { IsPlaceBelow (option_map (λ k. k.now) bound.entry) leaf.now result }
{
    match bound {
        None => leaf.len(),
        Some(key) => match find_near(leaf, key, hint) {
            Ok(i) => i,
            Err(i) => i,
        },
    }
}

// The place of the key, or that of the first row above it. Looks first at the row that the hint names.
#[inline(always)]
fn find_near(leaf: &Leaf, key: &[u8], hint: usize) -> Result<usize, usize>
    ensures { MatchResult result (HasKeyAt leaf.now key.now) (Splits leaf.now key.now) }
{
    if has_key_at(leaf, key, hint) {
        return Ok(hint);
    }
    leaf.find(key)
}

// Whether there is a row with this key at this place.
#[inline(always)]
fn has_key_at(leaf: &Leaf, key: &[u8], place: usize) -> bool
    ensures { IsTrue result → HasKeyAt leaf.now key.now place }
{
    if place >= leaf.len() {
        return false;
    }
    match order(leaf.key(place), key) {
        Ordering::Equal => true,
        _ => false,
    }
}

// The place of the row that lies before the nearest one on the way: a hint for `near_row`, of which
// nothing is promised.
#[inline(always)]
pub(crate) fn hint_before(page: Option<&Leaf>, way: Way, row: Option<RowAt<'_>>) -> usize {
    match way {
        Way::Up => end_of(page, row).wrapping_sub(1),
        Way::Down => match row {
            None => 0,
            Some(row) => row.index.wrapping_add(1),
        },
    }
}

// The place of the row, or the end of the page.
#[inline(always)]
fn end_of(page: Option<&Leaf>, row: Option<RowAt<'_>>) -> usize {
    match row {
        Some(row) => row.index,
        None => match page {
            None => 0,
            Some(leaf) => leaf.len(),
        },
    }
}
