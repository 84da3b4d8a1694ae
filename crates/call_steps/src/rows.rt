// Rows by their order.

ghost use Rattle.std.specs.Prelude.{◌≡◌, IfOk, MatchOption, option_map};
ghost use Rattle.snapshot.specs.Sight.{IsSight, sight_of};
ghost use Rattle.leaf_frame.specs.Looks.{reply_in};
ghost use Rattle.leaf_frame.specs.Walks.{walk_on};
ghost use Rattle.wt_calls.specs.Calls.{way_in};
ghost use Rattle.call_steps.specs.HeldRows.{IsQuiet, IsRowOf};
ghost use Rattle.call_steps.specs.Looks.{GoesBehind, RowFoundBy, StepsAs};

use failure::NoMemory;
use item::Item;
use leaf_frame::{FrameRead, HeldRow, LeafFrame, LeafPlace, LeafWalk};
use stamp::View;
use std::alloc::Global;
use wt_calls::Way;

/// What a search for a row finds.
#[derive(Clone, Copy)]
pub enum RowFound<'a> {
    /// The key and the value.
    Row(&'a [u8], &'a [u8]),
    /// The transaction of this id has prepared an update of the nearest key.
    Conflict(u64),
    /// There is no row further on.
    End,
}

/// The same, copied, the key twice.
#[derive(Drop)]
pub(crate) enum Stepped {
    /// The key, the value, and the key once more.
    Row(Item, Item, Item),
    /// The transaction of this id has prepared an update of the nearest key.
    Conflict(u64),
    /// There is no row further on.
    End,
}

/// The nearest row on the way. `O(log n)` comparisons with n keys and rows, and those of `next_row`.
pub fn find_row<'a>(
    leaf: &'a LeafFrame,
    view: &View<'_>,
    way: Way,
    from: Option<&'a [u8]>,
) -> RowFound<'a>
    requires { IsSight (sight_of view.now) }
    ensures { RowFoundBy view.now (way_in way) (option_map (λ k. k.now) from.entry) leaf.now result }
{
    next_row(&mut walk_of(leaf, way, from), view)
}

/// The way over the keys of a leaf, past a bound or from its end on. `O(log n)` comparisons with n
/// keys and rows.
pub fn walk_of<'a>(leaf: &'a LeafFrame, way: Way, from: Option<&'a [u8]>) -> LeafWalk<'a>
    ensures { result ≡ walk_on (way_in way) (option_map (λ k. k.now) from.entry) leaf.now }
{
    walk_near(leaf, way, from, LeafPlace::nowhere())
}

/// As `walk_of`, but looks first where the hint says that the bound stands: `O(1)` comparisons where
/// it does, on the way down in the rows alone. Any hint is answered alike.
#[inline(always)]
pub fn walk_near<'a>(
    leaf: &'a LeafFrame,
    way: Way,
    from: Option<&'a [u8]>,
    hint: LeafPlace,
) -> LeafWalk<'a>
    ensures { result ≡ walk_on (way_in way) (option_map (λ k. k.now) from.entry) leaf.now }
{
    match way {
        Way::Up => leaf.walk_up_near(from, hint),
        Way::Down => leaf.walk_down_near(from, hint),
    }
}

/// The nearest row on the way, which goes on behind its key. `O(1)` for each row that is given or
/// passed, and `O(log n)` comparisons with n keys of the chains for a key of theirs.
#[inline(always)]
pub fn next_row<'a>(walk: &mut LeafWalk<'a>, view: &View<'_>) -> RowFound<'a>
    requires { IsSight (sight_of view.now) }
    ensures found { RowFoundBy view.now walk.old.way walk.old.from walk.old.leaf result }
    ensures behind { GoesBehind view.now result walk.old walk.new }
{
    while let Some(held) = walk.next_held(view) {
        if let Some(found) = row_of(held) {
            return found;
        }
    }
    RowFound::End
}

// What the key gives; none where no version that is held is admitted.
#[inline(always)]
fn row_of(held: HeldRow<'_>) -> Option<RowFound<'_>>
    ensures { MatchOption result (IsQuiet (reply_in held.entry.read)) (IsRowOf held.entry) }
{
    match held.read {
        FrameRead::Found(value) => Some(RowFound::Row(held.key, value)),
        FrameRead::Conflict(id) => Some(RowFound::Conflict(id)),
        FrameRead::Removed | FrameRead::Older => None,
    }
}

/// A copy of what was found. Three allocations for a row.
pub(crate) fn row_copied(alloc: Global, found: RowFound<'_>) -> Result<Stepped, NoMemory>
    ensures { IfOk result (StepsAs found.entry) }
{
    match found {
        RowFound::Row(key, value) => {
            let given = item_of(alloc, key)?;
            let value = item_of(alloc, value)?;
            Ok(Stepped::Row(given, value, item_of(alloc, key)?))
        }
        RowFound::Conflict(id) => Ok(Stepped::Conflict(id)),
        RowFound::End => Ok(Stepped::End),
    }
}

/// An item of these bytes. One allocation.
pub(crate) fn item_of(alloc: Global, bytes: &[u8]) -> Result<Item, NoMemory>
    ensures { IfOk result (λ item. item ≡ bytes.now) }
{
    Ok(Item::new(Vec::from_slice(alloc, bytes)?))
}
