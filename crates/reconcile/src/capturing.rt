//! From chains to a leaf.

ghost use Rattle.std.specs.Prelude.{◌<◌, ◌++◌, List, ◌∷◌, [], slice_get, IfOk};
ghost use Rattle.std.specs.Bool.{MatchBool};
ghost use Rattle.std.specs.Option.{option_to_list};
ghost use Rattle.row_page.specs.Rows.{Row};
ghost use Rattle.leaf_rows.specs.Rows.{image_length};
ghost use Rattle.reconcile.specs.Capture.{ChainFits, ChainsFit, IsCaptured};
ghost use Rattle.reconcile.specs.Gathered.{HasGathered, rows_of};
ghost use Rattle.reconcile.specs.Leaf.{HasRows};

use crate::gathered::Gathered;
use crate::leaf::Captured;
use crate::version::{cell_of, pick};
use failure::NoMemory;
use leaf_chains::{KeyChain, LeafChains};
use snapshot::Snapshot;
use std::alloc::Global;

/// The leaf of what a checkpoint's snapshot sees: of each key the newest version that it sees, a
/// removal too. A key of which it sees nothing is left out. The error is want of memory. `O(n + k +
/// bytes)` with n keys and k updates above those that are seen; each key and value is copied once,
/// into the block, which is the one allocation. It stops at the first row that has no room.
pub fn capture(
    alloc: Global,
    chains: &LeafChains,
    snapshot: &Snapshot,
) -> Result<Captured, NoMemory>
    requires fit { ChainsFit chains.now }
    ensures { IfOk result (λ c. (rows : List Row) × IsCaptured snapshot.now.sight chains.now rows × HasRows c rows) }
{
    let mut gathered = Gathered::new(alloc)?;
    let mut walk = chains.walk_above(None);
    while let Some(slot) = walk.next_entry() {
        if !push_slot(&mut gathered, chains, slot, snapshot) {
            return Ok(Captured::TooLarge);
        }
    }
    Ok(gathered.finish())
}

// Puts the row of a slot's key behind the others. False where one leaf has no room for it.
fn push_slot(gathered: &mut Gathered, chains: &LeafChains, slot: u32, snapshot: &Snapshot) -> bool
    requires fit { ChainsFit chains.now }
    ensures { let more = rows_of snapshot.now.sight (option_to_list (slice_get chains.now slot)) in (rows : List Row) → HasGathered gathered.old rows → MatchBool result (HasGathered gathered.new (rows ++ more)) (32768 < image_length (rows ++ more)) }
{
    match chains.slot(slot) {
        None => true,
        Some(there) => push_captured(gathered, there, snapshot),
    }
}

// Puts the row of a key behind the others, where anything of its chain is captured. False where one
// leaf has no room for it.
fn push_captured(gathered: &mut Gathered, there: &KeyChain, snapshot: &Snapshot) -> bool
    requires fit { ChainFits there.now.key there.now.chain }
    ensures { let more = rows_of snapshot.now.sight (there.now ∷ []) in (rows : List Row) → HasGathered gathered.old rows → MatchBool result (HasGathered gathered.new (rows ++ more)) (32768 < image_length (rows ++ more)) }
{
    match pick(&there.chain, snapshot) {
        None => true,
        Some(version) => gathered.push(&cell_of(there, version)),
    }
}
