//! Whether the rows that are captured fit one leaf.

ghost use Rattle.std.specs.Prelude.{◌≡◌, ◌↔◌, ◌≤◌, List, [], ◌∷◌, length, slice_get, IsTrue};
ghost use Rattle.std.specs.Option.{option_to_list};
ghost use Rattle.row_page.specs.Rows.{Row, cells, value_of};
ghost use Rattle.leaf_rows.specs.Rows.{image_length};
ghost use Rattle.reconcile.specs.Cells.{cell_change};
ghost use Rattle.reconcile.specs.Capture.{ChainFits, ChainsFit, IsCaptured};
ghost use Rattle.reconcile.specs.Gathered.{rows_of};

use crate::version::pick;
use item::Change;
use leaf_chains::{KeyChain, LeafChains};
use snapshot::Snapshot;

const IMAGE_MAX: u64 = 32_768; // bytes

const HEADER_LEN: u64 = 16; // bytes

const NUMBERS_LEN: u64 = 39; // bytes of a cell beside its key and its value

/// Whether the rows that a checkpoint's snapshot sees fit one leaf: their image, with its header,
/// is at most 32,768 bytes long. `O(n + k)` with n keys and k updates above those that are seen. It
/// copies nothing, and it stops at the first row that has no room.
pub fn fits_a_leaf(chains: &LeafChains, snapshot: &Snapshot) -> bool
    requires fit { ChainsFit chains.now }
    ensures fits { (rows : List Row) → IsCaptured snapshot.now.sight chains.now rows → (IsTrue result ↔ (image_length rows ≤ 32768)) }
    ensures some { (rows : List Row) × IsCaptured snapshot.now.sight chains.now rows }
{
    let mut size = HEADER_LEN;
    let mut walk = chains.walk_above(None);
    while let Some(slot) = walk.next_entry() {
        size += slot_len(chains, slot, snapshot);
        if size > IMAGE_MAX {
            return false;
        }
    }
    true
}

// The bytes of the row of a slot's key.
fn slot_len(chains: &LeafChains, slot: u32, snapshot: &Snapshot) -> u64
    requires fit { ChainsFit chains.now }
    ensures is { result ≡ length (cells (rows_of snapshot.now.sight (option_to_list (slice_get chains.now slot)))) }
    ensures small { result ≤ 17447 }
{
    match chains.slot(slot) {
        None => 0,
        Some(there) => row_len(there, snapshot),
    }
}

// The bytes of the row of a key, none where nothing of its chain is captured.
fn row_len(there: &KeyChain, snapshot: &Snapshot) -> u64
    requires fit { ChainFits there.now.key there.now.chain }
    ensures is { result ≡ length (cells (rows_of snapshot.now.sight (there.now ∷ []))) }
    ensures small { result ≤ 17447 }
{
    match pick(&there.chain, snapshot) {
        None => 0,
        Some(version) => NUMBERS_LEN + there.key.len() as u64 + value_len(&version.change),
    }
}

fn value_len(change: &Change) -> u64
    ensures { result ≡ length (value_of (cell_change change.now)) }
{
    match change {
        Change::Put(value) => value.len() as u64,
        Change::Remove => 0,
    }
}
