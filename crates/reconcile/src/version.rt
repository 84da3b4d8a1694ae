//! What is captured of a key.

ghost use Rattle.std.specs.Prelude.{◌≡◌, option_map};
ghost use Rattle.row_page.specs.Changes.{change_seen};
ghost use Rattle.row_page.specs.Views.{row_seen};
ghost use Rattle.reconcile.specs.Cells.{cell_change, cell_version};
ghost use Rattle.reconcile.specs.Capture.{captured};

use item::Change;
use leaf_chains::KeyChain;
use row_page::{Cell, CellChange};
use snapshot::Snapshot;
use stamp::Version;
use update_chain::Chain;

/// The newest version of a chain whose name the snapshot sees. `O(k)` with k updates above it.
pub fn pick<'a>(chain: &'a Chain, snapshot: &Snapshot) -> Option<&'a Version<Change>>
    ensures { option_map (λ v. v.now) result ≡ captured snapshot.now.sight chain.now }
{
    for place in 0..chain.len() {
        let update = chain.get(place)?;
        if snapshot.sees(update.version.window.name) {
            return Some(&update.version);
        }
    }
    None
}

/// The row of a key's version, lent. `O(1)`.
pub fn cell_of<'a>(there: &'a KeyChain, version: &'a Version<Change>) -> Cell<'a>
    ensures { row_seen result ≡ (there.now.key, cell_version version.now) }
{
    Cell {
        key: there.key.as_bytes(),
        window: version.window,
        change: change_of(&version.change),
    }
}

fn change_of(change: &Change) -> CellChange<&[u8]>
    ensures { change_seen result ≡ cell_change change.now }
{
    match change {
        Change::Put(value) => CellChange::Put(value.as_bytes()),
        Change::Remove => CellChange::Remove,
    }
}
