//! A leaf that comes back.

ghost use Rattle.std.specs.Prelude.{◌≡◌, ◌≤◌, ℕ, [], List, length, IfOk, OnOk};
ghost use Rattle.item.specs.declared.Change.{Change as AChange};
ghost use Rattle.stamp.specs.declared.Version.{Version as AVersion};
ghost use Rattle.kv_model.specs.Holds.{Descends};
ghost use Rattle.kv_model.specs.Ordered.{Older};
ghost use Rattle.row_page.specs.Rows.{RowFits, key_most};
ghost use Rattle.leaf_rows.specs.Rows.{AreFit};
ghost use Rattle.reconcile.specs.Capture.{ChainsFit};
ghost use Rattle.reconcile.specs.Cells.{cell_version};
ghost use Rattle.reconcile.specs.Moving.{versions_in};
ghost use Rattle.engine_world.specs.Coming.{ComesFrom};
ghost use Rattle.evict_step.specs.Backs.{AllFit, AreNewestFirst, HasVersions, is_again, unlike, with_shown, with_version};

use failure::NoMemory;
use item::Change;
use leaf_frame::LeafFrame;
use reconcile::{Moved, version_of};
use row_page::Leaf;
use stamp::Version;
use std::alloc::Global;
use update_chain::Update;

/// The leaf that was read from its block, a page under no chains, with the versions below its rows that
/// the history has of it. One that has the name of its key's row is that row, and comes once. Where no
/// other comes, it is the leaf as it was read; else all that it holds is in its chains, since a row of a
/// page is the oldest version of its key. The error is want of memory. `O(rows + versions)` installs, and
/// a copy of each row where a version comes.
pub fn bring_back(
    alloc: Global,
    read: LeafFrame,
    mut moved: Vec<Moved>,
) -> Result<LeafFrame, NoMemory>
    requires bare { read.chains ≡ [] }
    requires moved { AllFit moved.items }
    ensures comes { IfOk result (λ leaf. AreNewestFirst read.page (unlike read.page moved.items) → ComesFrom leaf read.page (λ key. versions_in key (unlike read.page moved.items))) }
    ensures alone { IfOk result (λ leaf. AreNewestFirst read.page (unlike read.page moved.items) → 1 ≤ length leaf.page → unlike read.page moved.items ≡ []) }
    ensures fit { IfOk result (λ leaf. ChainsFit leaf.chains) }
{
    drop_again(&mut moved, &read);
    bring_others(alloc, read, moved)
}

// Those that are rows of the leaf go.
fn drop_again(moved: &mut Vec<Moved>, read: &LeafFrame)
    ensures is { moved.new.items ≡ unlike read.now.page moved.old.items }
    ensures fit { AllFit moved.old.items → AllFit moved.new.items }
{
    moved.retain(|one| !is_again(read, one));
}

// Whether the row of its key has its name.
fn is_again(read: &LeafFrame, one: &Moved) -> bool
    ensures { result ≡ is_again read.now.page one.now }
{
    match read.row(one.key.as_bytes()) {
        None => false,
        Some(cell) => cell.window.name == one.version.window.name,
    }
}

// The leaf that was read, with versions below its rows.
fn bring_others(alloc: Global, read: LeafFrame, moved: Vec<Moved>) -> Result<LeafFrame, NoMemory>
    requires bare { read.chains ≡ [] }
    requires moved { AllFit moved.items }
    ensures comes { IfOk result (λ leaf. AreNewestFirst read.page moved.items → ComesFrom leaf read.page (λ key. versions_in key moved.items)) }
    ensures alone { IfOk result (λ leaf. AreNewestFirst read.page moved.items → 1 ≤ length leaf.page → moved.items ≡ []) }
    ensures fit { IfOk result (λ leaf. ChainsFit leaf.chains) }
{
    if moved.as_slice().is_empty() {
        return Ok(read);
    }
    let mut leaf = LeafFrame::new(alloc);
    put_moved(alloc, &mut leaf, moved)?;
    match read.page() {
        None => Ok(leaf),
        Some(page) => {
            put_rows(alloc, &mut leaf, page)?;
            Ok(leaf)
        }
    }
}

// Puts versions into the chains of a leaf that holds nothing, the last one first.
fn put_moved(alloc: Global, leaf: &mut LeafFrame, mut moved: Vec<Moved>) -> Result<(), NoMemory>
    requires { AllFit moved.items }
    ensures put { OnOk result (HasVersions leaf.old (λ key. []) → ((key : List ℕ) → Descends Older (versions_in key moved.items)) → HasVersions leaf.new (λ key. versions_in key moved.items)) }
    ensures fit { OnOk result (ChainsFit leaf.old.chains → ChainsFit leaf.new.chains) }
{
    while let Some(last) = moved.pop() {
        let Moved { key, version } = last;
        put(alloc, leaf, key.as_bytes(), version)?;
    }
    Ok(())
}

// Puts rows into the chains of a leaf, on top of what it holds of their keys, the last one first.
fn put_rows(alloc: Global, leaf: &mut LeafFrame, page: &Leaf) -> Result<(), NoMemory>
    requires { AreFit page.now }
    ensures put { OnOk result ((versions : List ℕ → List (AVersion AChange)) → HasVersions leaf.old versions → ((key : List ℕ) → Descends Older (with_shown page.now versions key)) → HasVersions leaf.new (with_shown page.now versions)) }
    ensures fit { OnOk result (ChainsFit leaf.old.chains → ChainsFit leaf.new.chains) }
{
    let mut left = page.len();
    while left > 0 {
        left -= 1;
        let cell = page.cell(left);
        let version = version_of(alloc, &cell)?;
        put(alloc, leaf, cell.key, version)?;
    }
    Ok(())
}

// Puts a version on top of those of its key, which are older.
fn put(
    alloc: Global,
    leaf: &mut LeafFrame,
    key: &[u8],
    version: Version<Change>,
) -> Result<(), NoMemory>
    ensures put { OnOk result ((versions : List ℕ → List (AVersion AChange)) → HasVersions leaf.old versions → Descends Older (with_version key.now version versions key.now) → HasVersions leaf.new (with_version key.now version versions)) }
    ensures fit { OnOk result (ChainsFit leaf.old.chains → RowFits [] key_most (key.now, cell_version version) → ChainsFit leaf.new.chains) }
{
    let update = Update {
        version,
        prepared: 0,
    };
    let _slot = leaf.install(alloc, key, update)?;
    Ok(())
}
