// Records of a history, kept by the leaves in which their keys lie.
ghost use Rattle.std.specs.Prelude.{◌≡◌, ◌∷◌, ℕ, [], IfOk, OnOk};
ghost use Rattle.std.specs.List.{AllByRecursion};
ghost use Rattle.row_page.specs.Changes.{change_in};
ghost use Rattle.stored.specs.HistoryTree.{HistoryRecord as StoredRecord, RecordFits};
ghost use Rattle.evict_step.specs.Kept.{KeepsMore, list_of};
ghost use Rattle.kept_open.specs.Keeping.{KeepsNoOthers, KeepsRecords, moved_in, moved_of};
ghost use Rattle.kept_open.specs.Laws.{IsFit};

use crate::fits::all_fit;
use crate::order::{keep_seen, sort};
use evict_step::Kept;
use failure::NoMemory;
use inner_page::HistoryRecord;
use item::{Change, Item};
use leaf_rows::Marks;
use reconcile::Moved;
use row_page::CellChange;
use stamp::Version;
use std::alloc::Global;
use tree_dir::Dir;

/// What an opening with these marks keeps of the records of a history, each of the leaf of the directory
/// in which its key lies: of a leaf by key, of a key newest first. The others go, with those of keys that
/// lie in no leaf. The error is want of memory, or (never of a device's history) a record that fits no row
/// of its key. `O(n log n)` comparisons with n records, and `O(log m)` for each that is kept with m leaves.
/// No item is copied.
pub fn keep_history(
    alloc: Global,
    records: Vec<HistoryRecord>,
    marks: &Marks,
    ids: &[u64],
    leaves: &Dir,
) -> Result<Kept, NoMemory>
    ensures kept { IsFit records.items → IfOk result (KeepsRecords marks.now ids.now records.items leaves.now.leaves) }
    ensures none { IsFit records.items → IfOk result (KeepsNoOthers leaves.now.leaves) }
{
    leaves.stands();
    if !all_fit(&records) {
        return Err(NoMemory);
    }
    let mut records = records;
    keep_seen(&mut records, marks, ids);
    sort(&mut records);
    keep_each(alloc, records, leaves)
}

// Each is kept of the leaf in which its key lies, behind those before it. The error is want of memory.
fn keep_each(alloc: Global, records: Vec<HistoryRecord>, leaves: &Dir) -> Result<Kept, NoMemory>
    requires { AllByRecursion (λ (r : StoredRecord). RecordFits r) records.items }
    ensures { IfOk result (λ kept. (id : ℕ) → list_of kept id ≡ moved_in leaves.now.leaves records.items id) }
{
    let mut kept = Kept::new(alloc);
    for of in records {
        keep_one(alloc, &mut kept, of, leaves)?;
    }
    Ok(kept)
}

fn keep_one(alloc: Global, kept: &mut Kept, of: HistoryRecord, leaves: &Dir) -> Result<(), NoMemory>
    requires { RecordFits of }
    ensures { OnOk result (KeepsMore kept.old kept.new (moved_in leaves.now.leaves (of ∷ []))) }
{
    match leaves.leaf_for(of.table, of.key.as_bytes()) {
        Some(leaf) => kept.push(alloc, leaf, moved_of(of)),
        None => Ok(()),
    }
}

// As a version that is kept.
fn moved_of(of: HistoryRecord) -> Moved
    ensures { result ≡ moved_of of }
{
    let HistoryRecord {
        table: _,
        key,
        version,
    } = of;
    let Version { window, change } = version;
    Moved {
        key,
        version: Version {
            window,
            change: change_in(change),
        },
    }
}

fn change_in(change: CellChange<Item>) -> Change
    ensures { result ≡ change_in change }
{
    match change {
        CellChange::Put(value) => Change::Put(value),
        CellChange::Remove => Change::Remove,
    }
}
