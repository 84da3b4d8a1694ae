// Versions of a leaf, as they are added to a history.
ghost use Rattle.std.specs.Prelude.{◌≡◌, ◌∷◌, List, [], true, OnOk};
ghost use Rattle.kv_model.specs.History.{Table, has_table};
ghost use Rattle.row_page.specs.Rows.{RowFits, key_most};
ghost use Rattle.reconcile.specs.Cells.{cell_version};
ghost use Rattle.evict_step.specs.Backs.{AllFit};
ghost use Rattle.hist_pages.specs.Records.{Fits};
ghost use Rattle.hist_gather.specs.Added.{AreKnown, HasMore, OfMoved};

use evict_step::Moved;
use failure::NoMemory;
use hist_store::{Hist, adds_add, adds_change, adds_keep};
use std::alloc::Global;

// Adds versions of keys of the table of this number. The error is want of memory. `O(log n)`
// comparisons for each with n keys, and a copy of a key that is new.
pub(crate) fn add_all(
    alloc: Global,
    table: u32,
    versions: Vec<Moved>,
    history: &mut Hist,
) -> Result<(), NoMemory>
    requires { AllFit versions.items }
    ensures more { OnOk result (HasMore (OfMoved table versions.items) history.old history.new) }
    ensures known { OnOk result ((tables : List Table) → has_table tables table ≡ true → AreKnown tables history.old → AreKnown tables history.new) }
    ensures fit { OnOk result (Fits history.old → Fits history.new) }
{
    for one in versions {
        add_one(alloc, table, one, history)?;
    }
    Ok(())
}

fn add_one(alloc: Global, table: u32, one: Moved, history: &mut Hist) -> Result<(), NoMemory>
    requires { RowFits [] key_most (one.key, cell_version one.version) }
    ensures more { OnOk result (HasMore (OfMoved table (one ∷ [])) history.old history.new) }
    ensures known { OnOk result ((tables : List Table) → has_table tables table ≡ true → AreKnown tables history.old → AreKnown tables history.new) }
    ensures fit { OnOk result (Fits history.old → Fits history.new) }
{
    adds_add();
    adds_change();
    adds_keep();
    let Moved { key, version } = one;
    history.add(alloc, table, key.as_bytes(), version)
}
