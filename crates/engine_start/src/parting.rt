//! Tables, and the directory of their leaves.

ghost use Rattle.std.specs.Prelude.{◌≡◌, ◌≢◌, ◌++◌, ◌∷◌, ℕ, [], List, Some, true, IfOk, OnOk};
ghost use Rattle.std.specs.List.{All, AllByRecursion};
ghost use Rattle.kv_model.specs.Regular.{AllApart, SameNumber};
ghost use Rattle.stored.specs.TableTree.{Climbs, first_key};
ghost use Rattle.tree_dir.specs.Leaves.{HasTable, no_leaves};
ghost use Rattle.engine_start.specs.declared.table_entries.TableEntries.{TableEntries};
ghost use Rattle.engine_start.specs.Entries.{AreAdded, entries_of, tables_of};

use crate::table_entries::TableEntries;
use catalog::Table;
use failure::NoMemory;
use inner_page::Entry;
use std::alloc::Global;
use tree_dir::Dir;

/// Tables as they stood, and their leaves.
#[derive(Drop)]
pub(crate) struct Parted {
    pub(crate) tables: Vec<Table>,
    pub(crate) dir: Dir,
}

/// Parts tables and entries. The tables come into the directory one after the other, and nothing is
/// copied. The error is want of memory, or a table whose first leaf does not begin with the empty
/// key. `O(log n)` comparisons a leaf with n leaves.
pub(crate) fn part(alloc: Global, both: Vec<TableEntries>) -> Result<Parted, NoMemory>
    requires once { AllApart SameNumber (tables_of both.items) }
    requires climb { AllByRecursion (λ (t : TableEntries). Climbs (entries_of t)) both.items }
    ensures tables { IfOk result (λ p. p.tables.items ≡ tables_of both.items) }
    ensures added { IfOk result (λ p. AreAdded no_leaves both.items p.dir) }
{
    let mut tables = Vec::new(alloc);
    let mut dir = Dir::new(alloc);
    for one in both {
        let TableEntries { table, entries } = one;
        add(&mut dir, table.number, entries)?;
        push(&mut tables, table)?;
    }
    Ok(Parted { tables, dir })
}

// A table comes into the directory, where its first leaf begins with the empty key.
fn add(dir: &mut Dir, number: u32, entries: Vec<Entry>) -> Result<(), NoMemory>
    requires new { All (λ l. l.table ≢ number) dir.old.leaves }
    requires climb { Climbs entries.items }
    ensures { OnOk result ((ids : List ℕ) × HasTable dir.old dir.new number entries.items ids) }
{
    if !begins_empty(&entries) {
        return Err(NoMemory);
    }
    dir.add_table(number, entries)
}

// Whether there is a first entry, of the empty key.
fn begins_empty(entries: &[Entry]) -> bool
    ensures { result ≡ true → first_key entries.now ≡ Some [] }
{
    match entries.first() {
        None => false,
        Some(first) => first.key.as_bytes().is_empty(),
    }
}

fn push(tables: &mut Vec<Table>, table: Table) -> Result<(), NoMemory>
    ensures { OnOk result (tables.new.items ≡ tables.old.items ++ table ∷ []) }
{
    match tables.push(table) {
        Ok(()) => Ok(()),
        Err(_) => Err(NoMemory),
    }
}
