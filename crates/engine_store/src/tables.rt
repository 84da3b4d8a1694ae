//! The tables of a checkpoint, each with the entries of its leaves.

ghost use Rattle.std.specs.Prelude.{◌≡◌, ◌++◌, ◌∷◌, [], length, IfOk, OnOk};
ghost use Rattle.engine_start.specs.declared.table_entries.TableEntries.{TableEntries as ATable};
ghost use Rattle.engine_store.specs.Tables.{AreWithEntries, IsWithEntries};

use catalog::Table;
use checkpoint_record::TableRoot;
use engine_start::TableEntries;
use failure::NoMemory;
use inner_page::Entry;
use std::alloc::Global;
use tree_open::Upper;

/// The tables, each with the entries of its leaves. Names and entries are moved. The error is want of
/// memory. `O(n)` in the tables.
pub(crate) fn with_entries(
    alloc: Global,
    mut tables: Vec<TableRoot>,
    mut uppers: Vec<Upper>,
) -> Result<Vec<TableEntries>, NoMemory>
    requires { length uppers.items ≡ length tables.items }
    ensures { IfOk result (λ v. AreWithEntries v.items tables.items uppers.items) }
{
    let mut both = Vec::new(alloc);
    while let Some(root) = tables.pop() {
        if let Some(upper) = uppers.pop() {
            push(&mut both, with_upper(root, upper))?;
        }
    }
    both.reverse();
    Ok(both)
}

fn with_upper(root: TableRoot, upper: Upper) -> TableEntries
    ensures { IsWithEntries result root upper }
{
    let table = table_in(root);
    let entries = entries_in(upper);
    TableEntries { table, entries }
}

fn table_in(root: TableRoot) -> Table
    ensures { result ≡ root.table }
{
    root.table
}

fn entries_in(upper: Upper) -> Vec<Entry>
    ensures { result ≡ upper.entries }
{
    upper.entries
}

fn push(both: &mut Vec<TableEntries>, table: TableEntries) -> Result<(), NoMemory>
    ensures { OnOk result (both.new.items ≡ both.old.items ++ table ∷ []) }
{
    match both.push(table) {
        Ok(()) => Ok(()),
        Err(_) => Err(NoMemory),
    }
}
