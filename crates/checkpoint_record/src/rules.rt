// The rules of a record beside the widths of its fields.
ghost use Rattle.std.specs.Prelude.{◌≡◌, ◌↔◌, IfOk, IsTrue, map};
ghost use Rattle.std.specs.List.{list_all};
ghost use Rattle.std.specs.List.Sorted.{IsStrictlyIncreasing};
ghost use Rattle.row_page.specs.Rows.{is_below};
ghost use Rattle.stored.specs.Records.{TableRoot as StoredTable, NumbersOnce};
ghost use Rattle.checkpoint_record.specs.Rules.{Keeps, fields_keep, ids_ascend, marks_keep, names_ascend, snapshot_keeps, table_keeps, tables_keep};

use crate::record::{Record, Snapshot, TableRoot};
use byte_order::order;
use catalog::is_name;
use failure::NoMemory;
use limits::{LEVELS_MAX, NUMBER_MAX};
use std::alloc::Global;

const IDS_MAX: usize = 64;

// Whether the record keeps its rules. `O(n log n)` in the tables, and one allocation of 4 bytes a
// table.
pub(crate) fn keeps(alloc: Global, record: &Record) -> Result<bool, NoMemory>
    ensures { IfOk result (λ b. IsTrue b ↔ Keeps record.now) }
{
    if !fields_keep(record) {
        return Ok(false);
    }
    numbers_once(alloc, &record.tables)
}

fn fields_keep(record: &Record) -> bool
    ensures { result ≡ fields_keep record.now }
{
    let history = &record.history;
    marks_keep(record)
        && snapshot_keeps(&record.snapshot)
        && history.level <= LEVELS_MAX
        && tables_keep(record.next_table, &record.tables)
}

fn marks_keep(record: &Record) -> bool
    ensures { result ≡ marks_keep record.now }
{
    let has_run = 1 <= record.run && record.run <= record.sequence;
    let has_stamps = record.stable == 0 || record.oldest <= record.stable;
    record.sequence <= NUMBER_MAX && has_run && has_stamps
}

fn snapshot_keeps(snapshot: &Snapshot) -> bool
    ensures { result ≡ snapshot_keeps snapshot.now }
{
    snapshot.min <= snapshot.max
        && snapshot.ids.len() <= IDS_MAX
        && ids_ascend(snapshot.min, snapshot.max, &snapshot.ids)
}

fn ids_ascend(min: u64, max: u64, ids: &[u64]) -> bool
    ensures { result ≡ ids_ascend min max ids.now }
{
    let mut least = min;
    for id in ids {
        if *id < least || *id >= max {
            return false;
        }
        least = *id + 1;
    }
    true
}

fn tables_keep(next: u32, tables: &[TableRoot]) -> bool
    ensures { result ≡ tables_keep next tables.now }
{
    each_keeps(next, tables) && names_ascend(tables)
}

fn each_keeps(next: u32, tables: &[TableRoot]) -> bool
    ensures { result ≡ list_all (table_keeps next) tables.now }
{
    for table in tables {
        if !table_keeps(next, table) {
            return false;
        }
    }
    true
}

fn table_keeps(next: u32, table: &TableRoot) -> bool
    ensures { result ≡ table_keeps next table.now }
{
    let named = &table.table;
    let root = &table.root;
    1 <= named.number
        && named.number < next
        && root.level <= LEVELS_MAX
        && is_name(named.name.as_bytes())
}

fn names_ascend(tables: &[TableRoot]) -> bool
    ensures { result ≡ names_ascend tables.now }
{
    for i in 1..tables.len() {
        if !is_below(&tables[i - 1], &tables[i]) {
            return false;
        }
    }
    true
}

// Whether the name of one table is below that of the other.
fn is_below(table: &TableRoot, other: &TableRoot) -> bool
    ensures { result ≡ is_below table.now.table.name other.now.table.name }
{
    let table = &table.table;
    let other = &other.table;
    order(table.name.as_bytes(), other.name.as_bytes()).is_lt()
}

// Whether no two tables have one number: their numbers are sorted, and then neighbours are compared.
fn numbers_once(alloc: Global, tables: &[TableRoot]) -> Result<bool, NoMemory>
    ensures { IfOk result (λ b. IsTrue b ↔ NumbersOnce tables.now) }
{
    let mut numbers = numbers_of(alloc, tables)?;
    numbers.sort_unstable();
    Ok(ascend(&numbers))
}

fn numbers_of(alloc: Global, tables: &[TableRoot]) -> Result<Vec<u32>, NoMemory>
    ensures { IfOk result (λ v. v.items ≡ map {A = StoredTable} (λ t. t.table.number) tables.now) }
{
    let mut numbers = Vec::with_capacity(alloc, tables.len())?;
    for table in tables {
        numbers.push_reserved(number_of(table));
    }
    Ok(numbers)
}

fn number_of(table: &TableRoot) -> u32
    ensures { result ≡ table.now.table.number }
{
    let named = &table.table;
    named.number
}

fn ascend(numbers: &[u32]) -> bool
    ensures { IsTrue result ↔ IsStrictlyIncreasing numbers.now }
{
    for i in 1..numbers.len() {
        if numbers[i - 1] >= numbers[i] {
            return false;
        }
    }
    true
}
