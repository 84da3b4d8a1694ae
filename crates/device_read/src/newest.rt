//! Of each key of a history the newest record that an opening keeps.

ghost use Rattle.std.specs.Prelude.{◌≡◌, ◌↔◌, ◌++◌, ◌∷◌, [], List, filter, option_map, IfOk, OnOk, IsTrue};
ghost use Rattle.stored.specs.HistoryTree.{HistoryRecord as StoredRecord};
ghost use Rattle.stored.specs.TableTree.{ends_below};
ghost use Rattle.device_read.specs.Newest.{IsCountBefore, KeysClimb, is_kept_record, is_sooner, key_cmp, newer, newest_behind, newest_from, newest_in, newest_kept, of_leaf, record_at};

use byte_order::order;
use failure::NoMemory;
use inner_page::HistoryRecord;
use leaf_load::is_seen;
use leaf_rows::Marks;
use std::alloc::Global;
use std::cmp::Ordering;

/// Of the records of a history that an opening with these marks keeps, the newest of each key of a
/// table, by table and key. A history has its records in this order; one that is out of it is left out.
/// The error is want of memory. `O(n)` comparisons with n records. No item is copied.
pub(crate) fn newest_kept(
    alloc: Global,
    records: Vec<HistoryRecord>,
    marks: &Marks,
    ids: &[u64],
) -> Result<Vec<HistoryRecord>, NoMemory>
    ensures { IfOk result (λ newest. newest.items ≡ newest_kept marks.now ids.now records.items) }
{
    let mut records = records;
    keep_seen(&mut records, marks, ids);
    newest_in(alloc, records)
}

// The others go.
fn keep_seen(records: &mut Vec<HistoryRecord>, marks: &Marks, ids: &[u64])
    ensures { records.new.items ≡ filter (is_kept_record marks.now ids.now) records.old.items }
{
    records.retain(|of| is_kept(marks, ids, of));
}

fn is_kept(marks: &Marks, ids: &[u64], of: &HistoryRecord) -> bool
    ensures { result ≡ is_kept_record marks.now ids.now of.now }
{
    let window = of.version.window;
    is_seen(marks, ids, &window)
}

fn newest_in(alloc: Global, records: Vec<HistoryRecord>) -> Result<Vec<HistoryRecord>, NoMemory>
    ensures { IfOk result (λ newest. newest.items ≡ newest_in records.items) }
{
    let mut newest = Vec::new(alloc);
    let mut last = None;
    for of in records {
        last = Some(put_behind(&mut newest, last, of)?);
    }
    if let Some(last) = last {
        push(&mut newest, last)?;
    }
    Ok(newest)
}

// The last one, where there is one, is put behind the others once a record of a greater key comes. This
// is the last one then; of records of one key the newest is.
fn put_behind(
    newest: &mut Vec<HistoryRecord>,
    last: Option<HistoryRecord>,
    of: HistoryRecord,
) -> Result<HistoryRecord, NoMemory>
    ensures { IfOk result (λ r. (rest : List StoredRecord) → newest.new.items ++ newest_from r rest ≡ newest.old.items ++ newest_behind last (of ∷ rest)) }
{
    let Some(last) = last else {
        return Ok(of);
    };
    match compare(&last, &of) {
        Ordering::Less => {
            push(newest, last)?;
            Ok(of)
        }
        Ordering::Equal => Ok(newer(last, of)),
        Ordering::Greater => Ok(last),
    }
}

fn push(newest: &mut Vec<HistoryRecord>, of: HistoryRecord) -> Result<(), NoMemory>
    ensures { OnOk result (newest.new.items ≡ newest.old.items ++ of ∷ []) }
{
    match newest.push(of) {
        Ok(()) => Ok(()),
        Err(_) => Err(NoMemory),
    }
}

fn compare(first: &HistoryRecord, other: &HistoryRecord) -> Ordering
    ensures { result ≡ key_cmp first.now other.now }
{
    let keys = order(first.key.as_bytes(), other.key.as_bytes());
    first.table.cmp(&other.table).then(keys)
}

fn newer(first: HistoryRecord, other: HistoryRecord) -> HistoryRecord
    ensures { result ≡ newer first other }
{
    let window = first.version.window;
    let others = other.version.window;
    if window.name.is_before(others.name) {
        other
    } else {
        first
    }
}

/// The record of this key of a table. `O(log n)` comparisons.
pub(crate) fn record_at<'a>(
    newest: &'a [HistoryRecord],
    table: u32,
    key: &[u8],
) -> Option<&'a HistoryRecord>
    requires { KeysClimb newest.now }
    ensures { option_map (λ r. r.now.version) result ≡ record_at table key.now newest.now }
{
    let found = newest.get(count_before(newest, table, Some(key)))?;
    if is_of(found, table, key) {
        Some(found)
    } else {
        None
    }
}

fn is_of(of: &HistoryRecord, table: u32, key: &[u8]) -> bool
    ensures { IsTrue result ↔ ((of.now.table ≡ table) × (of.now.key ≡ key.now)) }
{
    of.table == table && of.key.as_bytes() == key
}

/// Those of a table whose keys are from the low one on, and below the next, where there is one.
/// `O(log n)` comparisons.
pub(crate) fn of_leaf<'a>(
    newest: &'a [HistoryRecord],
    table: u32,
    low: &[u8],
    next: Option<&[u8]>,
) -> &'a [HistoryRecord]
    requires { KeysClimb newest.now }
    ensures { let end = option_map (λ k. k.now) next.entry in result.now ≡ of_leaf table low.now end newest.now }
{
    let (_, from) = newest.split_at(count_before(newest, table, Some(low)));
    let (of, _) = from.split_at(count_before(from, table, next));
    of
}

// How many, from the first on, are of tables before this one, or of this table and below the key, where
// there is one.
fn count_before(newest: &[HistoryRecord], table: u32, key: Option<&[u8]>) -> usize
    requires { KeysClimb newest.now }
    ensures { let end = option_map (λ k. k.now) key.entry in IsCountBefore table end newest.now result }
{
    newest.partition_point(|of| is_sooner(of, table, key))
}

fn is_sooner(of: &HistoryRecord, table: u32, key: Option<&[u8]>) -> bool
    ensures { let end = option_map (λ k. k.now) key.entry in result ≡ is_sooner table end of.now }
{
    of.table < table || (of.table == table && is_below(of, key))
}

// Whether its key is below this one, where there is one.
fn is_below(of: &HistoryRecord, key: Option<&[u8]>) -> bool
    ensures { let end = option_map (λ k. k.now) key.entry in result ≡ ends_below end of.now.key }
{
    match key {
        Some(key) => order(of.key.as_bytes(), key).is_lt(),
        None => true,
    }
}
