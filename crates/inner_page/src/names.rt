// Whether a name stands once for each key of a leaf of the history. Its records ascend, so those of
// one key are neighbours.
ghost use Rattle.std.specs.Prelude.{◌≡◌};
ghost use Rattle.inner_page.specs.Names.{same_key, key_cmp, name_cmp, climbs, names_climb, stands_again, names_once, names_differ};

use crate::record::HistoryRecord;
use std::cmp::Ordering;

/// Whether a name stands once for each key, told of records that ascend: `NamesOnce` of `stored` exactly
/// where it says so (`proofs/NamesOnce`). One pass where the names of each key ascend, as they do where
/// stamps ascend with the ids; else the names of one key are compared two by two.
pub fn names_differ(records: &[HistoryRecord]) -> bool
    ensures { result ≡ names_differ records.now }
{
    names_climb(records) || names_once(records)
}

fn names_climb(records: &[HistoryRecord]) -> bool
    ensures { result ≡ names_climb records.now }
{
    for i in 1..records.len() {
        if !climbs(&records[i - 1], &records[i]) {
            return false;
        }
    }
    true
}

// Whether the next record is of another key, or has a name above the first one's.
fn climbs(first: &HistoryRecord, next: &HistoryRecord) -> bool
    ensures { result ≡ climbs first.now next.now }
{
    !same_key(first, next) || name_cmp(first, next).is_lt()
}

fn names_once(records: &[HistoryRecord]) -> bool
    ensures { result ≡ names_once records.now }
{
    for i in 0..records.len() {
        if stands_again(&records[i], &records[i + 1..]) {
            return false;
        }
    }
    true
}

// Whether the name of the first record stands again in those of the same key that follow it.
fn stands_again(first: &HistoryRecord, others: &[HistoryRecord]) -> bool
    ensures { result ≡ stands_again first.now others.now }
{
    for other in others {
        if !same_key(first, other) {
            return false;
        }
        if name_cmp(first, other).is_eq() {
            return true;
        }
    }
    false
}

fn same_key(first: &HistoryRecord, other: &HistoryRecord) -> bool
    ensures { result ≡ same_key first.now other.now }
{
    key_cmp(first, other).is_eq()
}

// Orders by table, then by key.
fn key_cmp(first: &HistoryRecord, other: &HistoryRecord) -> Ordering
    ensures { result ≡ key_cmp first.now other.now }
{
    first
        .table
        .cmp(&other.table)
        .then(first.key.compare(&other.key))
}

fn name_cmp(first: &HistoryRecord, other: &HistoryRecord) -> Ordering
    ensures { result ≡ name_cmp first.now other.now }
{
    let window = first.version.window;
    let others = other.version.window;
    window.name.compare(&others.name)
}
