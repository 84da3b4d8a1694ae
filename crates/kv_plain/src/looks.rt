// Look-ups in a history, newest entry first.

ghost use Rattle.std.specs.Prelude.{◌≡◌, map, find, option_map};
ghost use Rattle.stamp.specs.declared.Name.{Name};
ghost use Rattle.kv_model.specs.History.{reads_at, releases, released, name_eq, writes_at};
ghost use Rattle.kv_plain.specs.Plain.{entry_in, history_in, write_in, version_in, is_seen, is_within, lower, newest_in, newest_of, newest_write, bound_under, write_passes};
ghost use Rattle.kv_model.specs.History.{version_of, put_of, value, line, admits};
ghost use Rattle.kv_model.specs.AgreementLaws.{head_of};
ghost use Rattle.kv_model.specs.Refusals.{newest_durable};

use crate::history::{Entry, Found, Write};
use item::{Change, Item};
use stamp::Name;

/// Whether a commit stamp is admitted at a read stamp, 0 for none.
pub(crate) fn is_admitted(read: u64, commit: u64) -> bool
    ensures { result ≡ reads_at read commit }
{
    read == 0 || commit <= read
}

pub(crate) fn is_same(a: Name, b: Name) -> bool
    ensures { result ≡ name_eq a b }
{
    a.run == b.run && a.id == b.id
}

fn does_release(entry: &Entry, name: Name) -> bool
    ensures { result ≡ releases (entry_in entry.now) name }
{
    match entry {
        Entry::Commit(other, _) => is_same(*other, name),
        Entry::Prepare(other, _) => is_same(*other, name),
        _ => false,
    }
}

/// Whether the transaction of this name was released in the first `n` entries.
pub(crate) fn is_released(history: &[Entry], n: usize, name: Name) -> bool
    ensures { result ≡ released (history_in history.now) n name }
{
    match history.split_first() {
        None => false,
        Some((entry, older)) => {
            (does_release(entry, name) && older.len() < n) || is_released(older, n, name)
        }
    }
}

pub(crate) fn is_write_of(write: &Write, table: u32, key: &Item) -> bool
    ensures { result ≡ writes_at table key.now (write_in write.now) }
{
    write.table == table && write.key.same(key)
}

pub(crate) fn is_left(bound: Option<u64>, write: &Write) -> bool
    ensures { (name : Name) → result ≡ is_within bound (version_of name (write_in write.now)) }
{
    match bound {
        None => true,
        Some(stamp) => write.durable <= stamp,
    }
}

fn write_is_found(write: &Write, read: u64, table: u32, key: &Item, bound: Option<u64>) -> bool
    ensures { (name : Name) → result ≡ write_passes name read table key.now bound (write_in write.now) }
{
    is_write_of(write, table, key) && is_left(bound, write) && is_admitted(read, write.commit)
}

fn find_write<'a>(
    name: Name,
    writes: &'a [Write],
    read: u64,
    table: u32,
    key: &Item,
    bound: Option<u64>,
) -> Option<Found<'a>>
    ensures { option_map version_in result ≡ newest_write name (map write_in writes.now) read table key.now bound }
{
    match writes.split_first() {
        None => None,
        Some((write, others)) => {
            if write_is_found(write, read, table, key, bound) {
                Some(Found { name, write })
            } else {
                find_write(name, others, read, table, key, bound)
            }
        }
    }
}

fn lower_bound(bound: Option<u64>, stamp: u64) -> u64
    ensures { result ≡ lower bound stamp }
{
    match bound {
        None => stamp,
        Some(other) => other.min(stamp),
    }
}

fn is_seen_by(all: &[Entry], n: Option<usize>, name: Name) -> bool
    ensures { result ≡ is_seen (history_in all.now) n name }
{
    match n {
        None => true,
        Some(n) => is_released(all, n, name),
    }
}

fn find_in_entry<'a>(
    all: &[Entry],
    entry: &'a Entry,
    n: Option<usize>,
    read: u64,
    table: u32,
    key: &Item,
    bound: Option<u64>,
) -> Option<Found<'a>>
    ensures { option_map version_in result ≡ newest_of (history_in all.now) (entry_in entry.now) n read table key.now bound }
{
    match entry {
        Entry::Commit(name, writes) if is_seen_by(all, n, *name) => {
            find_write(*name, writes, read, table, key, bound)
        }
        Entry::Resolve(name, writes) if is_seen_by(all, n, *name) => {
            find_write(*name, writes, read, table, key, bound)
        }
        _ => None,
    }
}

pub(crate) fn bound_below(entry: &Entry, bound: Option<u64>) -> Option<u64>
    ensures { result ≡ bound_under (entry_in entry.now) bound }
{
    match entry {
        Entry::Rts(stable) => Some(lower_bound(bound, *stable)),
        _ => bound,
    }
}

fn find_newest<'a>(
    all: &[Entry],
    history: &'a [Entry],
    n: Option<usize>,
    read: u64,
    table: u32,
    key: &Item,
    bound: Option<u64>,
) -> Option<Found<'a>>
    ensures { option_map version_in result ≡ newest_in (history_in all.now) (history_in history.now) n read table key.now bound }
{
    match history.split_first() {
        None => None,
        Some((entry, older)) => match find_in_entry(all, entry, n, read, table, key, bound) {
            Some(found) => Some(found),
            None => find_newest(all, older, n, read, table, key, bound_below(entry, bound)),
        },
    }
}

/// The newest standing version of the key that a snapshot of the first `n` entries sees and this
/// read stamp admits.
pub(crate) fn newest_admitted<'a>(
    history: &'a [Entry],
    n: usize,
    read: u64,
    table: u32,
    key: &Item,
) -> Option<Found<'a>>
    ensures { option_map version_in result ≡ find (admits (history_in history.now) n read) (line (history_in history.now) table key.now) }
{
    find_newest(history, history, Some(n), read, table, key, None)
}

/// The newest standing version of the key.
pub(crate) fn newest<'a>(history: &'a [Entry], table: u32, key: &Item) -> Option<Found<'a>>
    ensures { option_map version_in result ≡ head_of (line (history_in history.now) table key.now) }
{
    find_newest(history, history, None, 0, table, key, None)
}

/// The durable stamp of the newest standing version of the key, 0 where there is none.
pub(crate) fn durable_of(history: &[Entry], table: u32, key: &Item) -> u64
    ensures { result ≡ newest_durable (line (history_in history.now) table key.now) }
{
    match newest(history, table, key) {
        None => 0,
        Some(found) => found.write.durable,
    }
}

pub(crate) fn put_in(change: &Change) -> Option<&Item>
    ensures { option_map (λ i. i.now) result ≡ put_of change.now }
{
    match change {
        Change::Put(value) => Some(value),
        Change::Remove => None,
    }
}

/// What a transaction that began after the first `n` entries reads of the key at this read stamp,
/// where no other transaction is prepared: the value, or none where the key is absent.
pub(crate) fn value<'a>(
    history: &'a [Entry],
    n: usize,
    read: u64,
    table: u32,
    key: &Item,
) -> Option<&'a Item>
    ensures { option_map (λ i. i.now) result ≡ value (history_in history.now) n read table key.now }
{
    match newest_admitted(history, n, read, table, key) {
        None => None,
        Some(found) => put_in(&found.write.change),
    }
}
