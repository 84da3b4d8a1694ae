// The leaves of one tree.
ghost use Rattle.std.specs.Prelude.{◌≡◌, ◌↔◌, ◌++◌, [], ◌∷◌, Some, None, IfOk, IfErr, IfSome, OnOk, IsTrue};
ghost use Rattle.failure.specs.Counts.{Rose};
ghost use Rattle.disk_model.specs.Crash.{Looked};
ghost use Rattle.row_page.specs.Rows.{Ascends};
ghost use Rattle.leaf_rows.specs.Rows.{AreFit};
ghost use Rattle.stored.specs.TableTree.{Climbs, first_key, root_entry};
ghost use Rattle.tree_open.specs.Damage.{Refused};
ghost use Rattle.recover_open.specs.Leaves.{IsUnder, AreUnder, IsFrom, IsUpTo, RowsAre};
ghost use Rattle.recover_open.specs.Damage.{EntrySpoils, LeavesSpoil};

use crate::record::spoilt;
use byte_order::order;
use device_layout::Link;
use device_leaf::load;
use disk_model::Disk;
use failure::NoMemory;
use inner_page::Entry;
use item::Item;
use leaf_rows::Rows;
use row_page::CellChange;
use stamp::Version;
use std::alloc::Global;
use wt_code::Refusal;

// A row that is moved.
type OneRow = (Item, Version<CellChange<Item>>);

// The rows of the leaves that these entries lead to. `O(bytes)`, each leaf read once; the rows of
// an only leaf are not moved.
pub(crate) fn load_leaves<D: Disk>(
    alloc: Global,
    disk: &mut D,
    entries: &[Entry],
) -> Result<Rows, Refusal>
    requires { Climbs entries.now }
    ensures ok { IsTrue (D.honest disk.old) → IfOk result (RowsAre (D.seen disk.old) entries.now) }
    ensures err { IfErr result (Refused (Rose (D.faults disk.old) (D.faults disk.new)) (IsTrue (D.honest disk.old)) (LeavesSpoil (D.seen disk.old) entries.now)) }
    ensures looked { Looked D.Disk disk.old disk.new }
    ensures home { D.home disk.new ≡ D.home disk.old }
{
    match only_link(entries) {
        Some(link) => load(alloc, disk, link),
        None => load_each(alloc, disk, entries),
    }
}

// What leads to an only leaf, which may have any keys.
fn only_link(entries: &[Entry]) -> Option<Link>
    ensures { IfSome result (λ link. entries.now ≡ root_entry link ∷ []) }
{
    match entries {
        [only] => {
            if only.key.as_bytes().is_empty() {
                Some(only.link)
            } else {
                None
            }
        }
        _ => None,
    }
}

fn load_each<D: Disk>(alloc: Global, disk: &mut D, entries: &[Entry]) -> Result<Rows, Refusal>
    requires { Climbs entries.now }
    ensures ok { IsTrue (D.honest disk.old) → IfOk result (RowsAre (D.seen disk.old) entries.now) }
    ensures err { IfErr result (Refused (Rose (D.faults disk.old) (D.faults disk.new)) (IsTrue (D.honest disk.old)) (LeavesSpoil (D.seen disk.old) entries.now)) }
    ensures looked { Looked D.Disk disk.old disk.new }
    ensures home { D.home disk.new ≡ D.home disk.old }
{
    let mut rows = Rows::new(alloc);
    for i in 0..entries.len() {
        let leaf = match load_leaf(alloc, disk, &entries[i], &entries[i + 1..]) {
            Ok(leaf) => leaf,
            Err(refusal) => return Err(refusal),
        };
        match append(&mut rows, leaf) {
            Ok(()) => {}
            Err(NoMemory) => return Err(Refusal::NoMemory),
        }
    }
    Ok(rows)
}

// The rows of the leaf that an entry leads to, behind which these others stand. Whatever the disk,
// they are in order, and between the keys of the entry and of the next one.
fn load_leaf<D: Disk>(
    alloc: Global,
    disk: &mut D,
    entry: &Entry,
    others: &[Entry],
) -> Result<Vec<OneRow>, Refusal>
    ensures ok { IsTrue (D.honest disk.old) → IfOk result (λ v. IsUnder (D.seen disk.old) entry.now (first_key others.now) v.items) }
    ensures keys { IfOk result (λ v. AreUnder entry.now (first_key others.now) v.items) }
    ensures fit { IfOk result (λ v. AreFit v.items) }
    ensures err { IfErr result (Refused (Rose (D.faults disk.old) (D.faults disk.new)) (IsTrue (D.honest disk.old)) (EntrySpoils (D.seen disk.old) entry.now (first_key others.now))) }
    ensures looked { Looked D.Disk disk.old disk.new }
    ensures home { D.home disk.new ≡ D.home disk.old }
{
    let rows = match load(alloc, disk, entry.link) {
        Ok(rows) => rows.into_rows(),
        Err(refusal) => return Err(refusal),
    };
    if are_under(entry, others, &rows) {
        Ok(rows)
    } else {
        Err(spoilt(entry.link.addr))
    }
}

// Whether the keys, which ascend, are between the entry's and that of the first of the others.
fn are_under(entry: &Entry, others: &[Entry], rows: &[OneRow]) -> bool
    requires { Ascends None rows.now }
    ensures { IsTrue result ↔ AreUnder entry.now (first_key others.now) rows.now }
{
    begin_from(entry.key.as_bytes(), rows) && stay_below(others, rows)
}

// Whether no key, of those that ascend, is below this one.
fn begin_from(least: &[u8], rows: &[OneRow]) -> bool
    requires { Ascends None rows.now }
    ensures { IsTrue result ↔ IsFrom least.now rows.now }
{
    match rows.first() {
        Some(first) => !order(first.0.as_bytes(), least).is_lt(),
        None => true,
    }
}

// Whether the keys, which ascend, are below that of the first of the others.
fn stay_below(others: &[Entry], rows: &[OneRow]) -> bool
    requires { Ascends None rows.now }
    ensures { IsTrue result ↔ IsUpTo (first_key others.now) rows.now }
{
    match others.first() {
        Some(next) => end_below(next.key.as_bytes(), rows),
        None => true,
    }
}

// Whether the keys, which ascend, are below this one.
fn end_below(next: &[u8], rows: &[OneRow]) -> bool
    requires { Ascends None rows.now }
    ensures { IsTrue result ↔ IsUpTo (Some next.now) rows.now }
{
    match rows.last() {
        Some(end) => order(end.0.as_bytes(), next).is_lt(),
        None => true,
    }
}

// Moves rows behind others: all keys ascend.
fn append(rows: &mut Rows, more: Vec<OneRow>) -> Result<(), NoMemory>
    requires fit { AreFit more.items }
    requires ascend { Ascends None (rows.old ++ more.items) }
    ensures { OnOk result (rows.new ≡ rows.old ++ more.items) }
{
    for row in more {
        rows.push(row.0, row.1)?;
    }
    Ok(())
}
