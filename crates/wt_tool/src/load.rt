// `load`: a dump is read from the input, its table made, its rows put, and then a checkpoint taken.
ghost use Rattle.std.specs.Prelude.{◌≡◌, ◌⊎◌, ◌<◌, ◌^◌, ◌∷◌, List, length, false, not, true, IfErr, IsTrue, OnOk};
ghost use Rattle.std.specs.Option.{option_map};
ghost use Rattle.failure.specs.Counts.{Rose};
ghost use Rattle.disk_model.specs.Crash.{SameDisk};
ghost use Rattle.kv_model.specs.Content.{Content, start};
ghost use Rattle.kv_model.specs.Decisions.{Demand};
ghost use Rattle.engine_store.specs.Images.{EachReads};
ghost use Rattle.dump_text.specs.Grammar.{Row};
ghost use Rattle.engine_store.specs.Opened.{IsReady};
ghost use Rattle.wt_tool.specs.Loads.{ClosesLoad, LoadsRows, LoadsText, PutsRow, PutsRows, loaded_name};
ghost use Rattle.wt_tool.specs.Writes.{demand_of};
ghost use Rattle.wt_tool.specs.Parts.{EndsLoad, IsOpenedOn, LeavesFrom, LoadEnds, LoadsFrom, NoDamage, TellsSpoilt, end_of, load_allowed};
ghost use Rattle.wt_tool.specs.Led.{CallWent, Leading, LedBy, LoadWent, OutWent, WentOut};
ghost use Rattle.wt_tool.specs.Top.{Telling, errors_of};

use crate::closing::close;
use crate::create::make;
use crate::input::take_input;
use crate::names::{after_scheme, item_of};
use crate::sessions::{call, open};
use crate::telling::tell;
use crate::write::{commit, demand_for};
use byte_order::order;
use disk_model::Disk;
use dump_text::{DumpRows, read_dump};
use engine_store::Store;
use item::{Formats, Item};
use script_run::End;
use std::alloc::Global;
use wt_calls::SessionCall;
use wt_code::{Fault, Refusal};
use wt_io::{Sink, Source};

// After so many rows of a new table the leaves that have them go out of memory: some megabytes of them
// are held at a time, and one that is put to again is read and written anew.
const ROWS_BETWEEN: u32 = 2_000;

// How the rows of a load come.
#[derive(Drop)]
struct Pace {
    // How many came since rows last went out of memory.
    since: u32,
    // The key of the first of them.
    first: Option<Item>,
    // Whether each was above the first one.
    ascends: bool,
}

pub(crate) fn load<D: Disk, S: Source, E: Sink>(
    alloc: Global,
    disk: &mut D,
    store: Store,
    input: &mut S,
    err: &mut E,
    no_overwrite: bool,
    name: Option<&str>,
) -> u8
    requires ready { IsReady store }
    requires none { length store.engine.sessions ≡ 0 }
    requires on { IsTrue (D.honest disk.old) → IsOpenedOn D.Disk disk.old store }
    ensures run { LoadsFrom D.Disk S.Source E.Sink (not no_overwrite) (option_map (λ x. x.now) name.entry) input.old input.new err.old err.new disk.old disk.new result }
    ensures told { Telling (TellsSpoilt (IsTrue (D.honest disk.old)) (D.seen disk.old)) (errors_of E.Sink err.old err.new) result }
    ensures statuses { (result ≡ 0) ⊎ ((result ≡ 1) ⊎ ((result ≡ 4) ⊎ ((result ≡ 5) ⊎ (result ≡ 12)))) }
    ensures disk_fault { result ≡ 4 → Rose (D.faults disk.old) (D.faults disk.new) }
    ensures input_fault { result ≡ 5 → Rose (S.fault_count input.old) (S.fault_count input.new) }
    ensures disk { SameDisk D.Disk disk.old disk.new }
{
    let end = run_load(alloc, disk, store, input, !no_overwrite, name);
    tell(alloc, err, &end)
}

// Loads the dump on the input, which is taken as a whole first.
fn run_load<D: Disk, S: Source>(
    alloc: Global,
    disk: &mut D,
    store: Store,
    input: &mut S,
    overwrite: bool,
    renamed: Option<&str>,
) -> End
    requires ready { IsReady store }
    requires none { length store.engine.sessions ≡ 0 }
    requires on { IsTrue (D.honest disk.old) → IsOpenedOn D.Disk disk.old store }
    ensures run { IsTrue (D.honest disk.old) → (content : Content) → EachReads (D.may_leave disk.old) content
        → LoadEnds D.Disk (load_allowed S.Source input.old input.new overwrite (option_map (λ x. x.now) renamed.entry)) (start content) (S.left input.old) (S.left input.new) disk.old disk.new result }
    ensures ends { EndsLoad (IsTrue (D.honest disk.old)) (D.seen disk.old) (Rose (D.faults disk.old) (D.faults disk.new)) (Rose (S.fault_count input.old) (S.fault_count input.new)) result }
    ensures disk { SameDisk D.Disk disk.old disk.new }
{
    let taken = match take_input(alloc, input) {
        Ok(taken) => taken,
        Err(end) => return end,
    };
    let loaded = load_text(
        alloc,
        disk,
        store,
        overwrite,
        renamed,
        taken.text,
        taken.ended,
    );
    end_for(loaded)
}

// How a load ends whose text was loaded, or refused.
fn end_for(loaded: Result<(), Refusal>) -> End
    ensures { result ≡ end_of loaded }
{
    match loaded {
        Ok(()) => End::Through,
        Err(refusal) => End::Stopped(refusal),
    }
}

// Loads the dump that a text is. The text goes once its rows are put: the checkpoint takes its memory
// again.
fn load_text<D: Disk>(
    alloc: Global,
    disk: &mut D,
    store: Store,
    overwrite: bool,
    renamed: Option<&str>,
    text: Vec<u8>,
    ended: bool,
) -> Result<(), Refusal>
    requires ready { IsReady store }
    requires none { length store.engine.sessions ≡ 0 }
    requires on { IsTrue (D.honest disk.old) → IsOpenedOn D.Disk disk.old store }
    requires short { length text.items < 2 ^ 63 }
    requires some { ended ≡ false → 0 < length text.items }
    ensures run { LeavesFrom D.Disk (LoadsText overwrite (option_map (λ x. x.now) renamed.entry) ended text.items) disk.old disk.new result }
    ensures sound { IfErr result (TellsSpoilt (IsTrue (D.honest disk.old)) (D.seen disk.old)) }
    ensures fault { IfErr result (λ r. r ≡ Refusal.DiskFault → Rose (D.faults disk.old) (D.faults disk.new)) }
    ensures disk { SameDisk D.Disk disk.old disk.new }
{
    let mut store = store;
    let dumped = match read_dump(alloc, &text, ended) {
        Ok(dumped) => dumped,
        Err(refusal) => return Err(refusal),
    };
    let table = dumped.table;
    let name = loaded_name(renamed, &table.name);
    match put_all(
        alloc,
        disk,
        &mut store,
        overwrite,
        name,
        table.formats,
        dumped.rows,
    ) {
        Ok(()) => {
            drop(text);
            close(alloc, disk, store)
        }
        Err(refusal) => Err(refusal),
    }
}

// The name of the table: the one that the dump tells, or another one.
fn loaded_name<'a>(renamed: Option<&'a str>, told: &'a Item) -> &'a [u8]
    ensures { result.now ≡ loaded_name (option_map (λ x. x.now) renamed.entry) told.now }
{
    match renamed {
        Some(uri) => after_scheme(uri.as_bytes()),
        None => told.as_bytes(),
    }
}

// Makes the table, and puts the rows in their order, by a session of its own. It stops at the first
// refusal.
fn put_all<D: Disk>(
    alloc: Global,
    disk: &mut D,
    store: &mut Store,
    overwrite: bool,
    name: &[u8],
    formats: Formats,
    rows: DumpRows<'_>,
) -> Result<(), Refusal>
    requires none { length store.old.engine.sessions ≡ 0 }
    requires ready { IsReady store.old }
    ensures led { Leading D.Disk store.old disk.old (λ start first w. LedBy D.Disk start first w store.new disk.old disk.new (LoadsRows name.now formats (demand_of overwrite) rows.entry) ClosesLoad result) }
    ensures went { LoadWent D.Disk store.old store.new disk.old disk.new result }
{
    let mut rows = rows;
    match open_and_make::<D>(alloc, store, name, formats) {
        Ok(()) => {}
        Err(refusal) => return Err(refusal),
    }
    let is_new = has_no_rows(store, name);
    let mut pace = Pace {
        since: 0,
        first: None,
        ascends: true,
    };
    'rows: loop {
        match rows.next(alloc) {
            Ok(Some((key, value))) => {
                let due = is_due(&mut pace, &key, is_new);
                match put_next(alloc, disk, store, overwrite, name, key, value, due) {
                    Ok(()) => {}
                    Err(refusal) => return Err(told_as(refusal, is_new)),
                }
            }
            Ok(None) => return Ok(()),
            Err(_) => return Err(Refusal::NoMemory),
        }
    }
}

// Whether the table of this name has no rows on the device: one leaf, whose link leads to none.
fn has_no_rows(store: &Store, name: &[u8]) -> bool {
    let Some(place) = store.engine.tables().find(name) else {
        return false;
    };
    let Some(table) = store.engine.tables().table(place) else {
        return false;
    };
    let mut leaves = store.engine.leaves().leaves_of(table.number);
    match leaves.next_leaf() {
        None => true,
        Some(leaf) => leaf.entry.link.greatest.id == 0 && leaves.next_leaf().is_none(),
    }
}

// Counts a row. Whether so many were put since rows last went out of memory, of a table that is new,
// each above the first of them. Once one is not, no more go out: a leaf that is put to again and again
// would be read and written as often.
fn is_due(pace: &mut Pace, key: &Item, is_new: bool) -> bool
    ensures { is_new ≡ false → result ≡ false }
{
    if !is_new || !pace.ascends {
        return false;
    }
    let Some(first) = &pace.first else {
        begin(pace, key);
        return false;
    };
    if !is_above(key, first) {
        pace.ascends = false;
        return false;
    }
    if pace.since < ROWS_BETWEEN {
        pace.since += 1;
        return false;
    }
    begin(pace, key);
    true
}

// The row of this key is the first that came since.
fn begin(pace: &mut Pace, key: &Item) {
    pace.since = 1;
    pace.first = key.copy().ok();
}

fn is_above(key: &Item, other: &Item) -> bool {
    order(key.as_bytes(), other.as_bytes()).is_gt()
}

// How it is told that a row was refused. A new table has no leaf to read but those that this load wrote:
// where one of them is damaged, its write is what failed.
fn told_as(refusal: Refusal, is_new: bool) -> Refusal
    ensures new { is_new ≡ true → NoDamage result }
    ensures old { is_new ≡ false → result ≡ refusal }
    ensures undamaged { NoDamage refusal → result ≡ refusal }
    ensures fault { result ≡ Refusal.DiskFault → refusal ≡ Refusal.DiskFault }
{
    match refusal {
        Refusal::Corrupt { offset, .. } => {
            if is_new {
                Refusal::Panic {
                    fault: Fault::Write(offset),
                }
            } else {
                refusal
            }
        }
        _ => refusal,
    }
}

// Opens the session, and makes the table.
fn open_and_make<D: Disk>(
    alloc: Global,
    store: &mut Store,
    name: &[u8],
    formats: Formats,
) -> Result<(), Refusal>
    requires none { length store.old.engine.sessions ≡ 0 }
    ensures led { (disk : D) (demand : Demand) (rows : List Row) → Leading D.Disk store.old disk (λ start first w. LedBy D.Disk start first w store.new disk disk (LoadsRows name.now formats demand rows) (PutsRows name.now demand rows) result) }
    ensures went { (disk : D) → CallWent D.Disk store.old store.new disk disk result }
    ensures there { OnOk result (0 < length store.new.engine.sessions) }
{
    match open::<D>(alloc, store) {
        Ok(()) => make::<D>(alloc, store, name, formats),
        Err(refusal) => Err(refusal),
    }
}

// Puts the next row, and has rows go out of memory first, where that is due.
fn put_next<D: Disk>(
    alloc: Global,
    disk: &mut D,
    store: &mut Store,
    overwrite: bool,
    name: &[u8],
    key: Item,
    value: Item,
    due: bool,
) -> Result<(), Refusal>
    requires there { 0 < length store.old.engine.sessions }
    requires ready { IsReady store.old }
    ensures led { (rows : List Row) → Leading D.Disk store.old disk.old (λ start first w. LedBy D.Disk start first w store.new disk.old disk.new (PutsRows name.now (demand_of overwrite) ((key, value) ∷ rows)) (PutsRows name.now (demand_of overwrite) rows) result) }
    ensures undamaged { Leading D.Disk store.old disk.old (λ start first w. IfErr result NoDamage) }
    ensures went { OutWent D.Disk store.old store.new disk.old disk.new result }
    ensures looked { due ≡ false → CallWent D.Disk store.old store.new disk.old disk.new result }
    ensures there { length store.new.engine.sessions ≡ length store.old.engine.sessions }
{
    let Ok(table) = item_of(alloc, name) else {
        return Err(Refusal::NoMemory);
    };
    match make_room(alloc, disk, store, due) {
        Ok(()) => put_row(alloc, disk, store, overwrite, table, key, value),
        Err(refusal) => Err(refusal),
    }
}

// Has the rows go out of memory that were put, where that is due. What is in the way of it stays, and the
// next call tells of it, but a fault of the disk.
fn make_room<D: Disk>(
    alloc: Global,
    disk: &mut D,
    store: &mut Store,
    due: bool,
) -> Result<(), Refusal>
    ensures out { Leading D.Disk store.old disk.old (λ start first w. WentOut D.Disk start first w store.new disk.old disk.new result) }
    ensures went { OutWent D.Disk store.old store.new disk.old disk.new result }
    ensures fault { IfErr result (λ r. r ≡ Refusal.DiskFault) }
    ensures looked { due ≡ false → CallWent D.Disk store.old store.new disk.old disk.new result }
    ensures there { length store.new.engine.sessions ≡ length store.old.engine.sessions }
{
    if !due {
        return Ok(());
    }
    match store.write_out(alloc, disk) {
        Ok(()) => Ok(()),
        Err(refusal) => {
            if is_disk_fault(refusal) {
                Err(refusal)
            } else {
                Ok(())
            }
        }
    }
}

fn is_disk_fault(refusal: Refusal) -> bool
    ensures yes { IsTrue result → refusal ≡ Refusal.DiskFault }
    ensures no { result ≡ false → refusal ≡ Refusal.DiskFault → ⊥ }
{
    match refusal {
        Refusal::DiskFault => true,
        _ => false,
    }
}

// Puts one row, in a transaction.
fn put_row<D: Disk>(
    alloc: Global,
    disk: &mut D,
    store: &mut Store,
    overwrite: bool,
    table: Item,
    key: Item,
    value: Item,
) -> Result<(), Refusal>
    requires there { 0 < length store.old.engine.sessions }
    requires ready { IsReady store.old }
    ensures led { (rows : List Row) → Leading D.Disk store.old disk.old (λ start first w. LedBy D.Disk start first w store.new disk.old disk.new (PutsRow table (demand_of overwrite) (key, value) (PutsRows table (demand_of overwrite) rows)) (PutsRows table (demand_of overwrite) rows) result) }
    ensures undamaged { Leading D.Disk store.old disk.old (λ start first w. IfErr result NoDamage) }
    ensures went { CallWent D.Disk store.old store.new disk.old disk.new result }
    ensures there { length store.new.engine.sessions ≡ length store.old.engine.sessions }
{
    match call(alloc, disk, store, SessionCall::Begin(None)) {
        Ok(()) => {}
        Err(refusal) => return Err(refusal),
    }
    let put = SessionCall::Put {
        table,
        key,
        value,
        demand: demand_for(overwrite),
    };
    match call(alloc, disk, store, put) {
        Ok(()) => commit(alloc, disk, store),
        Err(refusal) => Err(refusal),
    }
}
