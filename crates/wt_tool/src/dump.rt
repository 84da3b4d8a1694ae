// `dump`: the rows of a table are printed, leaf by leaf.
ghost use Rattle.std.specs.Prelude.{◌≡◌, ◌⊎◌, ◌≤◌, ◌<◌, ◌∷◌, ◌++◌, [], ℕ, List, Some, slice_get, length, IsTrue, OnErr, IfErr};
ghost use Rattle.failure.specs.Counts.{Rose};
ghost use Rattle.disk_model.specs.Crash.{Looked};
ghost use Rattle.kv_model.specs.Content.{Content};
ghost use Rattle.row_page.specs.Rows.{Row};
ghost use Rattle.row_page.specs.Views.{row_seen};
ghost use Rattle.stored.specs.Stored.{Reads};
ghost use Rattle.device_read.specs.Lent.{lent_rows};
ghost use Rattle.device_read.specs.Readers.{IsReaderOf, HasPages, leaf_count, tables_in};
ghost use Rattle.device_read.specs.Rows.{HasTables, put_row, put_rows};
ghost use Rattle.dump_text.specs.Written.{row_lines, text_of};
ghost use Rattle.device_read.specs.Spoilt.{IsSpoiltFrom};
ghost use Rattle.wt_tool.specs.Damaged.{RunsDumpOn, device_on};
ghost use Rattle.wt_tool.specs.Dumps.{form_of, way_of};
ghost use Rattle.wt_tool.specs.Pages.{CutsOff, EndsAtLeaf, EndsBy, EndsSoundly, IsLeft, LacksLeaf, PutsBehind, PutsLeaf, TableEndsBy, UriEndsBy, UriLacksLeaf, along, place_on, rows_on, rows_text};
ghost use Rattle.wt_tool.specs.Parts.{IsReadStatus, IsSoOfLeaves, ReadsFrom};
ghost use Rattle.wt_tool.specs.Top.{Telling, errors_of};

use crate::names::name_of;
use crate::tables::table_named;
use crate::telling::tell;
use device_read::{
    LeafRows, OpenedLeaf, Reader, missing_leaves_are_at_fault, readers_have_pages,
    readers_have_tables,
};
use disk_model::Disk;
use dump_text::{Form, dump_head, push_pair};
use row_page::{Cell, CellChange};
use script_run::End;
use std::alloc::Global;
use std::mem::forget;
use wt_code::{Invalid, Refusal};
use wt_io::{Sink, write_all};

// The text is written once it has so many bytes.
const PIECE: usize = 65_536;

// How rows are printed.
#[derive(Clone, Copy, Debug, PartialEq, Eq)]
struct Manner {
    form: Form,
    // From the greatest key downwards.
    reverse: bool,
}

// Prints the rows of the table that a uri names. Each leaf is read once, when the rows before it are
// printed or wait in the text.
pub(crate) fn dump<D: Disk, K: Sink, E: Sink>(
    alloc: Global,
    disk: &mut D,
    out: &mut K,
    err: &mut E,
    reader: Reader,
    hex: bool,
    reverse: bool,
    uri: &str,
) -> u8
    requires on { IsTrue (D.honest disk.old) → IsReaderOf (D.seen disk.old) reader }
    ensures run { ReadsFrom D.Disk K.Sink E.Sink (λ f. RunsDumpOn f (D.seen disk.old) (form_of hex) (way_of reverse) uri.now) disk.old disk.new out.old out.new err.old err.new result }
    ensures told { Telling (IsSoOfLeaves (IsTrue (D.honest disk.old)) (D.seen disk.old)) (errors_of E.Sink err.old err.new) result }
    ensures status { IsReadStatus result }
    ensures disk_fault { result ≡ 4 → Rose (D.faults disk.old) (D.faults disk.new) }
    ensures output_fault { result ≡ 6 → Rose (K.fault_count out.old) (K.fault_count out.new) }
    ensures looked { Looked D.Disk disk.old disk.new }
    ensures home { D.home disk.new ≡ D.home disk.old }
{
    let manner = Manner {
        form: form_for(hex),
        reverse,
    };
    let end = print_uri(alloc, disk, out, &reader, uri, manner);
    // The command ends: the memory of the reader goes back as a whole, with the process.
    forget(reader);
    tell(alloc, err, &end)
}

// How items are written.
fn form_for(hex: bool) -> Form
    ensures { result ≡ form_of hex }
{
    if hex { Form::Hex } else { Form::Print }
}

// Prints the rows of the table that a uri names.
fn print_uri<D: Disk, K: Sink>(
    alloc: Global,
    disk: &mut D,
    out: &mut K,
    reader: &Reader,
    uri: &str,
    manner: Manner,
) -> End
    requires on { IsTrue (D.honest disk.old) → IsReaderOf (D.seen disk.old) reader.now }
    ensures run { IsTrue (D.honest disk.old) → (whole : List ℕ) (content : Content) → Reads whole content → IsSpoiltFrom whole (D.seen disk.old)
        → UriEndsBy (Rose (K.fault_count out.old) (K.fault_count out.new)) (device_on D.Disk whole disk.old) (device_on D.Disk whole disk.new) content manner.form (way_of manner.reverse) uri.now (K.written out.old) (K.written out.new) result
        ⊎ UriLacksLeaf (D.seen disk.old) content manner.form (way_of manner.reverse) uri.now (K.written out.old) (K.written out.new) result }
    ensures sound { EndsSoundly (Rose (K.fault_count out.old) (K.fault_count out.new)) (Rose (D.faults disk.old) (D.faults disk.new)) (IsTrue (D.honest disk.old)) (D.seen disk.old) result }
    ensures looked { Looked D.Disk disk.old disk.new }
    ensures home { D.home disk.new ≡ D.home disk.old }
{
    match name_of(uri.as_bytes()) {
        Some(name) => print_table(alloc, disk, out, reader, name, manner),
        None => End::Stopped(Refusal::Invalid(Invalid::BadName)),
    }
}

// Prints the rows of the table of this name.
fn print_table<D: Disk, K: Sink>(
    alloc: Global,
    disk: &mut D,
    out: &mut K,
    reader: &Reader,
    name: &[u8],
    manner: Manner,
) -> End
    requires on { IsTrue (D.honest disk.old) → IsReaderOf (D.seen disk.old) reader.now }
    ensures run { IsTrue (D.honest disk.old) → (whole : List ℕ) (content : Content) → Reads whole content → IsSpoiltFrom whole (D.seen disk.old)
        → TableEndsBy (Rose (K.fault_count out.old) (K.fault_count out.new)) (device_on D.Disk whole disk.old) (device_on D.Disk whole disk.new) content manner.form (way_of manner.reverse) name.now (K.written out.old) (K.written out.new) result
        ⊎ LacksLeaf (D.seen disk.old) content manner.form (way_of manner.reverse) name.now (K.written out.old) (K.written out.new) result }
    ensures sound { EndsSoundly (Rose (K.fault_count out.old) (K.fault_count out.new)) (Rose (D.faults disk.old) (D.faults disk.new)) (IsTrue (D.honest disk.old)) (D.seen disk.old) result }
    ensures looked { Looked D.Disk disk.old disk.new }
    ensures home { D.home disk.new ≡ D.home disk.old }
{
    readers_have_tables();
    readers_have_pages();
    let Some(table) = table_named(reader, name) else {
        return End::Stopped(Refusal::NoTable);
    };
    match dump_head(alloc, manner.form, name, table.formats) {
        Ok(head) => print_leaves(alloc, disk, out, reader, table.place, manner, head),
        Err(_) => End::Stopped(Refusal::NoMemory),
    }
}

// Prints the lines before the rows, and then the rows of each leaf.
fn print_leaves<D: Disk, K: Sink>(
    alloc: Global,
    disk: &mut D,
    out: &mut K,
    reader: &Reader,
    place: usize,
    manner: Manner,
    head: Vec<u8>,
) -> End
    requires on { IsTrue (D.honest disk.old) → IsReaderOf (D.seen disk.old) reader.now }
    ensures run { IsTrue (D.honest disk.old) → (whole : List ℕ) → IsSpoiltFrom whole (D.seen disk.old) → (pages : List (List Row)) → HasPages whole reader.now place pages → length pages ≡ leaf_count reader.now place
        → EndsBy (Rose (K.fault_count out.old) (K.fault_count out.new)) (Rose (D.faults disk.old) (D.faults disk.new)) (K.written out.old) (K.written out.new) (head.items ++ rows_text manner.form (rows_on (way_of manner.reverse) pages)) result
        ⊎ EndsAtLeaf (D.seen disk.old) reader.now place manner.form (way_of manner.reverse) head.items pages (K.written out.old) (K.written out.new) result }
    ensures sound { EndsSoundly (Rose (K.fault_count out.old) (K.fault_count out.new)) (Rose (D.faults disk.old) (D.faults disk.new)) (IsTrue (D.honest disk.old)) (D.seen disk.old) result }
    ensures looked { Looked D.Disk disk.old disk.new }
    ensures home { D.home disk.new ≡ D.home disk.old }
{
    let count = reader.leaves(place);
    let mut text = head;
    for passed in 0..count {
        let i = place_on(manner.reverse, count, passed);
        match print_leaf(alloc, disk, out, &mut text, reader, place, i, manner) {
            Ok(()) => {}
            Err(end) => return end,
        }
    }
    print_rest(out, &text)
}

// Where the next one is found, of so many, behind those that were passed.
fn place_on(reverse: bool, count: usize, passed: usize) -> usize
    requires { passed < count }
    ensures is { result ≡ place_on (way_of reverse) count passed }
    ensures within { result < count }
{
    if reverse { count - 1 - passed } else { passed }
}

// Prints the rows of a leaf. The error is how the run ends.
fn print_leaf<D: Disk, K: Sink>(
    alloc: Global,
    disk: &mut D,
    out: &mut K,
    text: &mut Vec<u8>,
    reader: &Reader,
    place: usize,
    i: usize,
    manner: Manner,
) -> Result<(), End>
    requires on { IsTrue (D.honest disk.old) → IsReaderOf (D.seen disk.old) reader.now }
    requires there { i < leaf_count reader.now place }
    ensures run { IsTrue (D.honest disk.old) → (whole : List ℕ) → IsSpoiltFrom whole (D.seen disk.old) → (pages : List (List Row)) → HasPages whole reader.now place pages → (page : List Row) → slice_get pages i ≡ Some page
        → PutsLeaf (Rose (K.fault_count out.old) (K.fault_count out.new)) (Rose (D.faults disk.old) (D.faults disk.new)) (D.seen disk.old) reader.now place i (K.written out.old) (K.written out.new) text.old.items text.new.items (rows_text manner.form (put_rows (along (way_of manner.reverse) page))) result }
    ensures sound { IfErr result (EndsSoundly (Rose (K.fault_count out.old) (K.fault_count out.new)) (Rose (D.faults disk.old) (D.faults disk.new)) (IsTrue (D.honest disk.old)) (D.seen disk.old)) }
    ensures later { K.fault_count out.old ≤ K.fault_count out.new }
    ensures looked { Looked D.Disk disk.old disk.new }
    ensures home { D.home disk.new ≡ D.home disk.old }
{
    missing_leaves_are_at_fault();
    match reader.leaf(alloc, disk, place, i) {
        Ok(leaf) => print_page(alloc, out, text, &leaf, manner),
        Err(refusal) => Err(End::Stopped(refusal)),
    }
}

// Prints the rows of a page.
fn print_page<K: Sink>(
    alloc: Global,
    out: &mut K,
    text: &mut Vec<u8>,
    page: &OpenedLeaf<'_>,
    manner: Manner,
) -> Result<(), End>
    ensures printed { PutsBehind (Rose (K.fault_count out.old) (K.fault_count out.new)) ⊥ (K.written out.old) (K.written out.new) text.old.items text.new.items (rows_text manner.form (put_rows (along (way_of manner.reverse) page.now))) result }
    ensures later { K.fault_count out.old ≤ K.fault_count out.new }
{
    match page.rows(alloc) {
        Ok(rows) => print_rows(alloc, out, text, &rows, manner),
        Err(_) => Err(End::Stopped(Refusal::NoMemory)),
    }
}

// Prints rows. `O(bytes)`, and nothing is copied but into the text.
fn print_rows<K: Sink>(
    alloc: Global,
    out: &mut K,
    text: &mut Vec<u8>,
    page: &LeafRows<'_>,
    manner: Manner,
) -> Result<(), End>
    ensures printed { PutsBehind (Rose (K.fault_count out.old) (K.fault_count out.new)) ⊥ (K.written out.old) (K.written out.new) text.old.items text.new.items (rows_text manner.form (put_rows (along (way_of manner.reverse) (lent_rows page.now)))) result }
    ensures later { K.fault_count out.old ≤ K.fault_count out.new }
{
    let count = page.len();
    for passed in 0..count {
        let cell = page.cell(place_on(manner.reverse, count, passed));
        match print_cell(alloc, out, text, manner.form, &cell) {
            Ok(()) => {}
            Err(end) => return Err(end),
        }
    }
    Ok(())
}

// Prints a row, where its key was not removed.
fn print_cell<K: Sink>(
    alloc: Global,
    out: &mut K,
    text: &mut Vec<u8>,
    form: Form,
    cell: &Cell<'_>,
) -> Result<(), End>
    ensures printed { PutsBehind (Rose (K.fault_count out.old) (K.fault_count out.new)) ⊥ (K.written out.old) (K.written out.new) text.old.items text.new.items (rows_text form (put_row (row_seen cell.now))) result }
    ensures later { K.fault_count out.old ≤ K.fault_count out.new }
{
    match cell.change {
        CellChange::Put(value) => print_row(alloc, out, text, form, cell.key, value),
        CellChange::Remove => Ok(()),
    }
}

// Puts a row behind the text, and prints the text once it is long. The error is how the run ends.
fn print_row<K: Sink>(
    alloc: Global,
    out: &mut K,
    text: &mut Vec<u8>,
    form: Form,
    key: &[u8],
    value: &[u8],
) -> Result<(), End>
    ensures printed { PutsBehind (Rose (K.fault_count out.old) (K.fault_count out.new)) ⊥ (K.written out.old) (K.written out.new) text.old.items text.new.items (text_of (row_lines form (key.now, value.now))) result }
    ensures later { K.fault_count out.old ≤ K.fault_count out.new }
{
    if push_pair(alloc, text, form, key, value).is_err() {
        return Err(End::Stopped(Refusal::NoMemory));
    }
    if text.len() < PIECE {
        return Ok(());
    }
    if write_all(out, text).is_err() {
        return Err(End::OutputFailed);
    }
    text.clear();
    Ok(())
}

// Prints what is left.
fn print_rest<K: Sink>(out: &mut K, text: &[u8]) -> End
    ensures printed { EndsBy (Rose (K.fault_count out.old) (K.fault_count out.new)) ⊥ (K.written out.old) (K.written out.new) text.now result }
    ensures later { K.fault_count out.old ≤ K.fault_count out.new }
{
    match write_all(out, text) {
        Ok(()) => End::Through,
        Err(_) => End::OutputFailed,
    }
}
