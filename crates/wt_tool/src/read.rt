// `read`: each key's value is printed. A leaf is read where a key in hand would stand, and no other.
ghost use Rattle.std.specs.Prelude.{◌≡◌, ◌↔◌, ◌++◌, ◌∷◌, [], ℕ, List, map, IsTrue, IfErr, OnOk, OnErr};
ghost use Rattle.failure.specs.Counts.{Rose, HasCause};
ghost use Rattle.disk_model.specs.Crash.{Looked};
ghost use Rattle.wt_io.specs.Streams.{Took, TookFront};
ghost use Rattle.kv_model.specs.Content.{Content};
ghost use Rattle.kv_model.specs.Decisions.{is_name};
ghost use Rattle.stored.specs.Stored.{Reads};
ghost use Rattle.device_read.specs.Readers.{IsReaderOf, tables_in};
ghost use Rattle.device_read.specs.Spoilt.{IsSpoiltFrom};
ghost use Rattle.wt_tool.specs.Damaged.{MayGiveOn, ReadsKeysOn, RunsReadOn};
ghost use Rattle.wt_tool.specs.Pages.{IsTableOf};
ghost use Rattle.wt_tool.specs.Parts.{IsReadStatus, IsSoOfLeaves, ReadsFrom};
ghost use Rattle.wt_tool.specs.Top.{Telling, errors_of};

use crate::names::{name_of, stored_as};
use crate::status::Status;
use crate::tables::{TableAt, formats_of, table_named};
use crate::telling::report;
use device_read::{Reader, missing_leaves_are_at_fault, readers_have_tables, readers_have_values};
use disk_model::Disk;
use item::Item;
use item_forms::written_as;
use limits::KEY_MAX;
use std::alloc::Global;
use std::mem::forget;
use wt_code::{Invalid, Refusal};
use wt_io::{Failed, Sink, write_all};

// Prints the value of each key of the table that a uri names.
pub(crate) fn read<D: Disk, K: Sink, E: Sink>(
    alloc: Global,
    disk: &mut D,
    out: &mut K,
    err: &mut E,
    reader: Reader,
    uri: &str,
    keys: &[&str],
) -> u8
    requires on { IsTrue (D.honest disk.old) → IsReaderOf (D.seen disk.old) reader }
    ensures run { ReadsFrom D.Disk K.Sink E.Sink (λ f. RunsReadOn f (D.seen disk.old) uri.now (map (λ s. s.now) keys.now)) disk.old disk.new out.old out.new err.old err.new result }
    ensures told { Telling (IsSoOfLeaves (IsTrue (D.honest disk.old)) (D.seen disk.old)) (errors_of E.Sink err.old err.new) result }
    ensures status { IsReadStatus result }
    ensures disk_fault { result ≡ 4 → Rose (D.faults disk.old) (D.faults disk.new) }
    ensures output_fault { result ≡ 6 → Rose (K.fault_count out.old) (K.fault_count out.new) }
    ensures looked { Looked D.Disk disk.old disk.new }
    ensures home { D.home disk.new ≡ D.home disk.old }
{
    match name_of(uri.as_bytes()) {
        Some(name) => {
            let status = read_named(alloc, disk, out, err, &reader, name, keys);
            // The command ends: the memory of the reader goes back as a whole, with the process.
            forget(reader);
            status
        }
        None => report(alloc, err, &Refusal::Invalid(Invalid::BadName)),
    }
}

fn read_named<D: Disk, K: Sink, E: Sink>(
    alloc: Global,
    disk: &mut D,
    out: &mut K,
    err: &mut E,
    reader: &Reader,
    name: &[u8],
    keys: &[&str],
) -> u8
    requires name { IsTrue (is_name name.now) }
    requires on { IsTrue (D.honest disk.old) → IsReaderOf (D.seen disk.old) reader.now }
    ensures run { ReadsFrom D.Disk K.Sink E.Sink (λ f. ReadsKeysOn f (D.seen disk.old) name.now (map (λ s. s.now) keys.now)) disk.old disk.new out.old out.new err.old err.new result }
    ensures told { Telling (IsSoOfLeaves (IsTrue (D.honest disk.old)) (D.seen disk.old)) (errors_of E.Sink err.old err.new) result }
    ensures status { IsReadStatus result }
    ensures disk_fault { result ≡ 4 → Rose (D.faults disk.old) (D.faults disk.new) }
    ensures output_fault { result ≡ 6 → Rose (K.fault_count out.old) (K.fault_count out.new) }
    ensures looked { Looked D.Disk disk.old disk.new }
    ensures home { D.home disk.new ≡ D.home disk.old }
{
    readers_have_tables();
    let table = table_named(reader, name);
    let formats = formats_of(table);
    let mut status = Status::Done as u8;
    for key in keys {
        match get(alloc, disk, reader, name, table, key) {
            Ok(value) => {
                if print(out, written_as(formats.value, value.as_bytes())).is_err() {
                    let _ = write_all(err, b"output fault\n");
                    return Status::OutputFault as u8;
                }
            }
            Err(refusal) => {
                let told = report(alloc, err, &refusal);
                if told == Status::NoMemory as u8 || !is_absence(&refusal) {
                    return told;
                }
                status = told;
            }
        }
    }
    status
}

// The value of the key of a word. Where there are two reasons to refuse it, it is refused as a get is:
// for the length of the key first, then for want of the table.
fn get<D: Disk>(
    alloc: Global,
    disk: &mut D,
    reader: &Reader,
    name: &[u8],
    table: Option<TableAt>,
    key: &str,
) -> Result<Item, Refusal>
    requires name { IsTrue (is_name name.now) }
    requires table { IsTableOf (tables_in reader.now) name.now table }
    requires on { IsTrue (D.honest disk.old) → IsReaderOf (D.seen disk.old) reader.now }
    ensures gives { IsTrue (D.honest disk.old) → (whole : List ℕ) (content : Content) → Reads whole content → IsSpoiltFrom whole (D.seen disk.old) → MayGiveOn content (D.seen disk.old) name.now key.now (D.faults disk.old) (D.faults disk.new) result }
    ensures sound { IfErr result (IsSoOfLeaves (IsTrue (D.honest disk.old)) (D.seen disk.old)) }
    ensures fault { IfErr result (λ r. r ≡ Refusal.DiskFault → Rose (D.faults disk.old) (D.faults disk.new)) }
    ensures looked { Looked D.Disk disk.old disk.new }
    ensures home { D.home disk.new ≡ D.home disk.old }
{
    readers_have_tables();
    readers_have_values();
    missing_leaves_are_at_fault();
    let _named = name;
    let Ok(key) = stored_as(alloc, formats_of(table).key, key) else {
        return Err(Refusal::NoMemory);
    };
    let key = key.as_bytes();
    if key.len() > KEY_MAX {
        return Err(Refusal::Invalid(Invalid::KeyLong {
            len: key.len() as u64,
        }));
    }
    let Some(table) = table else {
        return Err(Refusal::NoTable);
    };
    match reader.get(alloc, disk, table.place, key) {
        Ok(Some(value)) => Ok(value),
        Ok(None) => Err(Refusal::NotFound),
        Err(refusal) => Err(refusal),
    }
}

// Whether it tells that there is no such key.
fn is_absence(refusal: &Refusal) -> bool
    ensures { IsTrue result ↔ (refusal.now ≡ Refusal.NotFound) }
{
    match refusal {
        Refusal::NotFound => true,
        _ => false,
    }
}

// Prints a text and a newline.
fn print<K: Sink>(out: &mut K, text: &[u8]) -> Result<(), Failed>
    ensures ok { OnOk result (Took (K.written out.old) (K.written out.new) (text.now ++ 10 ∷ [])) }
    ensures err { OnErr result (TookFront (K.written out.old) (K.written out.new) (text.now ++ 10 ∷ [])) }
    ensures cause { HasCause (K.fault_count out.old) (K.fault_count out.new) result }
{
    write_all(out, text)?;
    write_all(out, b"\n")
}
