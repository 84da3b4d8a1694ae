// `list`: the names of all tables are printed.
ghost use Rattle.std.specs.Prelude.{◌≡◌, ◌⊎◌, ◌++◌, ◌∷◌, [], codes, map, IfOk, OnOk};
ghost use Rattle.failure.specs.Counts.{Rose};
ghost use Rattle.kv_model.specs.Content.{Content, start};
ghost use Rattle.kv_model.specs.History.{Table};
ghost use Rattle.device_read.specs.Readers.{tables_in};
ghost use Rattle.device_read.specs.Rows.{HasTables};
ghost use Rattle.engine_store.specs.Devices.{Device};
ghost use Rattle.wt_tool.specs.Lists.{RunsList, names_text};
ghost use Rattle.wt_tool.specs.Parts.{NoDamage, Reading, at};
ghost use Rattle.wt_tool.specs.Top.{Telling, errors_of};

use crate::status::Status;
use crate::telling::report;
use device_read::Reader;
use failure::NoMemory;
use std::alloc::Global;
use std::mem::forget;
use wt_code::Refusal;
use wt_io::{Sink, write_all};

// Prints the names of the reader's tables.
pub(crate) fn list<K: Sink, E: Sink>(alloc: Global, out: &mut K, err: &mut E, reader: Reader) -> u8
    ensures run { (content : Content) (d : Device) → HasTables content (tables_in reader) → Reading (RunsList (Rose (K.fault_count out.old) (K.fault_count out.new))) (at d (start content)) d (K.written out.old) (K.written out.new) (errors_of E.Sink err.old err.new) result }
    ensures told { Telling NoDamage (errors_of E.Sink err.old err.new) result }
    ensures status { (result ≡ 0) ⊎ ((result ≡ 6) ⊎ (result ≡ 12)) }
    ensures output_fault { result ≡ 6 → Rose (K.fault_count out.old) (K.fault_count out.new) }
{
    let status = print_names(alloc, out, err, &reader);
    // The command ends: the memory of the reader goes back as a whole, with the process.
    forget(reader);
    status
}

// Prints the names, in one write.
fn print_names<K: Sink, E: Sink>(alloc: Global, out: &mut K, err: &mut E, reader: &Reader) -> u8
    ensures run { (content : Content) (d : Device) → HasTables content (tables_in reader.now) → Reading (RunsList (Rose (K.fault_count out.old) (K.fault_count out.new))) (at d (start content)) d (K.written out.old) (K.written out.new) (errors_of E.Sink err.old err.new) result }
    ensures told { Telling NoDamage (errors_of E.Sink err.old err.new) result }
    ensures status { (result ≡ 0) ⊎ ((result ≡ 6) ⊎ (result ≡ 12)) }
    ensures output_fault { result ≡ 6 → Rose (K.fault_count out.old) (K.fault_count out.new) }
{
    let Ok(text) = text_of(alloc, reader) else {
        return report(alloc, err, &Refusal::NoMemory);
    };
    if write_all(out, &text).is_err() {
        let _ = write_all(err, b"output fault\n");
        return Status::OutputFault as u8;
    }
    Status::Done as u8
}

// The line of each table, in the order of their names. The error is want of memory. `O(bytes)`.
fn text_of(alloc: Global, reader: &Reader) -> Result<Vec<u8>, NoMemory>
    ensures { IfOk result (λ text. text.items ≡ names_text (map {A = Table} (λ t. t.name) (tables_in reader.now))) }
{
    let mut text = Vec::new(alloc);
    for place in 0..reader.len() {
        if let Some(found) = reader.table(place) {
            push_line(&mut text, found.name.as_bytes())?;
        }
    }
    Ok(text)
}

fn push_line(text: &mut Vec<u8>, name: &[u8]) -> Result<(), NoMemory>
    ensures { OnOk result (text.new.items ≡ text.old.items ++ (codes "table:" ++ name.now ++ 10 ∷ [])) }
{
    text.extend_from_slice(b"table:")?;
    text.extend_from_slice(name)?;
    text.extend_from_slice(b"\n")?;
    Ok(())
}
