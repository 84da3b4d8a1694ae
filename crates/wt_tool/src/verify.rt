// `verify`: the whole device is read, and the table has to be there. No engine is made of it.
ghost use Rattle.std.specs.Prelude.{◌≡◌, ◌⊎◌, [], Option, bytes_eq, Some, IfOk, IfErr, IsTrue};
ghost use Rattle.std.specs.Option.{option_map};
ghost use Rattle.std.specs.List.{list_any};
ghost use Rattle.failure.specs.Counts.{Rose};
ghost use Rattle.disk_model.specs.Crash.{Looked};
ghost use Rattle.kv_model.specs.Content.{Content, start};
ghost use Rattle.stored.specs.Stored.{Reads};
ghost use Rattle.tree_open.specs.Damage.{Refused};
ghost use Rattle.recover_open.specs.Wholes.{IsWholeDamage};
ghost use Rattle.verify_dev.specs.Reports.{IsExamined};
ghost use Rattle.wt_tool.specs.Parts.{IsOfAttach, silent_run};
ghost use Rattle.wt_tool.specs.Points.{Point, point_of};
ghost use Rattle.wt_tool.specs.Verifies.{RunsVerify, LooksFor, AreTablesOf, tables_in};

use crate::names::name_of;
use checkpoint_record::{Record, TableRoot};
use disk_model::{Home, Unattached};
use std::alloc::Global;
use verify_dev::{Examined, examine};
use wt_code::{Invalid, Refusal};

// Attaches the disk, reads all that it has, and looks for the table, where there is a uri. It
// changes nothing, and keeps no row. `O(bytes)`.
pub(crate) fn verify<D: Home>(
    alloc: Global,
    disk: &mut D,
    home: &str,
    uri: Option<&str>,
) -> Result<(), Refusal>
    ensures run { IsTrue (D.honest disk.old) → (content : Content) → Reads (D.seen disk.old) content → RunsVerify (option_map (λ x. x.now) uri.entry) (point_of D.Disk (start content) disk.old) (silent_run result [] (point_of D.Disk (start content) disk.new)) }
    ensures ok { IsTrue (D.honest disk.old) → IfOk result (λ done. (content : Content) × Reads (D.seen disk.old) content) }
    ensures err { IfErr result (λ r. Refused (Rose (D.faults disk.old) (D.faults disk.new)) (IsTrue (D.honest disk.old)) (IsWholeDamage (D.seen disk.old)) r ⊎ ((r ≡ Refusal.Invalid Invalid.BadName) ⊎ (r ≡ Refusal.NoTable))) }
    ensures told { IfOk result (λ done. D.home disk.new ≡ Some home.now) }
    ensures untold { (D.home disk.new ≡ Some home.now) ⊎ ((D.home disk.new ≡ D.home disk.old) × IfErr result IsOfAttach) }
    ensures looked { Looked D.Disk disk.old disk.new }
{
    match read_through(alloc, disk, home) {
        Ok(found) => check(&found.record, uri),
        Err(refusal) => Err(refusal),
    }
}

// Attaches the disk, and reads all that it has.
fn read_through<D: Home>(alloc: Global, disk: &mut D, home: &str) -> Result<Examined, Refusal>
    ensures ok { IsTrue (D.honest disk.old) → IfOk result (IsExamined (D.seen disk.old)) }
    ensures err { IfErr result (Refused (Rose (D.faults disk.old) (D.faults disk.new)) (IsTrue (D.honest disk.old)) (IsWholeDamage (D.seen disk.old))) }
    ensures told { IfOk result (λ found. D.home disk.new ≡ Some home.now) }
    ensures untold { (D.home disk.new ≡ Some home.now) ⊎ ((D.home disk.new ≡ D.home disk.old) × IfErr result IsOfAttach) }
    ensures looked { Looked D.Disk disk.old disk.new }
{
    match disk.attach(alloc, home) {
        Ok(()) => examine(alloc, disk),
        Err(Unattached::Failed) => Err(Refusal::DiskFault),
        Err(Unattached::NoMemory) => Err(Refusal::NoMemory),
    }
}

// Whether the table of the uri is in the record, where there is a uri. `O(n)` in the tables.
fn check(found: &Option<Record>, uri: Option<&str>) -> Result<(), Refusal>
    ensures run { (p : Point) → AreTablesOf p.machine (tables_in found.now) → LooksFor (option_map (λ x. x.now) uri.entry) p (silent_run result [] p) }
    ensures sound { IfErr result (λ r. (r ≡ Refusal.Invalid Invalid.BadName) ⊎ (r ≡ Refusal.NoTable)) }
{
    let Some(uri) = uri else {
        return Ok(());
    };
    let Some(name) = name_of(uri.as_bytes()) else {
        return Err(Refusal::Invalid(Invalid::BadName));
    };
    if is_there(found, name) {
        Ok(())
    } else {
        Err(Refusal::NoTable)
    }
}

// Whether the record has a table of this name.
fn is_there(found: &Option<Record>, name: &[u8]) -> bool
    ensures { result ≡ list_any (λ t. bytes_eq t.name name.now) (tables_in found.now) }
{
    match found {
        Some(found) => is_among(tables_of(found), name),
        None => false,
    }
}

fn tables_of(found: &Record) -> &[TableRoot]
    ensures { result.now ≡ found.now.tables }
{
    &found.tables
}

fn is_among(tables: &[TableRoot], name: &[u8]) -> bool
    ensures { result ≡ list_any (λ t. bytes_eq t.table.name name.now) tables.now }
{
    tables
        .iter()
        .any(|table| table.table.name.as_bytes() == name)
}
