// What the trees of the tables have above their leaves.
ghost use Rattle.std.specs.Prelude.{◌≡◌, ◌++◌, [], ◌∷◌, length, IfOk, IfErr, OnOk, IsTrue};
ghost use Rattle.failure.specs.Counts.{Rose};
ghost use Rattle.disk_model.specs.Crash.{Looked};
ghost use Rattle.recover_open.specs.Bare.{HaveUppers, AllClimb};
ghost use Rattle.recover_open.specs.Recoveries.{TreesRefused};
ghost use Rattle.recover_open.specs.Surveys.{CanHaveUppers, IsOfDisk};

use crate::trees::root_of;
use checkpoint_record::TableRoot;
use disk_model::Disk;
use failure::NoMemory;
use std::alloc::Global;
use tree_open::{Upper, read_tree};
use wt_code::Refusal;

// By table: what its tree has above its leaves. `O(bytes)` of the inner pages, each read once.
pub(crate) fn read_uppers<D: Disk>(
    alloc: Global,
    disk: &mut D,
    tables: &[TableRoot],
) -> Result<Vec<Upper>, Refusal>
    ensures ok { IsTrue (D.honest disk.old) → IfOk result (λ v. HaveUppers (D.seen disk.old) tables.now v.items) }
    ensures climb { IfOk result (λ v. AllClimb v.items) }
    ensures count { IfOk result (λ v. length v.items ≡ length tables.now) }
    ensures err { IfErr result (TreesRefused (Rose (D.faults disk.old) (D.faults disk.new)) (IsTrue (D.honest disk.old)) (D.seen disk.old) tables.now) }
    ensures sole { IsTrue (D.honest disk.old) → CanHaveUppers (D.seen disk.old) tables.now → IfErr result IsOfDisk }
    ensures looked { Looked D.Disk disk.old disk.new }
    ensures home { D.home disk.new ≡ D.home disk.old }
{
    let mut uppers = Vec::new(alloc);
    for table in tables {
        let upper = match read_tree(alloc, disk, root_of(table)) {
            Ok(upper) => upper,
            Err(refusal) => return Err(refusal),
        };
        match put_upper(&mut uppers, upper) {
            Ok(()) => {}
            Err(NoMemory) => return Err(Refusal::NoMemory),
        }
    }
    Ok(uppers)
}

fn put_upper(uppers: &mut Vec<Upper>, upper: Upper) -> Result<(), NoMemory>
    ensures { OnOk result (uppers.new.items ≡ uppers.old.items ++ upper ∷ []) }
{
    match uppers.push(upper) {
        Ok(()) => Ok(()),
        Err(_) => Err(NoMemory),
    }
}
