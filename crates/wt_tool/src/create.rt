// `create`: a table is made, where it is not there, and a checkpoint taken.
ghost use Rattle.std.specs.Prelude.{◌≡◌, length, IfErr, IsTrue};
ghost use Rattle.std.specs.Option.{option_map};
ghost use Rattle.failure.specs.Counts.{Rose};
ghost use Rattle.disk_model.specs.Crash.{SameDisk};
ghost use Rattle.kv_model.specs.Calls.{System as BySystem, Create as CreateOf};
ghost use Rattle.engine_store.specs.Opened.{IsReady};
ghost use Rattle.wt_tool.specs.Creates.{RunsCreate};
ghost use Rattle.wt_tool.specs.Led.{CallWent, DoneBy, Leading};
ghost use Rattle.wt_tool.specs.Parts.{IsOpenedOn, LeavesFrom, TellsSpoilt};

use crate::closing::close;
use crate::names::{formats_asked, item_of, name_of};
use ckpt_step::checkpoints_are_kept;
use disk_model::Disk;
use engine_store::Store;
use item::Formats;
use std::alloc::Global;
use wt_calls::SystemCall;
use wt_code::{Answer, Invalid, Refusal};

pub(crate) fn create<D: Disk>(
    alloc: Global,
    disk: &mut D,
    store: Store,
    config: Option<&str>,
    uri: &str,
) -> Result<(), Refusal>
    requires ready { IsReady store }
    requires none { length store.engine.sessions ≡ 0 }
    requires on { IsTrue (D.honest disk.old) → IsOpenedOn D.Disk disk.old store }
    ensures run { LeavesFrom D.Disk (RunsCreate (option_map (λ x. x.now) config.entry) uri.now) disk.old disk.new result }
    ensures sound { IfErr result (TellsSpoilt (IsTrue (D.honest disk.old)) (D.seen disk.old)) }
    ensures fault { IfErr result (λ r. r ≡ Refusal.DiskFault → Rose (D.faults disk.old) (D.faults disk.new)) }
    ensures disk { SameDisk D.Disk disk.old disk.new }
{
    let mut store = store;
    let Some(name) = name_of(uri.as_bytes()) else {
        return Err(Refusal::Invalid(Invalid::BadName));
    };
    let formats = match formats_asked(alloc, config) {
        Ok(formats) => formats,
        Err(refusal) => return Err(refusal),
    };
    match make::<D>(alloc, &mut store, name, formats) {
        Ok(()) => close(alloc, disk, store),
        Err(refusal) => Err(refusal),
    }
}

// Makes the table; the same formats again are no fault.
pub(crate) fn make<D: Disk>(
    alloc: Global,
    store: &mut Store,
    name: &[u8],
    formats: Formats,
) -> Result<(), Refusal>
    ensures led { (disk : D) → Leading D.Disk store.old disk (λ start first w. DoneBy D.Disk start first w store.new disk disk (BySystem 0) (CreateOf name.now formats) result) }
    ensures went { (disk : D) → CallWent D.Disk store.old store.new disk disk result }
    ensures there { length store.new.engine.sessions ≡ length store.old.engine.sessions }
{
    checkpoints_are_kept();
    let Ok(table) = item_of(alloc, name) else {
        return Err(Refusal::NoMemory);
    };
    let create = SystemCall::Create { table, formats };
    match store.call_system::<D>(alloc, 0, create) {
        Answer::Refused(refusal) => Err(refusal),
        _ => Ok(()),
    }
}
