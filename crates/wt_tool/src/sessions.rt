// The calls of a command's one session.
ghost use Rattle.std.specs.Prelude.{◌≡◌, ◌<◌, length, IfErr, OnOk};
ghost use Rattle.kv_model.specs.Calls.{Session as BySession};
ghost use Rattle.wt_calls.specs.Calls.{session_call_in};
ghost use Rattle.engine_world.specs.Stands.{Stands};
ghost use Rattle.engine_world.specs.Worlds.{World};
ghost use Rattle.wt_tool.specs.Led.{DoneBy, IsWord, Leading, OpenedBy, CallWent};
ghost use Rattle.wt_tool.specs.Openings.{formats_at};
ghost use Rattle.wt_tool.specs.Parts.{NoDamage};
ghost use Rattle.engine_store.specs.Opened.{IsReady};

use crate::names::plain_formats;
use ckpt_step::checkpoints_are_kept;
use disk_model::Disk;
use engine_store::Store;
use item::Formats;
use std::alloc::Global;
use wt_calls::SessionCall;
use wt_code::{Answer, Refusal};

// Opens the session, of a store without any.
pub(crate) fn open<D: Disk>(alloc: Global, store: &mut Store) -> Result<(), Refusal>
    requires none { length store.old.engine.sessions ≡ 0 }
    ensures led { (disk : D) → Leading D.Disk store.old disk (λ start first w. OpenedBy D.Disk start first w store.new disk disk result) }
    ensures went { (disk : D) → CallWent D.Disk store.old store.new disk disk result }
    ensures there { OnOk result (0 < length store.new.engine.sessions) }
{
    checkpoints_are_kept();
    match store.open_session::<D>(alloc) {
        Ok(_) => Ok(()),
        Err(refusal) => Err(refusal),
    }
}

// A call of the session, of which nothing is wanted but that it is done.
#[inline(always)]
pub(crate) fn call<D: Disk>(
    alloc: Global,
    disk: &mut D,
    store: &mut Store,
    call: SessionCall,
) -> Result<(), Refusal>
    requires word { IsWord (session_call_in call) }
    requires there { 0 < length store.old.engine.sessions }
    requires ready { IsReady store.old }
    ensures led { Leading D.Disk store.old disk.old (λ start first w. DoneBy D.Disk start first w store.new disk.old disk.new (BySession 0) (session_call_in call) result) }
    ensures undamaged { Leading D.Disk store.old disk.old (λ start first w. IfErr result NoDamage) }
    ensures went { CallWent D.Disk store.old store.new disk.old disk.new result }
    ensures there { length store.new.engine.sessions ≡ length store.old.engine.sessions }
{
    checkpoints_are_kept();
    match store.call(alloc, disk, 0, call) {
        Answer::Refused(refusal) => Err(refusal),
        _ => Ok(()),
    }
}

// The formats of the table of this name; where there is none, words are taken as they are.
pub(crate) fn formats_for(store: &Store, name: &[u8]) -> Formats
    ensures { (w : World) → Stands store.now.engine w → result ≡ formats_at w.machine name.now }
{
    store.engine.formats_of(name).unwrap_or(plain_formats())
}
