// Reads into the caller's buffers. A function calls the laws that its proof rests on, which do nothing.

ghost use Rattle.std.specs.Prelude.{◌≡◌, ◌≢◌, ◌<◌, ◌≤◌, ℕ, List, None, Some, length, vec_capacity, option_copied, option_map, OnErr, OnOk};
ghost use Rattle.snapshot.specs.Sight.{IsSight, sight_of};
ghost use Rattle.kv_model.specs.History.{named, tables};
ghost use Rattle.tree_dir.specs.Leaves.{leaf_under};
ghost use Rattle.leaf_frame.specs.Looks.{read_at};
ghost use Rattle.engine_world.specs.Stands.{Stands};
ghost use Rattle.engine_world.specs.Worlds.{World};
ghost use Rattle.engine.specs.Reads.{GivenAs, GotAs, IsKeyAway, IsNameOf, ReadsIn, long_key, refused_first, refused_idle, refused_up};
ghost use Rattle.engine.specs.Sound.{IsSound};

use crate::close::is_at_work;
use crate::got::Got;
use crate::local::Local;
use crate::parts::Parts;
use call_steps::{Hub, SessionState, unless_running};
use catalog::{names_turn, places_are_named};
use failure::NoMemory;
use leaf_frame::{FrameRead, LeafFrame, held_reads_stand};
use limits::KEY_MAX;
use stamp::View;
use tree_dir::{Dir, Leaf};
use txn_table::Phase;
use wt_code::{Invalid, Refusal};

impl Local {
    /// The number of the table of this name. `O(log n)` in the tables.
    pub fn table_number(&self, name: &[u8]) -> Option<u32>
        ensures { (w : World) → Stands self.now w → result ≡ option_map (λ t. t.number) (named name.now (tables w.machine.history)) }
    {
        self.parts.table_number(name)
    }

    /// A whole get of a key in the table of this number, as `get` answers it: the value is copied once,
    /// into the buffer in place of what that had. Where there is no such table, it answers as a get of
    /// a name that no table has. Nothing of the engine is changed. A get whose leaf is in no frame is to
    /// be made by `get`. The buffer keeps what it had where nothing is found. `O(log n)` comparisons with
    /// the low keys of n leaves, and as many with the keys of one leaf.
    pub fn get_into(&self, session: u32, table: u32, key: &[u8], value: &mut Vec<u8>) -> Got
        requires { session < length self.now.sessions }
        ensures answer { (w : World) (name : List ℕ) → Stands self.now w → IsNameOf (tables w.machine.history) table name → GotAs result w session name key.now value.new.items }
        ensures away { result ≡ Got.Away → IsKeyAway self.now.hub.dir.leaves table key.now }
        ensures kept { result ≢ Got.Found → value.new.items ≡ value.old.items }
    {
        self.parts.get_into(session, table, key, value)
    }
}

impl Parts {
    fn table_number(&self, name: &[u8]) -> Option<u32>
        ensures { (w : World) → Stands self.now w → result ≡ option_map (λ t. t.number) (named name.now (tables w.machine.history)) }
    {
        names_turn();
        places_are_named();
        let place = self.hub.tables.find(name)?;
        let table = self.hub.tables.table(place)?;
        Some(table.number)
    }

    fn get_into(&self, session: u32, table: u32, key: &[u8], value: &mut Vec<u8>) -> Got
        requires open { session < length self.now.sessions }
        requires sound { IsSound self.now }
        ensures answer { (w : World) (name : List ℕ) → Stands self.now w → IsNameOf (tables w.machine.history) table name → GotAs result w session name key.now value.new.items }
        ensures away { result ≡ Got.Away → IsKeyAway self.now.hub.dir.leaves table key.now }
        ensures kept { result ≢ Got.Found → value.new.items ≡ value.old.items }
    {
        held_reads_stand();
        if let Some(refusal) = refused_first(&self.hub, &self.sessions[session as usize], key) {
            return Got::Refused(refusal);
        }
        match leaf_under(&self.hub.dir, table, key) {
            None => Got::Refused(Refusal::NoTable),
            Some(leaf) => match leaf.frame {
                None => Got::Away,
                Some(framed) => self.read_into(session, framed.frame, key, value),
            },
        }
    }

    // A read of a key by the session's transaction, in the leaf of this frame.
    #[inline(always)]
    fn read_into(&self, session: u32, frame: u32, key: &[u8], value: &mut Vec<u8>) -> Got
        requires open { session < length self.now.sessions }
        requires sound { IsSound self.now }
        ensures reads { ReadsIn self.now session frame key.now result value.new.items }
        ensures here { result ≢ Got.Away }
        ensures kept { result ≢ Got.Found → value.new.items ≡ value.old.items }
    {
        let Some(leaf) = self.leaf_in(frame) else {
            return Got::Refused(Refusal::CacheFull);
        };
        match self.hub.txns.view(session) {
            None => Got::Refused(Refusal::CacheFull),
            Some(view) => give(leaf, &view, key, value),
        }
    }
}

// Why a get is refused before its leaf is sought.
#[inline(always)]
pub(crate) fn refused_first(hub: &Hub, state: &SessionState, key: &[u8]) -> Option<Refusal>
    ensures { result ≡ refused_first hub.now state.now key.now }
{
    if is_at_work(state) {
        return Some(Refusal::Invalid(Invalid::InCall));
    }
    refused_idle(hub, state.phase(), key)
}

#[inline(always)]
fn refused_idle(hub: &Hub, phase: Phase, key: &[u8]) -> Option<Refusal>
    ensures { result ≡ refused_idle hub.now.fault phase key.now }
{
    match hub.fault {
        Some(fault) => Some(Refusal::Panic { fault }),
        None => refused_up(phase, key),
    }
}

#[inline(always)]
fn refused_up(phase: Phase, key: &[u8]) -> Option<Refusal>
    ensures { result ≡ refused_up phase key.now }
{
    match unless_running(phase) {
        Some(reason) => Some(Refusal::Invalid(reason)),
        None => long_key(key),
    }
}

// Whether the key is too long.
#[inline(always)]
fn long_key(key: &[u8]) -> Option<Refusal>
    ensures { result ≡ long_key key.now }
{
    let len = key.len();
    if len > KEY_MAX {
        return Some(Refusal::Invalid(Invalid::KeyLong { len: len as u64 }));
    }
    None
}

// The leaf that has a key of a table.
#[inline(always)]
fn leaf_under<'a>(dir: &'a Dir, table: u32, key: &[u8]) -> Option<&'a Leaf>
    ensures { option_copied result ≡ leaf_under table key.now dir.now.leaves }
{
    // What holds of every directory holds of this one.
    dir.stands();
    let id = dir.leaf_for(table, key)?;
    dir.leaf(id)
}

// What the leaf gives of a key, a value into the buffer.
#[inline(always)]
fn give(leaf: &LeafFrame, view: &View<'_>, key: &[u8], value: &mut Vec<u8>) -> Got
    requires { IsSight (sight_of view.now) }
    ensures gives { GivenAs (read_at view.now key.now leaf.now) result value.new.items }
    ensures here { result ≢ Got.Away }
    ensures kept { result ≢ Got.Found → value.new.items ≡ value.old.items }
{
    match leaf.read(key, view) {
        FrameRead::Found(found) => match copy_over(value, found) {
            Ok(()) => Got::Found,
            Err(NoMemory) => Got::Refused(Refusal::NoMemory),
        },
        FrameRead::Removed | FrameRead::Older => Got::Refused(Refusal::NotFound),
        FrameRead::Conflict(id) => Got::Refused(Refusal::PrepareConflict { id }),
    }
}

// A copy of these bytes in place of what the buffer has. Takes memory where it is too small for them;
// where that is short, it keeps what it has.
#[inline(always)]
fn copy_over(buffer: &mut Vec<u8>, bytes: &[u8]) -> Result<(), NoMemory>
    ensures copied { OnOk result (buffer.new.items ≡ bytes.now) }
    ensures kept { OnErr result (buffer.new.items ≡ buffer.old.items) }
{
    buffer.reserve(bytes.len())?;
    fill(buffer, bytes);
    Ok(())
}

// The same where there is room.
#[inline(always)]
fn fill(buffer: &mut Vec<u8>, bytes: &[u8])
    requires { length bytes.now ≤ vec_capacity buffer.old }
    ensures { buffer.new.items ≡ bytes.now }
{
    buffer.clear();
    let _filled = buffer.extend_from_slice(bytes);
}
