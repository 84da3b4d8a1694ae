// A disk in memory. It keeps what it had at first, and each call.
ghost use Rattle.std.specs.Prelude.{◌≡◌, ◌⊎◌, ◌+◌, ◌<◌, ◌≤◌, ◌++◌, [], ◌∷◌, List, ℕ, Some, length, take, drop, true, false, IfOk, IfErr, OnOk, OnErr, IsOk, IsErr, IsTrue, vec_len, vec_capacity};
ghost use Rattle.std.specs.Option.{option_map};
ghost use Rattle.std.specs.String.{string_bytes};
ghost use Rattle.failure.specs.Counts.{Rose, HasCause, count_after};
ghost use Rattle.disk_model.specs.Disk.{put, Only, NoMore, Follows, Torn};
ghost use Rattle.disk_model.specs.Images.{Medium, fresh, is_stopped, fails, Turned, look_of, content, May, Time, content_after, content_of, MayLeave, LeftSince, Grew, Same, Went};
ghost use Rattle.disk_model.specs.Laws.{seen_left, now_since, since_now};

use crate::content::overwrite;
use crate::image::image_of;
use crate::{Call, Disk, Home, Look, Unattached};
use failure::{Failed, NoMemory, count_failure};
use std::alloc::Global;
use std::marker::Model;

/// A disk in memory, always honest. Contracts see it as a `Medium`: what it had at first, the
/// calls since, and its counts.
///
/// Each call but `capacity` and `faults` has a number, from 0 on. Those in the list `failing`
/// fail, and those from the number that `stop_after` was given on. No other call fails, but a write
/// or a sync that finds no memory for its record. A failed write leaves the content as it was; a
/// crash may then leave any part of it. The capacity is only told.
#[derive(Drop)]
pub struct MemDisk {
    alloc: Global,
    first: Vec<u8>,
    bytes: Vec<u8>,
    calls: Vec<Call>,
    failing: Vec<u64>,
    stop: Option<u64>,
    made: u64,
    faults: u64,
    capacity: u64,
    home: Option<String>,
}

impl Model for MemDisk {
    ghost Value = { Medium };

    ghost view = { λ d. record { first = d.first.items; calls = d.calls.items; failing = d.failing.items; stop = d.stop; made = d.made; faults = d.faults; capacity = d.capacity; home = option_map string_bytes d.home } };

    ghost invariant = { λ d. d.bytes.items ≡ content_of d.first.items d.calls.items };
}

impl MemDisk {
    /// A disk with this content, all of it synced. It takes a copy of the content.
    pub fn new(
        alloc: Global,
        content: Vec<u8>,
        capacity: u64,
        failing: Vec<u64>,
    ) -> Result<MemDisk, NoMemory>
        ensures { IfOk result (λ d. d ≡ fresh content.items capacity failing.items) }
    {
        Ok(MemDisk {
            alloc,
            first: Vec::from_slice(alloc, &content)?,
            bytes: content,
            calls: Vec::new(alloc),
            failing,
            stop: None,
            made: 0,
            faults: 0,
            capacity,
            home: None,
        })
    }

    /// Lets each call fail whose number is this or greater: 0 lets every call fail from now on.
    pub fn stop_after(&mut self, number: u64)
        ensures { self.new ≡ record self.old { stop = Some number } }
    {
        self.stop = Some(number);
    }

    /// What a read gives.
    pub fn bytes(&self) -> &[u8]
        ensures { result.now ≡ content_of self.now.first self.now.calls }
    {
        &self.bytes
    }

    /// The calls so far.
    pub fn calls(&self) -> &[Call]
        ensures { result.now ≡ self.now.calls }
    {
        &self.calls
    }

    /// A disk with one of the images that a crash may leave, chosen by a number, and no failing
    /// call. Each write since the last sync takes an octal digit of the number, the first write
    /// the lowest: 0 leaves nothing of it, 1 all, 2 its first half, 3 other bytes, 4 its second
    /// half, 5 other bytes in all of it but the last byte, 6 another byte at its start, 7 the
    /// length that it makes and none of its bytes.
    pub fn crash(self, pick: u64) -> Result<MemDisk, NoMemory>
        ensures image { IfOk result (λ d. ⟦<MemDisk as Disk>⟧.may_leave self (⟦<MemDisk as Disk>⟧.seen d)) }
        ensures alone { IfOk result (λ d. Only (⟦<MemDisk as Disk>⟧.seen d) (⟦<MemDisk as Disk>⟧.may_leave d)) }
        ensures begins { IfOk result (λ d. d ≡ fresh d.first self.capacity []) }
    {
        let image = image_of(self.alloc, &self.first, &self.calls, pick)?;
        MemDisk::new(self.alloc, image, self.capacity, Vec::new(self.alloc))
    }

    // Whether this call is to fail. It is counted.
    fn turn(&mut self) -> bool
        ensures fails { result ≡ fails self.old }
        ensures same { Same self.old self.new }
        ensures turned { Turned self.old self.new }
        ensures faults { self.new.faults ≡ self.old.faults }
    {
        let fails = self.failing.contains(&self.made) || is_past(self.stop, self.made);
        count_failure(&mut self.made);
        fails
    }

    // Counts a failure.
    fn fail(&mut self) -> Failed
        ensures same { Same self.old self.new }
        ensures kept { (self.new.made ≡ self.old.made) × (self.new.failing ≡ self.old.failing) × (self.new.stop ≡ self.old.stop) }
        ensures counted { self.new.faults ≡ count_after self.old.faults }
        ensures rose { Rose self.old.faults self.new.faults }
        ensures later { self.old.faults ≤ self.new.faults }
    {
        count_failure(&mut self.faults)
    }

    // Takes down a call that leaves the content as it is, where there is room.
    fn note(&mut self, call: Call) -> bool
        requires { content_after (content self.old) call ≡ content self.old }
        ensures went { Went self.old call self.new }
        ensures taken { IsTrue result → self.new.calls ≡ self.old.calls ++ call ∷ [] }
        ensures not_taken { result ≡ false → self.new.calls ≡ self.old.calls }
        ensures kept { (self.new.made ≡ self.old.made) × (self.new.failing ≡ self.old.failing) × (self.new.stop ≡ self.old.stop) }
        ensures faults { self.new.faults ≡ self.old.faults }
    {
        take_down(&mut self.calls, call)
    }

    // A call that looks at the content, as it is taken down where it was done and where not.
    fn look(&mut self, done: Look, not_done: Look) -> Result<(), Failed>
        ensures went { Went self.old (look_of (fails self.old) done not_done) self.new }
        ensures turned { Turned self.old self.new }
        ensures failing { IsTrue (fails self.old) → IsErr result }
        ensures serving { fails self.old ≡ false → IsOk result }
        ensures cause { HasCause self.old.faults self.new.faults result }
    {
        if self.turn() {
            self.note(Call::Looked(not_done));
            return Err(self.fail());
        }
        self.note(Call::Looked(done));
        Ok(())
    }

    // Takes down a write that failed, where there is room.
    fn miss(&mut self, at: u64, bytes: &[u8])
        ensures went { Same self.old self.new ⊎ ((v : _) × (v.items ≡ bytes.now) × Went self.old (Call.Missed at v) self.new) }
        ensures kept { (self.new.made ≡ self.old.made) × (self.new.failing ≡ self.old.failing) × (self.new.stop ≡ self.old.stop) }
        ensures faults { self.new.faults ≡ self.old.faults }
    {
        match Vec::from_slice(self.alloc, bytes) {
            Ok(copy) => {
                self.note(Call::Missed(at, copy));
            }
            Err(_) => {}
        }
    }

    // Does a write, where there is room.
    fn place(&mut self, at: u64, bytes: &[u8]) -> Result<(), NoMemory>
        requires { at ≤ length (content self.old) }
        ensures ok { OnOk result ((v : _) × (v.items ≡ bytes.now) × (self.new.calls ≡ self.old.calls ++ Call.Wrote at v ∷ [])) }
        ensures err { OnErr result (self.new.calls ≡ self.old.calls) }
        ensures first { self.new.first ≡ self.old.first }
        ensures kept { (self.new.made ≡ self.old.made) × (self.new.failing ≡ self.old.failing) × (self.new.stop ≡ self.old.stop) }
        ensures faults { self.new.faults ≡ self.old.faults }
        ensures room { self.new.capacity ≡ self.old.capacity }
        ensures home { self.new.home ≡ self.old.home }
    {
        let copy = Vec::from_slice(self.alloc, bytes)?;
        self.calls.reserve(1)?;
        overwrite(&mut self.bytes, at as usize, bytes)?;
        add(&mut self.calls, Call::Wrote(at, copy));
        Ok(())
    }
}

// Whether a call of this number is past the stop.
fn is_past(stop: Option<u64>, number: u64) -> bool
    ensures { result ≡ is_stopped stop number }
{
    match stop {
        Some(first) => first <= number,
        None => false,
    }
}

// Takes down a call, where there is room.
fn take_down(calls: &mut Vec<Call>, call: Call) -> bool
    ensures grew { Grew calls.old.items call calls.new.items }
    ensures taken { IsTrue result → calls.new.items ≡ calls.old.items ++ call ∷ [] }
    ensures not_taken { result ≡ false → calls.new.items ≡ calls.old.items }
{
    calls.push(call).is_ok()
}

// Takes down a call for which there is room.
fn add(calls: &mut Vec<Call>, call: Call)
    requires { vec_len calls.old < vec_capacity calls.old }
    ensures { calls.new.items ≡ calls.old.items ++ call ∷ [] }
{
    let _ = calls.push(call);
}

impl Disk for MemDisk {
    ghost honest = { λ d. true };

    ghost seen = { λ d. content_of d.first d.calls };

    ghost may_leave = { λ d. MayLeave d.first d.calls };

    ghost moment = { λ d. length d.calls };

    ghost left_since = { λ d. LeftSince d.first d.calls };

    ghost faults = { λ d. d.faults };

    ghost capacity = { λ d. d.capacity };

    ghost home = { λ d. d.home };

    ghost reads_an_image = { λ d h. seen_left d.first d.calls };

    ghost counts_now = { λ d t c le left. now_since d.first d.calls t c le left };

    ghost only_now = { λ d c left. since_now d.first d.calls c left };

    fn capacity(&self) -> u64 {
        self.capacity
    }

    fn faults(&self) -> u64 {
        self.faults
    }

    fn len(&mut self) -> Result<u64, Failed>
        ensures len { IfOk result (λ n. n ≡ length (content self.old)) }
        ensures room { self.new.capacity ≡ self.old.capacity }
        ensures home { self.new.home ≡ self.old.home }
        ensures seen { content self.new ≡ content self.old }
        ensures crash { NoMore (May self.old) (May self.new) }
        ensures time { Time self.old self.new }
        ensures cause { HasCause self.old.faults self.new.faults result }
        ensures turned { Turned self.old self.new }
        ensures failing { IsTrue (fails self.old) → IsErr result }
        ensures serving { fails self.old ≡ false → IsOk result }
        ensures told { Grew self.old.calls (look_of (fails self.old) Look.Len Look.LenFailed) self.new.calls }
    {
        self.look(Look::Len, Look::LenFailed)?;
        Ok(self.bytes.len() as u64)
    }

    fn read(&mut self, at: u64, buffer: &mut [u8]) -> Result<(), Failed>
        requires { at + length buffer.old ≤ length (content self.old) }
        ensures bytes { OnOk result (buffer.new ≡ take (length buffer.old) (drop at (content self.old))) }
        ensures room { self.new.capacity ≡ self.old.capacity }
        ensures home { self.new.home ≡ self.old.home }
        ensures seen { content self.new ≡ content self.old }
        ensures crash { NoMore (May self.old) (May self.new) }
        ensures time { Time self.old self.new }
        ensures cause { HasCause self.old.faults self.new.faults result }
        ensures turned { Turned self.old self.new }
        ensures failing { IsTrue (fails self.old) → IsErr result }
        ensures serving { fails self.old ≡ false → IsOk result }
        ensures told { Grew self.old.calls (look_of (fails self.old) (Look.Read at) (Look.ReadFailed at)) self.new.calls }
    {
        self.look(Look::Read(at), Look::ReadFailed(at))?;
        let at = at as usize;
        buffer.copy_from_slice(&self.bytes[at..at + buffer.len()]);
        Ok(())
    }

    fn write_at(&mut self, at: u64, bytes: &[u8]) -> Result<(), Failed>
        requires { at ≤ length (content self.old) }
        ensures written { OnOk result (content self.new ≡ put (content self.old) at bytes.now) }
        ensures room { self.new.capacity ≡ self.old.capacity }
        ensures home { self.new.home ≡ self.old.home }
        ensures crash { Follows (Torn at (length bytes.now)) (May self.old) (May self.new) }
        ensures time { Time self.old self.new }
        ensures cause { HasCause self.old.faults self.new.faults result }
        ensures turned { Turned self.old self.new }
        ensures failing { IsTrue (fails self.old) → IsErr result }

        // Where it was not to fail and did, memory was too short, and nothing was done.
        ensures short { fails self.old ≡ false → OnErr result (self.new.calls ≡ self.old.calls) }
    {
        if self.turn() {
            self.miss(at, bytes);
            return Err(self.fail());
        }
        match self.place(at, bytes) {
            Ok(()) => Ok(()),
            Err(_) => Err(self.fail()),
        }
    }

    fn sync(&mut self) -> Result<(), Failed>
        ensures durable { OnOk result (Only (content self.old) (May self.new)) }
        ensures told { OnOk result (self.new.calls ≡ self.old.calls ++ Call.Synced ∷ []) }
        ensures room { self.new.capacity ≡ self.old.capacity }
        ensures home { self.new.home ≡ self.old.home }
        ensures seen { content self.new ≡ content self.old }
        ensures crash { NoMore (May self.old) (May self.new) }
        ensures time { Time self.old self.new }
        ensures cause { HasCause self.old.faults self.new.faults result }
        ensures turned { Turned self.old self.new }
        ensures failing { IsTrue (fails self.old) → IsErr result }

        // Where it was not to fail and did, memory was too short, and nothing was done.
        ensures short { fails self.old ≡ false → OnErr result (self.new.calls ≡ self.old.calls) }
    {
        if self.turn() {
            self.note(Call::Looked(Look::SyncFailed));
            return Err(self.fail());
        }
        if self.note(Call::Synced) {
            Ok(())
        } else {
            Err(self.fail())
        }
    }
}

impl Home for MemDisk {
    fn attach(&mut self, alloc: Global, home: &str) -> Result<(), Unattached>
        ensures room { self.new.capacity ≡ self.old.capacity }
        ensures told { OnOk result (self.new.home ≡ Some home.now) }
        ensures untold { OnErr result (self.new.home ≡ self.old.home) }
        ensures seen { content self.new ≡ content self.old }
        ensures crash { NoMore (May self.old) (May self.new) }
        ensures time { Time self.old self.new }
        ensures later { self.old.faults ≤ self.new.faults }
        ensures failed { IfErr result (λ e. e ≡ Unattached.Failed → Rose self.old.faults self.new.faults) }
        ensures counted { IfErr result (λ e. e ≡ Unattached.Failed → self.new.faults ≡ count_after self.old.faults) }
        ensures no_memory { IfErr result (λ e. e ≡ Unattached.NoMemory → self.new ≡ self.old) }
        ensures stands { OnOk result (self.new.faults ≡ self.old.faults) }
        ensures failing { IsTrue (fails self.old) → IsErr result }
        ensures serving { fails self.old ≡ false → IfErr result (λ e. e ≡ Unattached.NoMemory) }
    {
        let Ok(copy) = String::from_str(alloc, home) else {
            return Err(Unattached::NoMemory);
        };
        match self.look(Look::Attached, Look::AttachFailed) {
            Ok(()) => {
                self.home = Some(copy);
                Ok(())
            }
            Err(_) => Err(Unattached::Failed),
        }
    }
}
