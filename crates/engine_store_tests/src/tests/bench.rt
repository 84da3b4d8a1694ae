// A store on a disk in memory, and what its sessions are asked.
ghost use Rattle.engine_store.specs.Opened.{IsReady};

use super::{are_low, item};
use disk_model::MemDisk;
use engine_store::{FRAMES, Frames, Remains, Store, open_on};
use item::{Format, Formats, Item};
use plain_disk::PlainDisk;
use std::alloc::Global;
use std::process::Abort;
use wt_calls::{Demand, SessionCall, SystemCall};
use wt_code::{Answer, Refusal};

const BYTES: Formats = Formats {
    key: Format::U,
    value: Format::U,
};

pub(super) const COMMIT: SessionCall = SessionCall::Commit {
    commit: None,
    durable: None,
};

// A table's name, a key and a value.
pub(super) type Row<'a> = (&'a [u8], &'a [u8], &'a [u8]);

// A store and its disk.
#[derive(Drop)]
pub(super) struct Bench {
    pub(super) store: Store,
    pub(super) disk: PlainDisk,
}

// So many bytes, each of them this one.
pub(super) fn bytes_of(rt: &impl Abort, alloc: Global, len: usize, byte: u8) -> Vec<u8> {
    let mut bytes = Vec::new(alloc);
    bytes.resize(len, byte).expect(rt, "there is memory");
    bytes
}

pub(super) fn copy(rt: &impl Abort, alloc: Global, bytes: &[u8]) -> Vec<u8> {
    Vec::from_slice(alloc, bytes).expect(rt, "there is memory")
}

// A disk with this content that takes so many bytes. The calls of these numbers fail, the first being 0.
pub(super) fn disk_of(
    rt: &impl Abort,
    alloc: Global,
    content: Vec<u8>,
    capacity: u64,
    failing: &[u64],
) -> PlainDisk {
    let failing = Vec::from_slice(alloc, failing).expect(rt, "there is memory");
    let made = MemDisk::new(alloc, content, capacity, failing);
    PlainDisk {
        medium: made.expect(rt, "there is memory"),
    }
}

// A new device, of whose calls these fail.
pub(super) fn new_device(rt: &impl Abort, alloc: Global, failing: &[u64]) -> PlainDisk {
    disk_of(rt, alloc, bytes_of(rt, alloc, 8_192, 0), 1 << 20, failing)
}

// An image of the disk that a crash may leave.
pub(super) fn crash(rt: &impl Abort, disk: PlainDisk, pick: u64) -> PlainDisk {
    let medium = disk.medium.crash(pick);
    PlainDisk {
        medium: medium.expect(rt, "there is memory"),
    }
}

// A store without a session, where the device opens.
fn try_open(alloc: Global, mut disk: PlainDisk, frames: Frames) -> Option<Bench> {
    match open_on(alloc, &mut disk, frames) {
        Ok(store) => Some(Bench { store, disk }),
        Err(_) => None,
    }
}

// One session more, which has this number.
pub(super) fn add_session(rt: &impl Abort, alloc: Global, bench: &mut Bench, number: u32) {
    assert!(rt; bench.store.open_session::<PlainDisk>(alloc) == Ok(number));
}

// A store with one session, where the device opens.
pub(super) fn open_one(
    rt: &impl Abort,
    alloc: Global,
    disk: PlainDisk,
    frames: Frames,
) -> Option<Bench> {
    match try_open(alloc, disk, frames) {
        None => None,
        Some(mut bench) => {
            add_session(rt, alloc, &mut bench, 0);
            Some(bench)
        }
    }
}

// A store with two sessions, where the device opens.
pub(super) fn open_two(
    rt: &impl Abort,
    alloc: Global,
    disk: PlainDisk,
    frames: Frames,
) -> Option<Bench> {
    match open_one(rt, alloc, disk, frames) {
        None => None,
        Some(mut bench) => {
            add_session(rt, alloc, &mut bench, 1);
            Some(bench)
        }
    }
}

// A store with two sessions.
pub(super) fn open(rt: &impl Abort, alloc: Global, disk: PlainDisk) -> Bench {
    open_two(rt, alloc, disk, Frames::Soft(FRAMES)).expect(rt, "it opens")
}

pub(super) fn create(rt: &impl Abort, alloc: Global, bench: &mut Bench, name: &[u8]) {
    let call = SystemCall::Create {
        table: item(rt, alloc, name),
        formats: BYTES,
    };
    assert!(rt; bench.store.call_system::<PlainDisk>(alloc, 0, call) == Answer::Done);
}

pub(super) fn ask(
    rt: &impl Abort,
    alloc: Global,
    bench: &mut Bench,
    session: u32,
    call: SessionCall,
) -> Answer<Item> {
    assert!(rt; session < bench.store.engine.sessions());
    bench.store.call(alloc, &mut bench.disk, session, call)
}

fn is_done(
    rt: &impl Abort,
    alloc: Global,
    bench: &mut Bench,
    session: u32,
    call: SessionCall,
) -> bool {
    ask(rt, alloc, bench, session, call) == Answer::Done
}

pub(super) fn begin(rt: &impl Abort, alloc: Global, bench: &mut Bench, session: u32) {
    assert!(rt; is_done(rt, alloc, bench, session, SessionCall::Begin(None)));
}

pub(super) fn prepare(rt: &impl Abort, alloc: Global, bench: &mut Bench, session: u32) {
    assert!(rt; is_done(rt, alloc, bench, session, SessionCall::Prepare(5)));
}

pub(super) fn commit(rt: &impl Abort, alloc: Global, bench: &mut Bench, session: u32) {
    assert!(rt; is_done(rt, alloc, bench, session, COMMIT));
}

pub(super) fn put_call(
    rt: &impl Abort,
    alloc: Global,
    (table, key, value): Row<'_>,
) -> SessionCall {
    SessionCall::Put {
        table: item(rt, alloc, table),
        key: item(rt, alloc, key),
        value: item(rt, alloc, value),
        demand: Demand::Anything,
    }
}

pub(super) fn put(rt: &impl Abort, alloc: Global, bench: &mut Bench, session: u32, row: Row<'_>) {
    let call = put_call(rt, alloc, row);
    assert!(rt; is_done(rt, alloc, bench, session, call));
}

fn get_call(rt: &impl Abort, alloc: Global, (table, key): (&[u8], &[u8])) -> SessionCall {
    SessionCall::Get {
        table: item(rt, alloc, table),
        key: item(rt, alloc, key),
    }
}

pub(super) fn get(
    rt: &impl Abort,
    alloc: Global,
    bench: &mut Bench,
    session: u32,
    place: (&[u8], &[u8]),
) -> Answer<Item> {
    ask(rt, alloc, bench, session, get_call(rt, alloc, place))
}

// Whether an answer is the value, where there is one.
fn is_value(answer: &Answer<Item>, wanted: Option<&[u8]>) -> bool {
    match answer {
        Answer::Value(value) => wanted == Some(value.as_bytes()),
        Answer::Refused(Refusal::NotFound) => wanted.is_none(),
        _ => false,
    }
}

// Whether a read in the transaction of a session gives the value, where there is one.
pub(super) fn gives(
    rt: &impl Abort,
    alloc: Global,
    bench: &mut Bench,
    session: u32,
    place: (&[u8], &[u8]),
    wanted: Option<&[u8]>,
) -> bool {
    is_value(&get(rt, alloc, bench, session, place), wanted)
}

// That another checkpoint may follow.
fn check_ready(rt: &impl Abort, store: &Store)
    ensures { IsReady store.now }
{
    let marks = store.engine.marks();
    assert!(rt; marks.run.saturating_sub(1) <= store.ground.number);
    assert!(rt; store.ground.trees.len() <= store.engine.tables().len());
    assert!(rt; are_low(&store.ground.trees));
}

pub(super) fn take(rt: &impl Abort, alloc: Global, bench: &mut Bench) -> Result<(), Refusal> {
    check_ready(rt, &bench.store);
    bench.store.checkpoint(alloc, &mut bench.disk)
}

pub(super) fn start(alloc: Global, bench: &mut Bench) -> Result<(), Refusal> {
    bench.store.start_checkpoint::<PlainDisk>(alloc)
}

pub(super) fn step(alloc: Global, bench: &mut Bench) -> Result<Remains, Refusal> {
    bench.store.step_checkpoint::<PlainDisk>(alloc)
}

pub(super) fn finish(rt: &impl Abort, alloc: Global, bench: &mut Bench) -> Result<(), Refusal> {
    check_ready(rt, &bench.store);
    bench.store.finish_checkpoint(alloc, &mut bench.disk)
}

pub(super) fn try_close(rt: &impl Abort, alloc: Global, bench: &mut Bench) -> Result<(), Refusal> {
    check_ready(rt, &bench.store);
    bench.store.close(alloc, &mut bench.disk)
}

pub(super) fn close(rt: &impl Abort, alloc: Global, bench: &mut Bench) {
    assert!(rt; try_close(rt, alloc, bench) == Ok(()));
}

// What is on the disk once the store is closed.
pub(super) fn content_closed(rt: &impl Abort, alloc: Global, mut bench: Bench) -> Vec<u8> {
    close(rt, alloc, &mut bench);
    copy(rt, alloc, bench.disk.medium.bytes())
}

pub(super) fn reopen(rt: &impl Abort, alloc: Global, bench: &mut Bench) {
    check_ready(rt, &bench.store);
    assert!(rt;
        bench
            .store
            .reopen(alloc, &mut bench.disk, Frames::Soft(FRAMES))
            == Ok(())
    );
}

// How many frames have a leaf.
pub(super) fn framed(bench: &Bench) -> usize {
    let frames = u32::try_from(bench.store.engine.frames()).unwrap_or(0);
    let mut count = 0usize;
    for frame in 0..frames {
        if bench.store.engine.id_in(frame).is_some() {
            count = count.saturating_add(1);
        }
    }
    count
}
