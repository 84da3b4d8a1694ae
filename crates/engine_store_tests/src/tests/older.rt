// Versions of a key below its newest one, in stores on devices whose checkpoints have a history.
use super::bench::{
    Bench, ask, begin, commit, copy, create, disk_of, framed, gives, new_device, open, put, take,
};
use super::item;
use device_layout::Addr;
use engine_store::{FRAMES, Frames, open_on};
use plain_disk::PlainDisk;
use std::alloc::Global;
use std::process::Abort;
use wt_calls::{SessionCall, SystemCall};
use wt_code::{Answer, Refusal};

// A value of the key, and its commit stamp.
type Stamped = (u8, u64);

// What a read at a stamp finds, none where the key is absent.
type Seen = (u64, Option<u8>);

const CHAIN: [Stamped; 3] = [(b'1', 10), (b'2', 20), (b'3', 30)];

const SEEN: [Seen; 6] = [
    (9, None),
    (10, Some(b'1')),
    (19, Some(b'1')),
    (20, Some(b'2')),
    (29, Some(b'2')),
    (30, Some(b'3')),
];

// What reads find where the last version of the chain was taken out.
const CUT: [Seen; 5] = [
    (9, None),
    (10, Some(b'1')),
    (19, Some(b'1')),
    (20, Some(b'2')),
    (30, Some(b'2')),
];

// A transaction that gives the key a value.
fn put_stamped(rt: &impl Abort, alloc: Global, bench: &mut Bench, (value, stamp): Stamped) {
    begin(rt, alloc, bench, 0);
    put(rt, alloc, bench, 0, (b"a", b"k", &[value]));
    let call = SessionCall::Commit {
        commit: Some(stamp),
        durable: None,
    };
    assert!(rt; ask(rt, alloc, bench, 0, call) == Answer::Done);
}

fn put_chain(rt: &impl Abort, alloc: Global, bench: &mut Bench, chain: &[Stamped]) {
    for stamped in chain {
        put_stamped(rt, alloc, bench, *stamped);
    }
}

// Whether a read in the transaction of the session finds this value.
fn finds(rt: &impl Abort, alloc: Global, bench: &mut Bench, wanted: Option<u8>) -> bool {
    match wanted {
        None => gives(rt, alloc, bench, 0, (b"a", b"k"), None),
        Some(value) => gives(rt, alloc, bench, 0, (b"a", b"k"), Some([value].as_slice())),
    }
}

fn check_seen(rt: &impl Abort, alloc: Global, bench: &mut Bench, seen: &[Seen]) {
    for (stamp, wanted) in seen {
        let begun = ask(rt, alloc, bench, 0, SessionCall::Begin(Some(*stamp)));
        assert!(rt; begun == Answer::Done);
        assert!(rt; finds(rt, alloc, bench, *wanted), "at {stamp}");
        commit(rt, alloc, bench, 0);
    }
}

// What a read without a stamp finds.
fn check_newest(rt: &impl Abort, alloc: Global, bench: &mut Bench, wanted: Option<u8>) {
    begin(rt, alloc, bench, 0);
    assert!(rt; finds(rt, alloc, bench, wanted));
    commit(rt, alloc, bench, 0);
}

fn set_stable(rt: &impl Abort, alloc: Global, bench: &mut Bench, stable: u64) {
    let call = SystemCall::SetStamps {
        oldest: None,
        stable: Some(stable),
    };
    assert!(rt; bench.store.call_system::<PlainDisk>(alloc, 0, call) == Answer::Done);
}

fn take_whole(rt: &impl Abort, alloc: Global, bench: &mut Bench) {
    assert!(rt; take(rt, alloc, bench) == Ok(()));
}

fn content(rt: &impl Abort, alloc: Global, bench: &Bench) -> Vec<u8> {
    copy(rt, alloc, bench.disk.medium.bytes())
}

fn device(rt: &impl Abort, alloc: Global, content: Vec<u8>) -> PlainDisk {
    disk_of(rt, alloc, content, 1 << 20, &[])
}

// A store on what the device of this one has.
fn opened_anew(rt: &impl Abort, alloc: Global, bench: &Bench) -> Bench {
    let content = content(rt, alloc, bench);
    open(rt, alloc, device(rt, alloc, content))
}

// A store with the chain, of which no checkpoint was taken.
fn with_chain(rt: &impl Abort, alloc: Global) -> Bench {
    let mut bench = open(rt, alloc, new_device(rt, alloc, &[]));
    create(rt, alloc, &mut bench, b"a");
    put_chain(rt, alloc, &mut bench, &CHAIN);
    bench
}

// A store whose last checkpoint has the chain.
fn taken_chain(rt: &impl Abort, alloc: Global) -> Bench {
    let mut bench = with_chain(rt, alloc);
    take_whole(rt, alloc, &mut bench);
    bench
}

fn check_opened(rt: &impl Abort, alloc: Global, first: &Bench) {
    let mut bench = opened_anew(rt, alloc, first);
    assert_eq!(rt; framed(&bench), 0);
    check_seen(rt, alloc, &mut bench, &SEEN);
    check_newest(rt, alloc, &mut bench, Some(b'3'));
}

#[test]
fn a_read_at_an_earlier_stamp_finds_what_the_history_has(rt: HostRuntime) {
    let alloc = rt.alloc();
    let first = taken_chain(&rt, alloc);
    check_opened(&rt, alloc, &first);
}

// A checkpoint of a store that has not read the leaf has the same history.
#[test]
fn a_history_goes_on_where_no_call_needed_its_leaf(rt: HostRuntime) {
    let alloc = rt.alloc();
    let first = taken_chain(&rt, alloc);
    let mut second = opened_anew(&rt, alloc, &first);
    take_whole(&rt, alloc, &mut second);
    check_opened(&rt, alloc, &second);
}

fn evict(rt: &impl Abort, alloc: Global, bench: &mut Bench) {
    let (table, key) = (item(rt, alloc, b"a"), item(rt, alloc, b"k"));
    let evicted = bench.store.evict(alloc, &mut bench.disk, 0, &table, &key);
    assert!(rt; evicted == Ok(()));
    assert_eq!(rt; framed(bench), 0);
}

// The leaf is read for the put, and is evicted then.
fn write_more(rt: &impl Abort, alloc: Global, bench: &mut Bench) {
    put_stamped(rt, alloc, bench, (b'4', 40));
    evict(rt, alloc, bench);
}

fn check_more(rt: &impl Abort, alloc: Global, bench: &mut Bench) {
    check_seen(rt, alloc, bench, &SEEN);
    check_newest(rt, alloc, bench, Some(b'4'));
}

fn check_written(rt: &impl Abort, alloc: Global, bench: &mut Bench) {
    write_more(rt, alloc, bench);
    check_more(rt, alloc, bench);
    take_whole(rt, alloc, bench);
    let mut last = opened_anew(rt, alloc, bench);
    check_more(rt, alloc, &mut last);
}

// The version that the row had at the opening is an older one then.
#[test]
fn a_history_goes_on_below_a_new_version(rt: HostRuntime) {
    let alloc = rt.alloc();
    let first = taken_chain(&rt, alloc);
    let mut bench = opened_anew(&rt, alloc, &first);
    check_written(&rt, alloc, &mut bench);
}

// A store whose last checkpoint has the chain, the last version of which is durable after the stable
// stamp.
fn taken_unstable(rt: &impl Abort, alloc: Global) -> Bench {
    let mut bench = with_chain(rt, alloc);
    set_stable(rt, alloc, &mut bench, 25);
    take_whole(rt, alloc, &mut bench);
    bench
}

fn check_cut(rt: &impl Abort, alloc: Global, bench: &mut Bench) {
    check_seen(rt, alloc, bench, &CUT);
    check_newest(rt, alloc, bench, Some(b'2'));
}

fn check_cut_twice(rt: &impl Abort, alloc: Global, bench: &mut Bench) {
    check_cut(rt, alloc, bench);
    take_whole(rt, alloc, bench);
    let mut second = opened_anew(rt, alloc, bench);
    check_cut(rt, alloc, &mut second);
}

#[test]
fn an_opening_has_the_version_below_one_that_is_not_stable(rt: HostRuntime) {
    let alloc = rt.alloc();
    let first = taken_unstable(&rt, alloc);
    let mut bench = opened_anew(&rt, alloc, &first);
    check_cut_twice(&rt, alloc, &mut bench);
}

// The block of the history.
fn history_block(rt: &impl Abort, bench: &Bench) -> Addr {
    assert_eq!(rt; bench.store.ground.history.len(), 1);
    *bench.store.ground.history.first().expect(rt, "a history")
}

// The last byte of a block, which is zero.
fn spoil(rt: &impl Abort, content: &mut [u8], block: Addr) {
    assert_eq!(rt; block.size, 4_096);
    let at = (block.offset as usize).saturating_add(4_095);
    *content.get_mut(at).expect(rt, "a byte") = 1;
}

// The device of a store, whose history is spoilt.
fn spoilt(rt: &impl Abort, alloc: Global, bench: &Bench) -> PlainDisk {
    let mut content = content(rt, alloc, bench);
    spoil(rt, &mut content, history_block(rt, bench));
    device(rt, alloc, content)
}

fn refused(alloc: Global, mut disk: PlainDisk) -> Option<Refusal> {
    match open_on(alloc, &mut disk, Frames::Soft(FRAMES)) {
        Ok(_store) => None,
        Err(refusal) => Some(refusal),
    }
}

// The sum of a block has each byte times its place.
fn check_refused(rt: &impl Abort, alloc: Global, bench: &Bench) {
    let Addr { offset, sum, .. } = history_block(rt, bench);
    let fault = Refusal::Corrupt {
        offset,
        want: sum,
        found: sum.wrapping_add(4_096),
    };
    assert_eq!(rt; refused(alloc, spoilt(rt, alloc, bench)), Some(fault));
}

// No leaf is read for it.
#[test]
fn a_history_at_fault_is_told_by_the_opening(rt: HostRuntime) {
    let alloc = rt.alloc();
    let first = taken_chain(&rt, alloc);
    check_refused(&rt, alloc, &first);
}
