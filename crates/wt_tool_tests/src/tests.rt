// What no clause says of a run: the bytes on the device, the words on the errors, and that runs
// succeed, over disks and streams in memory.
mod bytes;
mod crashes;
mod damage;
mod faults;
mod formats;
mod lasting;
mod loads;
mod openings;
mod scripts;
mod slots;
mod stories;

use disk_model::MemDisk;
use std::alloc::Global;
use std::process::Abort;
use wt_io::{MemSink, MemSource};
use wt_tool::wt_plain;

const FORMATS: &str = "key_format=S,value_format=S";

const ROOM: u64 = 1 << 20; // bytes

// How a run ended, and what it told on the errors and printed on the output.
#[derive(Drop)]
struct Ran {
    status: u8,
    disk: MemDisk,
    told: MemSink,
    printed: MemSink,
}

// The numbers of the calls of the output and of the errors that fail.
#[derive(Drop)]
struct Failing<'a> {
    out: &'a [u64],
    err: &'a [u64],
}

// A run on a disk: its words, with a bar between two of them, its status, and what it tells and
// prints.
type Row<'a> = (&'a str, u8, &'a str, &'a str);

// A disk on which the calls of these numbers fail, the first being 0.
fn disk_of(
    rt: &impl Abort,
    alloc: Global,
    content: Vec<u8>,
    capacity: u64,
    failing: &[u64],
) -> MemDisk {
    let failing = Vec::from_slice(alloc, failing).expect(rt, "there is memory");
    MemDisk::new(alloc, content, capacity, failing).expect(rt, "there is memory")
}

// A disk of zeros.
fn zeros(rt: &impl Abort, alloc: Global, len: usize, capacity: u64) -> MemDisk {
    let mut content = Vec::new(alloc);
    content.resize(len, 0).expect(rt, "there is memory");
    disk_of(rt, alloc, content, capacity, &[])
}

// What a read of all of the disk gives.
fn bytes_of(rt: &impl Abort, alloc: Global, disk: &MemDisk) -> Vec<u8> {
    Vec::from_slice(alloc, disk.bytes()).expect(rt, "there is memory")
}

// The bytes with another one in a place.
fn with_byte(rt: &impl Abort, content: Vec<u8>, at: usize, old: u8, new: u8) -> Vec<u8> {
    let mut content = content;
    assert!(rt; at < content.len());
    assert_eq!(rt; content[at], old, "at {at}");
    content[at] = new;
    content
}

fn new_device(rt: &impl Abort, alloc: Global) -> MemDisk {
    zeros(rt, alloc, 8192, ROOM)
}

// A device after `create`, with room for so many bytes.
fn created_within(rt: &impl Abort, alloc: Global, capacity: u64) -> MemDisk {
    let disk = zeros(rt, alloc, 8192, capacity);
    let made = run(rt, alloc, disk, &["create", "-c", FORMATS, "table:t"]);
    expect(rt, made, "create", 0, "", "")
}

// A device after the first run's first command.
fn created(rt: &impl Abort, alloc: Global) -> MemDisk {
    created_within(rt, alloc, ROOM)
}

// A device after the first run's two writing commands.
fn written(rt: &impl Abort, alloc: Global) -> MemDisk {
    let disk = created(rt, alloc);
    runs(rt, alloc, disk, &[("write|t|a|1", 0, "", "")])
}

fn run(rt: &impl Abort, alloc: Global, disk: MemDisk, words: &[&str]) -> Ran {
    run_over(rt, alloc, disk, words, &Failing { out: &[], err: &[] })
}

// The same, over streams with failing calls.
fn run_over(
    rt: &impl Abort,
    alloc: Global,
    disk: MemDisk,
    words: &[&str],
    failing: &Failing<'_>,
) -> Ran {
    let words = owned(rt, alloc, words);
    run_words_over(rt, alloc, disk, &words, failing)
}

// A run of these words.
fn run_words(rt: &impl Abort, alloc: Global, disk: MemDisk, words: &[String]) -> Ran {
    run_words_over(rt, alloc, disk, words, &Failing { out: &[], err: &[] })
}

fn run_words_over(
    rt: &impl Abort,
    alloc: Global,
    disk: MemDisk,
    words: &[String],
    failing: &Failing<'_>,
) -> Ran {
    let mut input = MemSource::new(alloc, &[], &[]).expect(rt, "there is memory");
    let mut out = MemSink::new(alloc, failing.out).expect(rt, "there is memory");
    let mut err = MemSink::new(alloc, failing.err).expect(rt, "there is memory");
    let ended = wt_plain(alloc, words, &mut input, &mut out, &mut err, disk);
    Ran {
        status: ended.status,
        disk: ended.disk,
        told: err,
        printed: out,
    }
}

fn owned(rt: &impl Abort, alloc: Global, words: &[&str]) -> Vec<String> {
    let mut all = Vec::new(alloc);
    for word in words {
        let word = String::from_str(alloc, word).expect(rt, "there is memory");
        all.push(word).expect(rt, "there is memory");
    }
    all
}

// The words of a line, with a bar between two of them.
fn split<'a>(rt: &impl Abort, alloc: Global, line: &'a str) -> Vec<&'a str> {
    let mut words = Vec::new(alloc);
    for word in line.split('|') {
        words.push(word).expect(rt, "there is memory");
    }
    words
}

// The disk of a run that ended so.
fn expect(rt: &impl Abort, ran: Ran, line: &str, status: u8, told: &str, printed: &str) -> MemDisk {
    assert_eq!(rt; ran.status, status, "of {line}");
    assert!(rt; ran.told.bytes() == told.as_bytes(), "told by {line}");
    assert!(rt;
        ran.printed.bytes() == printed.as_bytes(),
        "printed by {line}"
    );
    ran.disk
}

// The disk after these runs, each of which ended as its row says.
fn runs(rt: &impl Abort, alloc: Global, disk: MemDisk, rows: &[Row<'_>]) -> MemDisk {
    let mut disk = disk;
    for (line, status, told, printed) in rows {
        let words = split(rt, alloc, line);
        let ran = run(rt, alloc, disk, &words);
        disk = expect(rt, ran, line, *status, told, printed);
    }
    disk
}

// What `read t a` tells of a device.
#[derive(Clone, Copy, Debug, PartialEq, Eq)]
enum State {
    NoTable,
    NoRow,
    One,
    Two,
    Another,
}

// What a device with these bytes holds.
fn state_of(rt: &impl Abort, alloc: Global, content: Vec<u8>) -> State {
    let disk = disk_of(rt, alloc, content, ROOM, &[]);
    let ran = run(rt, alloc, disk, &["read", "t", "a"]);
    let told = ran.told.bytes();
    let printed = ran.printed.bytes();
    if ran.status == 0 && told.is_empty() && printed == b"1\n".as_slice() {
        State::One
    } else if ran.status == 0 && told.is_empty() && printed == b"2\n".as_slice() {
        State::Two
    } else if ran.status == 1 && printed.is_empty() {
        state_told(told)
    } else {
        State::Another
    }
}

fn state_told(told: &[u8]) -> State {
    if told == b"2 no table\n".as_slice() {
        State::NoTable
    } else if told == b"-31803 not found\n".as_slice() {
        State::NoRow
    } else {
        State::Another
    }
}
