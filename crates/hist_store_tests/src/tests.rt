// Versions as they come, what look-ups give, and what sweeps leave. In the rows that are shown a
// key is its slot, and the letters of its versions, newest first.
ghost use Rattle.std.specs.Prelude.{◌≤◌, length};
ghost use Rattle.snapshot.specs.Sight.{Ascends};

use hist_store::{Hist, NoMemory, Versions};
use item::{Change, Item};
use snapshot::Snapshot;
use stamp::{Name, Version, Window};
use std::alloc::Global;

#[derive(Clone, Copy)]
struct Arrival {
    table: u32,
    key: &'static [u8],
    name: Name,
    commit: u64,
    durable: u64,
    letter: u8,
}

fn add(
    table: u32,
    key: &'static [u8],
    name: (u64, u64),
    stamps: (u64, u64),
    letter: u8,
) -> Arrival {
    let (run, id) = name;
    let (commit, durable) = stamps;
    Arrival {
        table,
        key,
        name: Name { run, id },
        commit,
        durable,
        letter,
    }
}

fn adds() -> [Arrival; 10] {
    [
        add(2, b"m", (1, 5), (10, 12), b'a'),
        add(1, b"m", (1, 5), (10, 12), b'b'),
        add(2, b"m\0", (1, 6), (20, 20), b'c'),
        add(2, b"", (1, 6), (20, 20), b'd'),
        add(2, b"m", (1, 9), (30, 32), b'e'),
        // Older than the one before.
        add(2, b"m", (1, 7), (20, 25), b'f'),
        // Its name is there.
        add(2, b"m", (1, 7), (21, 26), b'g'),
        // Of a later run, with a lower id.
        add(2, b"m", (2, 3), (40, 40), b'h'),
        add(2, b"m\xff", (1, 6), (20, 20), b'i'),
        // A removal.
        add(1, b"z", (1, 4), (5, 5), b'-'),
    ]
}

// A read stamp, a table and a key, and the letter of the version that is found, a dot for none.
type Look = (u64, u32, &'static [u8], u8);

// Run 2, where all is seen.
const ALL: [Look; 13] = [
    (0, 2, b"m", b'h'),
    (40, 2, b"m", b'h'),
    (39, 2, b"m", b'e'),
    (29, 2, b"m", b'f'),
    (19, 2, b"m", b'a'),
    (9, 2, b"m", b'.'),
    (0, 1, b"m", b'b'),
    (0, 1, b"z", b'-'),
    (0, 2, b"z", b'.'),
    (0, 3, b"m", b'.'),
    (0, 2, b"", b'd'),
    (0, 2, b"m\0", b'c'),
    (0, 1, b"", b'.'),
];

// Run 2, where id 3 runs.
const RUNNING: [Look; 2] = [(0, 2, b"m", b'e'), (29, 2, b"m", b'f')];

// Run 1, where id 7 runs and 9 comes next.
const EARLIER: [Look; 3] = [
    (0, 2, b"m", b'a'),
    (0, 2, b"m\0", b'c'),
    (19, 2, b"m\0", b'.'),
];

fn version(alloc: Global, add: Arrival) -> Result<Version<Change>, NoMemory> {
    let change = if add.letter == b'-' {
        Change::Remove
    } else {
        Change::Put(Item::new(Vec::from_slice(alloc, &[add.letter])?))
    };
    let window = Window {
        name: add.name,
        commit: add.commit,
        durable: add.durable,
    };
    Ok(Version { window, change })
}

fn add_all(alloc: Global, hist: &mut Hist, adds: &[Arrival]) -> Result<(), NoMemory> {
    for add in adds {
        let version = version(alloc, *add)?;
        hist.add(alloc, add.table, add.key, version)?;
    }
    Ok(())
}

fn letter(version: Option<&Version<Change>>) -> u8 {
    let Some(version) = version else {
        return b'.';
    };
    match &version.change {
        Change::Put(value) => match value.as_bytes().first() {
            Some(letter) => *letter,
            None => b'?',
        },
        Change::Remove => b'-',
    }
}

fn letters(text: &mut Vec<u8>, versions: &Versions) -> Result<(), NoMemory> {
    for place in 0..versions.len() {
        text.extend_from_slice(&[letter(versions.get(place))])?;
    }
    Ok(())
}

fn digit(number: u32) -> u8 {
    if number < 9 {
        b'0' + number as u8
    } else {
        b'9'
    }
}

// The rows in the order of tables and keys.
fn rows(alloc: Global, hist: &Hist) -> Result<Vec<u8>, NoMemory> {
    let mut text = Vec::new(alloc);
    let mut walk = hist.walk();
    for _ in 0..8u32 {
        if let Some(slot) = walk.next_entry() {
            text.extend_from_slice(&[digit(slot)])?;
            if let Some(there) = hist.slot(slot) {
                letters(&mut text, &there.versions)?;
            }
        }
    }
    Ok(text)
}

// A snapshot of a run with this next id and these running ids.
fn snapshot(alloc: Global, run: u64, next: u64, running: &[u64]) -> Result<Snapshot, NoMemory>
    requires ascending { Ascends 1 running.now next }
    requires few { length running.now ≤ 8 }
{
    let mut snapshot = Snapshot::new(alloc, run, 8)?;
    snapshot.fill(run, next, running);
    Ok(snapshot)
}

// The first look-up that does not give what it is to give.
fn wrong_look(hist: &Hist, snapshot: &Snapshot, looks: &[Look]) -> Option<(u64, u8)> {
    for (read, table, key, expected) in looks {
        let view = snapshot.view(0, *read);
        let found = letter(hist.newest(*table, key, &view));
        if found != *expected {
            return Some((*read, found));
        }
    }
    None
}

#[test]
fn look_ups_give_the_newest_version_that_is_admitted(rt: HostRuntime) -> Result<(), NoMemory> {
    let alloc = rt.alloc();
    let mut hist = Hist::new(alloc);
    assert!(rt; hist.is_empty());
    add_all(alloc, &mut hist, &adds())?;
    assert!(rt; hist.len() == 6);
    let shown = rows(alloc, &hist)?;
    assert!(rt; shown.as_slice() == b"1b5-3d0hefa2c4i".as_slice());
    let all = snapshot(alloc, 2, 4, &[])?;
    assert!(rt; wrong_look(&hist, &all, &ALL).is_none());
    let running = snapshot(alloc, 2, 4, &[3])?;
    assert!(rt; wrong_look(&hist, &running, &RUNNING).is_none());
    let earlier = snapshot(alloc, 1, 9, &[7])?;
    assert!(rt; wrong_look(&hist, &earlier, &EARLIER).is_none());
    assert!(rt; hist.slot(6).is_none());
    Ok(())
}

#[test]
fn a_sweep_keeps_the_newest_past_version(rt: HostRuntime) -> Result<(), NoMemory> {
    let alloc = rt.alloc();
    let mut hist = Hist::new(alloc);
    add_all(alloc, &mut hist, &adds())?;
    for (pin, id, expected) in [
        (25, 7, b"1b5-3d0hefa2c4i".as_slice()),
        (24, 8, b"1b5-3d0hefa2c4i".as_slice()),
        (25, 8, b"1b5-3d0hef2c4i".as_slice()),
        (32, 10, b"1b5-3d0he2c4i".as_slice()),
    ] {
        hist.sweep(pin, Name { run: 1, id });
        let left = rows(alloc, &hist)?;
        assert!(rt; left.as_slice() == expected, "at {pin}");
    }
    hist.sweep(u64::MAX, Name { run: 3, id: 0 });
    let left = rows(alloc, &hist)?;
    assert!(rt; left.as_slice() == b"1b5-3d0h2c4i".as_slice());
    Ok(())
}
