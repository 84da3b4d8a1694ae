// What reads of chains answer, and what each call leaves of one. Stamps are in hexadecimal, as
// texts write them.
ghost use Rattle.std.specs.Prelude.{◌≤◌, length};
ghost use Rattle.snapshot.specs.Sight.{Ascends};

use item::{Change, Item};
use snapshot::Snapshot;
use stamp::{Name, Version, Window};
use std::alloc::Global;
use update_chain::{Chain, Judgement, NoMemory, Read, Update};

fn name(id: u64) -> Name {
    Name { run: 1, id }
}

fn update(id: u64, commit: u64, durable: u64, change: Change) -> Update {
    Update {
        version: Version {
            window: Window {
                name: name(id),
                commit,
                durable,
            },
            change,
        },
        prepared: 0,
    }
}

fn put(alloc: Global, letter: u8) -> Result<Change, NoMemory> {
    Ok(Change::Put(Item::new(Vec::from_slice(alloc, &[letter])?)))
}

// The letter that a read answers: of the value, or one of those below.
fn letter(read: Read<'_>) -> u8 {
    match read {
        Read::Found(value) => match value.as_bytes().first() {
            Some(letter) => *letter,
            None => b'?',
        },
        Read::Removed => b'-',
        Read::Conflict(_) => b'!',
        Read::Older => b'.',
    }
}

// A snapshot of run 1 with this next id and these running ids.
fn snapshot(alloc: Global, next: u64, running: &[u64]) -> Result<Snapshot, NoMemory>
    requires ascending { Ascends 1 running.now next }
    requires few { length running.now ≤ 8 }
{
    let mut snapshot = Snapshot::new(alloc, 1, 8)?;
    snapshot.fill(1, next, running);
    Ok(snapshot)
}

// Versions x of id 1 at stamp a, and y of id 2 at 14.
fn two_versions(alloc: Global) -> Result<Chain, NoMemory> {
    let mut chain = Chain::new(alloc);
    chain.install(update(1, 0xa, 0xa, put(alloc, b'x')?))?;
    chain.install(update(2, 0x14, 0x14, put(alloc, b'y')?))?;
    Ok(chain)
}

#[test]
fn a_read_takes_the_newest_version_that_is_admitted(rt: HostRuntime) -> Result<(), NoMemory> {
    let chain = two_versions(rt.alloc())?;
    let later = snapshot(rt.alloc(), 3, &[])?;
    for (read, answer) in [
        (0x9, b'.'),
        (0xa, b'x'),
        (0x13, b'x'),
        (0x14, b'y'),
        (0x0, b'y'),
    ] {
        assert!(rt; letter(chain.read(&later.view(0, read))) == answer);
    }
    let between = snapshot(rt.alloc(), 3, &[2])?;
    assert!(rt; letter(chain.read(&between.view(0, 0))) == b'x');
    let earlier = snapshot(rt.alloc(), 1, &[])?;
    assert!(rt; letter(chain.read(&earlier.view(0, 0))) == b'.');
    Ok(())
}

#[test]
fn a_prepared_update_is_met_by_later_snapshots(rt: HostRuntime) -> Result<(), NoMemory> {
    let mut chain = Chain::new(rt.alloc());
    chain.install(update(1, 0, 0, put(rt.alloc(), b'1')?))?;
    let older = snapshot(rt.alloc(), 3, &[2])?;
    chain.install(update(2, 0, 0, put(rt.alloc(), b'2')?))?;
    chain.mark_prepared(name(2), 0x1e);
    let newer = snapshot(rt.alloc(), 3, &[])?;
    assert!(rt; letter(chain.read(&newer.view(0, 0))) == b'!');
    assert!(rt; letter(chain.read(&newer.view(0, 0x1e))) == b'!');
    assert!(rt; letter(chain.read(&newer.view(0, 0x1d))) == b'1');
    assert!(rt; letter(chain.read(&older.view(0, 0))) == b'1');
    assert!(rt; letter(chain.read(&older.view(2, 0))) == b'2');
    chain.stamp(name(2), 0x1e, 0x23);
    assert!(rt; letter(chain.read(&newer.view(0, 0))) == b'2');
    assert!(rt; letter(chain.read(&newer.view(0, 0x1d))) == b'1');
    Ok(())
}

#[test]
fn a_removed_key_is_absent(rt: HostRuntime) -> Result<(), NoMemory> {
    let mut chain = two_versions(rt.alloc())?;
    chain.install(update(3, 0x20, 0x20, Change::Remove))?;
    let view = snapshot(rt.alloc(), 4, &[])?;
    assert!(rt; letter(chain.read(&view.view(0, 0))) == b'-');
    assert!(rt; letter(chain.read(&view.view(0, 0x14))) == b'y');
    Ok(())
}

#[test]
fn a_second_write_takes_the_place_of_the_first(rt: HostRuntime) -> Result<(), NoMemory> {
    let mut chain = two_versions(rt.alloc())?;
    chain.install(update(3, 0, 0, put(rt.alloc(), b'a')?))?;
    chain.install(update(3, 0, 0, put(rt.alloc(), b'b')?))?;
    assert!(rt; chain.len() == 3);
    let view = snapshot(rt.alloc(), 3, &[])?;
    assert!(rt; letter(chain.read(&view.view(3, 0))) == b'b');
    chain.undo(name(2));
    assert!(rt; chain.len() == 3);
    chain.undo(name(3));
    assert!(rt; chain.len() == 2);
    match chain.newest() {
        Some(newest) => assert!(rt; newest.version.window.name.id == 2),
        None => assert!(rt; false),
    }
    match chain.get(1) {
        Some(oldest) => assert!(rt; oldest.version.window.commit == 0xa),
        None => assert!(rt; false),
    }
    assert!(rt; chain.get(2).is_none());
    assert!(rt; Chain::new(rt.alloc()).is_empty());
    Ok(())
}

#[test]
fn a_trim_keeps_down_to_the_newest_that_covers(rt: HostRuntime) -> Result<(), NoMemory> {
    for (pin, floor, left) in [
        (0x28, 6, 2),
        (0x28, 4, 3),
        (0x1e, 6, 3),
        (0x1d, 6, 4),
        (0x9, 6, 5),
        (0x32, 1, 5),
    ] {
        let mut chain = Chain::new(rt.alloc());
        for (id, stamp) in [(1, 10), (2, 20), (3, 30), (4, 40), (5, 50)] {
            chain.install(update(id, stamp, stamp, Change::Remove))?;
        }
        chain.trim(pin, name(floor));
        assert!(rt; chain.len() == left);
    }
    Ok(())
}

#[test]
fn a_write_is_judged_by_the_newest_update(rt: HostRuntime) -> Result<(), NoMemory> {
    let mut chain = two_versions(rt.alloc())?;
    let view = snapshot(rt.alloc(), 4, &[3])?;
    let refused = Judgement::Refused(name(2));
    assert!(rt; chain.judge(&view.view(0, 0x14)) == Judgement::Allowed);
    assert!(rt; chain.judge(&view.view(0, 0x13)) == refused);
    chain.mark_prepared(name(2), 0x14);
    assert!(rt; chain.judge(&view.view(0, 0)) == refused);
    assert!(rt; chain.judge(&view.view(2, 0)) == Judgement::Allowed);
    chain.install(update(3, 0, 0, Change::Remove))?;
    assert!(rt; chain.judge(&view.view(0, 0)) == Judgement::Refused(name(3)));
    assert!(rt; Chain::new(rt.alloc()).judge(&view.view(0, 0)) == Judgement::Allowed);
    Ok(())
}

#[test]
fn a_rollback_keeps_what_is_durable_at_stable(rt: HostRuntime) -> Result<(), NoMemory> {
    for (stable, left, newest) in [(0, 3, 3), (50, 3, 3), (20, 2, 3), (10, 1, 1), (9, 0, 0)] {
        let mut chain = Chain::new(rt.alloc());
        for (id, durable) in [(1, 10), (2, 30), (3, 20)] {
            chain.install(update(id, durable, durable, Change::Remove))?;
        }
        chain.roll_back_to_stable(stable);
        assert!(rt; chain.len() == left);
        match chain.newest() {
            Some(update) => assert!(rt; update.version.window.name.id == newest),
            None => assert!(rt; newest == 0),
        }
    }
    Ok(())
}
