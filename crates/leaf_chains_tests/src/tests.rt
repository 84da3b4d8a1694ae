// Keys as they come, what is done in their slots, and the way through them. In the rows that are
// shown a key is its slot, the number of its updates and the letter of the newest.
ghost use Rattle.std.specs.Prelude.{◌≤◌, length};
ghost use Rattle.snapshot.specs.Sight.{Ascends};

use item::{Change, Item};
use leaf_chains::{Added, LeafChains, NoMemory};
use snapshot::Snapshot;
use stamp::{Name, Version, Window};
use std::alloc::Global;
use update_chain::{Chain, Judgement, Read, Update};

#[derive(Clone, Copy)]
enum Step {
    Put {
        key: &'static [u8],
        id: u64,
        letter: u8,
    },
    // An add, and an install in the slot where the key has one.
    Add {
        key: &'static [u8],
        id: u64,
        letter: u8,
    },
    Stamp {
        slot: u32,
        id: u64,
        at: u64,
    },
    Mark {
        slot: u32,
        id: u64,
        at: u64,
    },
    Undo {
        slot: u32,
        id: u64,
    },
}

const STEPS: [Step; 11] = [
    Step::Put {
        key: b"m",
        id: 1,
        letter: b'x',
    },
    Step::Put {
        key: b"c",
        id: 1,
        letter: b'y',
    },
    Step::Add {
        key: b"ma",
        id: 1,
        letter: b'z',
    },
    Step::Put {
        key: b"",
        id: 1,
        letter: b'e',
    },
    Step::Put {
        key: b"m",
        id: 1,
        letter: b'w',
    },
    Step::Stamp {
        slot: 0,
        id: 1,
        at: 5,
    },
    Step::Add {
        key: b"m",
        id: 2,
        letter: b'v',
    },
    Step::Undo { slot: 1, id: 1 },
    Step::Undo { slot: 2, id: 9 },
    Step::Undo { slot: 7, id: 1 },
    Step::Mark {
        slot: 2,
        id: 1,
        at: 7,
    },
];

// A bound, and the slots of the next keys above it and below it, 9 for none.
const NEXT: [(&[u8], u32, u32); 7] = [
    (b"", 1, 9),
    (b"a", 1, 3),
    (b"c", 0, 3),
    (b"m", 2, 1),
    (b"m\0", 2, 0),
    (b"ma", 9, 0),
    (b"z", 9, 2),
];

// A key, and its slot, 9 for none.
const FOUND: [(&[u8], u32); 5] = [(b"m", 0), (b"ma", 2), (b"", 3), (b"n", 9), (b"cc", 9)];

fn update(alloc: Global, id: u64, letter: u8) -> Result<Update, NoMemory> {
    Ok(Update {
        version: Version {
            window: Window {
                name: Name { run: 1, id },
                commit: 0,
                durable: 0,
            },
            change: Change::Put(Item::new(Vec::from_slice(alloc, &[letter])?)),
        },
        prepared: 0,
    })
}

fn add(alloc: Global, chains: &mut LeafChains, key: &[u8], update: Update) -> Result<(), NoMemory> {
    match chains.add(alloc, key, update)? {
        Added::New(_) => Ok(()),
        Added::There(slot, update) => chains.install_at(slot, update),
    }
}

fn take(alloc: Global, chains: &mut LeafChains, step: Step) -> Result<(), NoMemory> {
    match step {
        Step::Put { key, id, letter } => {
            let update = update(alloc, id, letter)?;
            let _slot = chains.install(alloc, key, update)?;
        }
        Step::Add { key, id, letter } => {
            let update = update(alloc, id, letter)?;
            add(alloc, chains, key, update)?;
        }
        Step::Stamp { slot, id, at } => chains.stamp(slot, Name { run: 1, id }, at, at),
        Step::Mark { slot, id, at } => chains.mark_prepared(slot, Name { run: 1, id }, at),
        Step::Undo { slot, id } => chains.undo(slot, Name { run: 1, id }),
    }
    Ok(())
}

fn take_all(alloc: Global, chains: &mut LeafChains, steps: &[Step]) -> Result<(), NoMemory> {
    for step in steps {
        take(alloc, chains, *step)?;
    }
    Ok(())
}

fn digit(number: usize) -> u8 {
    if number < 9 {
        b'0' + number as u8
    } else {
        b'9'
    }
}

fn letter_in(change: &Change) -> u8 {
    match change {
        Change::Put(value) => match value.as_bytes().first() {
            Some(letter) => *letter,
            None => b'?',
        },
        Change::Remove => b'-',
    }
}

fn newest_letter(chain: &Chain) -> u8 {
    match chain.newest() {
        None => b'.',
        Some(update) => letter_in(&update.version.change),
    }
}

// The rows in the order of their keys, or from behind.
fn rows(alloc: Global, chains: &LeafChains, is_up: bool) -> Result<Vec<u8>, NoMemory> {
    let mut text = Vec::new(alloc);
    let mut bound: Option<&[u8]> = None;
    for _ in 0..8u32 {
        let next = if is_up {
            chains.next_above(bound)
        } else {
            chains.next_below(bound)
        };
        let Some(slot) = next else {
            return Ok(text);
        };
        let Some(there) = chains.slot(slot) else {
            return Ok(text);
        };
        text.extend_from_slice(&[
            digit(slot as usize),
            digit(there.chain.len()),
            newest_letter(&there.chain),
        ])?;
        bound = Some(there.key.as_bytes());
    }
    Ok(text)
}

// The slots of a walk.
fn walked(alloc: Global, chains: &LeafChains, bound: Option<&[u8]>) -> Result<Vec<u8>, NoMemory> {
    let mut text = Vec::new(alloc);
    let mut walk = chains.walk_above(bound);
    for _ in 0..8u32 {
        if let Some(slot) = walk.next_entry() {
            text.extend_from_slice(&[digit(slot as usize)])?;
        }
    }
    Ok(text)
}

fn or_nine(slot: Option<u32>) -> u32 {
    slot.unwrap_or(9)
}

// The first bound whose neighbours are not as they are to be.
fn wrong_next(chains: &LeafChains, cases: &[(&'static [u8], u32, u32)]) -> Option<&'static [u8]> {
    for (bound, above, below) in cases {
        let is_above = or_nine(chains.next_above(Some(bound))) == *above;
        let is_below = or_nine(chains.next_below(Some(bound))) == *below;
        if !is_above || !is_below {
            return Some(bound);
        }
    }
    None
}

// The first key that is not found as it is to be.
fn wrong_slot(chains: &LeafChains, cases: &[(&'static [u8], u32)]) -> Option<&'static [u8]> {
    for (key, slot) in cases {
        if or_nine(chains.find(key)) != *slot {
            return Some(key);
        }
    }
    None
}

// A snapshot of run 1 with this next id and these running ids.
fn snapshot(alloc: Global, next: u64, running: &[u64]) -> Result<Snapshot, NoMemory>
    requires ascending { Ascends 1 running.now next }
    requires few { length running.now ≤ 8 }
{
    let mut snapshot = Snapshot::new(alloc, 1, 8)?;
    snapshot.fill(1, next, running);
    Ok(snapshot)
}

// The letter that a read answers: of the value, or one of those below.
fn letter(read: Read<'_>) -> u8 {
    match read {
        Read::Found(value) => match value.as_bytes().first() {
            Some(letter) => *letter,
            None => b'?',
        },
        Read::Removed => b'-',
        Read::Conflict(_) => b'!',
        Read::Older => b'.',
    }
}

#[test]
fn keys_stand_in_order_and_keep_their_slots(rt: HostRuntime) -> Result<(), NoMemory> {
    let alloc = rt.alloc();
    let mut chains = LeafChains::new(alloc);
    assert!(rt; chains.is_empty());
    take_all(alloc, &mut chains, &STEPS)?;
    assert!(rt; chains.len() == 4);
    assert!(rt; chains.greatest() == Name { run: 1, id: 2 });
    let up = rows(alloc, &chains, true)?;
    assert!(rt; up.as_slice() == b"31e10.02v21z".as_slice());
    let down = rows(alloc, &chains, false)?;
    assert!(rt; down.as_slice() == b"21z02v10.31e".as_slice());
    assert!(rt; wrong_next(&chains, &NEXT).is_none());
    assert!(rt; wrong_slot(&chains, &FOUND).is_none());
    assert!(rt; walked(alloc, &chains, None)?.as_slice() == b"3102".as_slice());
    assert!(rt; walked(alloc, &chains, Some(b"a"))?.as_slice() == b"102".as_slice());
    assert!(rt; walked(alloc, &chains, Some(b"ma"))?.is_empty());
    assert!(rt; chains.key(2).is_some());
    assert!(rt; chains.chain(4).is_none());
    chains.trim(0, 9, Name { run: 1, id: 2 });
    let trimmed = rows(alloc, &chains, true)?;
    assert!(rt; trimmed.as_slice() == b"31e10.02v21z".as_slice());
    chains.roll_back_to_stable(0, 4);
    let stable = rows(alloc, &chains, true)?;
    assert!(rt; stable.as_slice() == b"31e10.01v21z".as_slice());
    Ok(())
}

#[test]
fn reads_and_writes_are_those_of_the_keys_chain(rt: HostRuntime) -> Result<(), NoMemory> {
    let alloc = rt.alloc();
    let mut chains = LeafChains::new(alloc);
    take_all(alloc, &mut chains, &STEPS)?;
    let seen = snapshot(alloc, 3, &[2])?;
    let other = seen.view(0, 0);
    let own = seen.view(2, 0);
    assert!(rt; letter(chains.read(b"m", &other)) == b'w');
    assert!(rt; letter(chains.read(b"m", &own)) == b'v');
    assert!(rt; letter(chains.read(b"ma", &other)) == b'!');
    assert!(rt; letter(chains.read(b"c", &other)) == b'.');
    assert!(rt; letter(chains.read(b"zz", &other)) == b'.');
    let refused = Judgement::Refused(Name { run: 1, id: 2 });
    assert!(rt; chains.judge(b"m", &other) == refused);
    assert!(rt; chains.judge(b"m", &own) == Judgement::Allowed);
    assert!(rt; chains.judge(b"zz", &other) == Judgement::Allowed);
    Ok(())
}
