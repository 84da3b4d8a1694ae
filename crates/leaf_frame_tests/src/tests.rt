// A page under chains: reads, judgements and the way through the keys. In what is shown a read is
// the letter of its value, `-` where the key was removed, `!` for a conflict and `.` for older.
ghost use Rattle.std.specs.Prelude.{◌≤◌, IfOk, length};
ghost use Rattle.snapshot.specs.Sight.{Ascends, IsSight, sight_of};
ghost use Rattle.leaf_rows.specs.Rows.{AreFit};

use item::{Change, Item};
use leaf_frame::{FrameRead, HeldRow, LeafFrame, NoMemory, judge_row};
use reconcile::Live;
use row_page::Leaf;
use snapshot::Snapshot;
use stamp::{Name, Version, View, Window};
use std::alloc::Global;
use std::test::*;
use update_chain::{Judgement, Update};

// A row of the page, or an update, of run 2. The letter is the value, `-` for a removal.
#[derive(Clone, Copy)]
struct Write {
    key: u8,
    id: u64,
    commit: u64,
    letter: u8,
}

fn wrote(key: u8, id: u64, commit: u64, letter: u8) -> Write {
    Write {
        key,
        id,
        commit,
        letter,
    }
}

fn rows() -> [Write; 4] {
    [
        wrote(b'b', 1, 5, b'x'),
        wrote(b'd', 1, 5, b'-'),
        wrote(b'f', 1, 9, b'p'),
        wrote(b'h', 9, 2, b'r'),
    ]
}

// Those of the transactions 3 and 7 run.
fn updates() -> [Write; 6] {
    [
        wrote(b'a', 2, 6, b'y'),
        wrote(b'a', 7, 0, b'q'),
        wrote(b'b', 3, 0, b'z'),
        wrote(b'd', 2, 6, b'w'),
        wrote(b'e', 2, 6, b'-'),
        wrote(b'g', 5, 0, b'v'),
    ]
}

// What the keys a to i read as: by a view of no transaction, by one at stamp 6, and by that of 3.
const READS: [(u8, u8, u8, u8); 9] = [
    (b'a', b'y', b'y', b'y'),
    (b'b', b'x', b'x', b'z'),
    (b'c', b'.', b'.', b'.'),
    (b'd', b'w', b'w', b'w'),
    (b'e', b'-', b'-', b'-'),
    (b'f', b'p', b'.', b'p'),
    (b'g', b'!', b'.', b'!'),
    (b'h', b'.', b'.', b'.'),
    (b'i', b'.', b'.', b'.'),
];

// The id that refuses a write, 0 where it is allowed: to no transaction, at stamp 6, and to 3.
const JUDGED: [(u8, u64, u64, u64); 7] = [
    (b'a', 7, 7, 7),
    (b'b', 3, 3, 0),
    (b'c', 0, 0, 0),
    (b'd', 0, 0, 0),
    (b'f', 0, 1, 0),
    (b'g', 5, 5, 5),
    (b'h', 9, 9, 9),
];

fn put_cell(out: &mut Vec<u8>, row: Write) -> Result<(), Fail> {
    let code = if row.letter == b'-' { 2u8 } else { 1 };
    let len = if row.letter == b'-' { 0u8 } else { 1 };
    out.extend_from_slice(&[1, 0, code, len, 0, 0, 0])?;
    for number in [2, row.id, row.commit, row.commit] {
        out.extend_from_slice(&number.to_le_bytes())?;
    }
    out.push(row.key)?;
    if row.letter != b'-' {
        out.push(row.letter)?;
    }
    Ok(())
}

// The leaf of the rows.
fn page(alloc: Global) -> Result<Leaf, Fail>
    ensures { IfOk result AreFit }
{
    let mut block = Vec::from_slice(alloc, &[1u8, 1, 4, 0, 179, 0, 0, 0, 0, 0, 0, 0, 0, 0, 0, 0])?;
    for row in rows() {
        put_cell(&mut block, row)?;
    }
    block.resize(4_096, 0)?;
    let leaf = Leaf::of_block(alloc, block)?.ok_or("a leaf")?;
    Ok(leaf)
}

fn update(alloc: Global, written: Write) -> Result<Update, NoMemory> {
    let change = if written.letter == b'-' {
        Change::Remove
    } else {
        Change::Put(Item::new(Vec::from_slice(alloc, &[written.letter])?))
    };
    let name = Name {
        run: 2,
        id: written.id,
    };
    let window = Window {
        name,
        commit: written.commit,
        durable: written.commit,
    };
    Ok(Update {
        version: Version { window, change },
        prepared: 0,
    })
}

// The page under the updates, with an empty slot over a row and one over none. That of 5 is
// prepared.
fn frame(alloc: Global) -> Result<LeafFrame, Fail> {
    let mut frame = LeafFrame::of_page(alloc, page(alloc)?);
    for written in updates() {
        let slot = frame.install(alloc, &[written.key], update(alloc, written)?)?;
        if written.id == 5 {
            frame.mark_prepared(slot, Name { run: 2, id: 5 }, 7);
        }
    }
    for key in [b'f', b'i'] {
        let slot = frame.install(alloc, &[key], update(alloc, wrote(key, 3, 0, b'u'))?)?;
        frame.undo(slot, Name { run: 2, id: 3 });
    }
    Ok(frame)
}

fn snapshot(alloc: Global, next: u64, running: &[u64]) -> Result<Snapshot, NoMemory>
    requires ascending { Ascends 1 running.now next }
    requires few { length running.now ≤ 8 }
{
    let mut snapshot = Snapshot::new(alloc, 2, 8)?;
    snapshot.fill(2, next, running);
    Ok(snapshot)
}

fn letter(read: FrameRead<'_>) -> u8 {
    match read {
        FrameRead::Found(value) => match value.first() {
            Some(letter) => *letter,
            None => b'?',
        },
        FrameRead::Removed => b'-',
        FrameRead::Conflict(_) => b'!',
        FrameRead::Older => b'.',
    }
}

fn refused(judgement: Judgement) -> u64 {
    match judgement {
        Judgement::Allowed => 0,
        Judgement::Refused(name) => name.id,
    }
}

// The keys with their reads, up or down.
fn shown(alloc: Global, frame: &LeafFrame, view: &View<'_>, is_up: bool) -> Result<Vec<u8>, Fail>
    requires { IsSight (sight_of view.now) }
{
    let mut text = Vec::new(alloc);
    let mut bound: Option<&[u8]> = None;
    for _ in 0..12u32 {
        let next = if is_up {
            frame.next_above(bound, view)
        } else {
            frame.next_below(bound, view)
        };
        let Some(HeldRow { key, read }) = next else {
            return Ok(text);
        };
        text.extend_from_slice(key)?;
        text.push(letter(read))?;
        bound = Some(key);
    }
    Ok(text)
}

#[test]
fn a_key_reads_by_its_chain_and_then_by_its_row(rt: HostRuntime) -> Result<(), Fail> {
    let alloc = rt.alloc();
    let frame = frame(alloc)?;
    let seen = snapshot(alloc, 8, &[3, 7])?;
    let other = seen.view(0, 0);
    let at_six = seen.view(0, 6);
    let own = seen.view(3, 0);
    for (key, by_other, by_six, by_own) in READS {
        assert_eq!(rt; letter(frame.read(&[key], &other)), by_other);
        assert_eq!(rt; letter(frame.read(&[key], &at_six)), by_six);
        assert_eq!(rt; letter(frame.read(&[key], &own)), by_own);
    }
    for (key, by_other, by_six, by_own) in JUDGED {
        assert_eq!(rt; refused(frame.judge(&[key], &other)), by_other);
        assert_eq!(rt; refused(frame.judge(&[key], &at_six)), by_six);
        assert_eq!(rt; refused(frame.judge(&[key], &own)), by_own);
    }
    assert!(rt; shown(alloc, &frame, &other, true)?.as_slice() == b"aybxdwfpg!h.".as_slice());
    assert!(rt; shown(alloc, &frame, &other, false)?.as_slice() == b"h.g!fpdwbxay".as_slice());
    assert!(rt; shown(alloc, &frame, &own, true)?.as_slice() == b"aybzdwfpg!h.".as_slice());
    Ok(())
}

#[test]
fn a_row_is_lent_and_judged_under_its_chain(rt: HostRuntime) -> Result<(), Fail> {
    let alloc = rt.alloc();
    let frame = frame(alloc)?;
    let seen = snapshot(alloc, 8, &[3, 7])?;
    let other = seen.view(0, 0);
    for (key, id, judged) in [(b'b', 1, 0), (b'd', 1, 0), (b'f', 1, 0), (b'h', 9, 9)] {
        let cell = frame.row(&[key]).ok_or("a row")?;
        assert_eq!(rt; cell.window.name.id, id);
        assert_eq!(rt; refused(judge_row(&cell, &other)), judged);
    }
    assert!(rt; frame.row(&[b'a']).is_none());
    Ok(())
}

#[test]
fn a_frame_knows_what_lies_in_it(rt: HostRuntime) -> Result<(), Fail> {
    let alloc = rt.alloc();
    let frame = frame(alloc)?;
    for (slot, durable) in [
        (0, 6),
        (1, 5),
        (2, 5),
        (3, 0),
        (4, 0),
        (5, 9),
        (6, 0),
        (7, 0),
    ] {
        assert_eq!(rt; frame.durable_below(slot), durable);
    }
    assert!(rt; frame.greatest() == Name { run: 2, id: 9 });
    assert_eq!(rt; frame.unresolved(&snapshot(alloc, 8, &[3, 7])?), Some(3));
    assert_eq!(rt; frame.unresolved(&snapshot(alloc, 8, &[])?), None);
    assert!(rt; frame.is_changed());
    let clean = LeafFrame::of_page(alloc, page(alloc)?);
    assert!(rt; !clean.is_changed());
    let made = clean.reconcile(alloc, Live::All, 0, Name { run: 0, id: 0 })?;
    assert_eq!(rt; made.images.len(), 1);
    assert_eq!(rt; made.moved.len(), 0);
    Ok(())
}
