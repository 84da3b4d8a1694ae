// Leaves found by keys and beside each other, a leaf that gives way. A leaf
// is shown as the letter that its link's offset is.

ghost use Rattle.std.specs.Prelude.{◌≡◌, [], IfOk};
ghost use Rattle.tree_dir_tests.specs.Tries.{AreThree, IsKeyed};

use device_layout::{Addr, Link};
use item::Item;
use stamp::Name;
use std::alloc::Global;
use tree_dir::{Dir, Entry, Framed, NoMemory};

const BEHIND: [u8; 1] = *b"g";

const LAST: [u8; 1] = *b"p";

fn link(letter: u8) -> Link {
    Link {
        addr: Addr {
            offset: u64::from(letter),
            size: 4_096,
            sum: 0,
        },
        greatest: Name {
            run: 1,
            id: u64::from(letter),
        },
        durable: u64::from(letter),
    }
}

fn entry(alloc: Global, key: &[u8], letter: u8) -> Result<Entry, NoMemory>
    ensures { IfOk result (λ e. e.key ≡ key.now) }
{
    let key = Item::new(Vec::from_slice(alloc, key)?);
    Ok(Entry {
        key,
        link: link(letter),
    })
}

// Leaves from the empty key, from g and from p on.
fn three(alloc: Global, letters: &[u8; 3]) -> Result<Vec<Entry>, NoMemory>
    ensures { IfOk result (λ v. AreThree v.items) }
{
    let first = entry(alloc, b"", letters[0])?;
    let second = entry(alloc, &BEHIND, letters[1])?;
    let third = entry(alloc, &LAST, letters[2])?;
    let mut entries = Vec::new(alloc);
    entries.reserve(3)?;
    entries.push_reserved(first);
    entries.push_reserved(second);
    entries.push_reserved(third);
    Ok(entries)
}

fn one(alloc: Global, letter: u8) -> Result<Vec<Entry>, NoMemory>
    ensures { IfOk result (λ v. IsKeyed [] v.items) }
{
    let first = entry(alloc, b"", letter)?;
    let mut entries = Vec::new(alloc);
    entries.reserve(1)?;
    entries.push_reserved(first);
    Ok(entries)
}

// Tables 2 and 1, each of three leaves.
fn two_tables(alloc: Global) -> Result<Dir, NoMemory> {
    let mut dir = Dir::new(alloc);
    dir.add_table(2, three(alloc, b"abc")?)?;
    dir.add_table(1, three(alloc, b"xyz")?)?;
    Ok(dir)
}

// Table 7 of one leaf, which gave way to three; and the id that it had.
fn split(alloc: Global) -> Result<(Dir, u64), NoMemory> {
    let mut dir = Dir::new(alloc);
    dir.add_table(7, one(alloc, b'o')?)?;
    let Some(leaf) = dir.leaf_for(7, b"x") else {
        return Err(NoMemory);
    };
    dir.replace(leaf, three(alloc, b"rst")?)?;
    Ok((dir, leaf))
}

// The letter of a leaf, a dot for none.
fn letter(dir: &Dir, leaf: Option<u64>) -> u8 {
    let Some(leaf) = leaf else {
        return b'.';
    };
    match dir.entry(leaf) {
        None => b'.',
        Some(entry) => match u8::try_from(entry.link.addr.offset) {
            Ok(letter) => letter,
            Err(_) => b'?',
        },
    }
}

fn beside(dir: &Dir, table: u32, key: &[u8]) -> [u8; 3] {
    let Some(leaf) = dir.leaf_for(table, key) else {
        return *b"...";
    };
    [
        letter(dir, dir.prev_leaf(leaf)),
        letter(dir, Some(leaf)),
        letter(dir, dir.next_leaf(leaf)),
    ]
}

#[test]
fn keys_lie_in_leaves_beside_each_other(rt: HostRuntime) -> Result<(), NoMemory> {
    let mut dir = two_tables(rt.alloc())?;
    for (table, key, expected) in [
        (2u32, b"".as_slice(), b".ab"),
        (2, b"f\xff".as_slice(), b".ab"),
        (2, b"g".as_slice(), b"abc"),
        (2, b"o".as_slice(), b"abc"),
        (2, b"p\0".as_slice(), b"bc."),
        (1, b"".as_slice(), b".xy"),
        (1, b"\xff".as_slice(), b"yz."),
        (0, b"g".as_slice(), b"..."),
        (3, b"g".as_slice(), b"..."),
    ] {
        let found = beside(&dir, table, key);
        assert!(rt; found == *expected);
    }
    let Some(leaf) = dir.leaf_for(1, b"h") else {
        return Err(NoMemory);
    };
    let frame = Some(Framed {
        frame: 5,
        generation: 9,
    });
    dir.set_frame(leaf, frame);
    dir.set_link(leaf, link(b'w'));
    assert!(rt; dir.frame(leaf) == frame);
    assert!(rt; beside(&dir, 1, b"h") == *b"xwz");
    assert!(rt; beside(&dir, 2, b"h") == *b"abc");
    Ok(())
}

#[test]
fn a_leaf_gives_way_and_its_id_is_gone(rt: HostRuntime) -> Result<(), NoMemory> {
    let (dir, gone) = split(rt.alloc())?;
    assert!(rt; dir.leaf(gone).is_none());
    assert!(rt; dir.next_leaf(gone).is_none());
    assert!(rt; beside(&dir, 7, b"a") == *b".rs");
    assert!(rt; beside(&dir, 7, b"x") == *b"st.");
    Ok(())
}
