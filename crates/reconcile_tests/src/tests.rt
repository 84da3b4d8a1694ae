// What a snapshot sees of chains that writes made. In the rows that are shown a key is the letter
// of its value, `-` where it was removed, and the id of the writer, and `..` where it has no row.
ghost use Rattle.std.specs.Prelude.{◌<◌, ◌≤◌, [], ◌∷◌, length, IfOk, OnOk};
ghost use Rattle.row_page.specs.Rows.{RowFits, key_most, value_of};
ghost use Rattle.reconcile.specs.Cells.{cell_change, cell_version};
ghost use Rattle.reconcile.specs.Capture.{ChainsFit};

use item::{Change, Item};
use leaf_chains::LeafChains;
use reconcile::{Captured, NoMemory, capture, fits_a_leaf};
use row_page::{CellChange, Leaf};
use snapshot::Snapshot;
use stamp::{Name, Version, Window};
use std::alloc::Global;
use update_chain::Update;

#[derive(Clone, Copy)]
enum State {
    Running,
    Committed(u8),
    Prepared(u8),
}

// A write of a key by a transaction, in its state: the stamp of its commit, or of its prepare.
#[derive(Clone, Copy)]
struct Write {
    key: u8,
    run: u8,
    id: u8,
    state: State,
    letter: u8,
}

const WRITES: [Write; 11] = [
    Write {
        key: b'c',
        run: 2,
        id: 1,
        state: State::Committed(5),
        letter: b'x',
    },
    Write {
        key: b'a',
        run: 2,
        id: 1,
        state: State::Committed(5),
        letter: b'y',
    },
    Write {
        key: b'a',
        run: 2,
        id: 3,
        state: State::Running,
        letter: b'z',
    },
    Write {
        key: b'b',
        run: 2,
        id: 2,
        state: State::Committed(6),
        letter: b'u',
    },
    Write {
        key: b'b',
        run: 2,
        id: 5,
        state: State::Prepared(7),
        letter: b'v',
    },
    Write {
        key: b'd',
        run: 2,
        id: 1,
        state: State::Committed(5),
        letter: b'w',
    },
    Write {
        key: b'd',
        run: 2,
        id: 2,
        state: State::Committed(6),
        letter: b'-',
    },
    Write {
        key: b'e',
        run: 2,
        id: 3,
        state: State::Running,
        letter: b'q',
    },
    Write {
        key: b'f',
        run: 1,
        id: 9,
        state: State::Committed(1),
        letter: b'o',
    },
    Write {
        key: b'c',
        run: 2,
        id: 4,
        state: State::Committed(8),
        letter: b't',
    },
    Write {
        key: b'f',
        run: 2,
        id: 6,
        state: State::Committed(9),
        letter: b's',
    },
];

fn change_of(alloc: Global, letter: u8) -> Result<Change, NoMemory>
    ensures { IfOk result (λ c. length (value_of (cell_change c)) ≤ 1) }
{
    if letter == b'-' {
        return Ok(Change::Remove);
    }
    Ok(Change::Put(Item::new(Vec::from_slice(alloc, &[letter])?)))
}

// Its stamp and its mark.
fn stamps_of(state: State) -> (u64, u64)
    ensures { result.0 < 256 }
{
    match state {
        State::Running => (0, 0),
        State::Committed(stamp) => (u64::from(stamp), 0),
        State::Prepared(stamp) => (0, u64::from(stamp)),
    }
}

fn update_of(alloc: Global, write: &Write) -> Result<Update, NoMemory>
    ensures { IfOk result (λ u. RowFits [] key_most (write.now.key ∷ [], cell_version u.version)) }
{
    let change = change_of(alloc, write.letter)?;
    let (stamp, prepared) = stamps_of(write.state);
    Ok(Update {
        version: Version {
            window: Window {
                name: Name {
                    run: u64::from(write.run).max(1),
                    id: u64::from(write.id).max(1),
                },
                commit: stamp,
                durable: stamp,
            },
            change,
        },
        prepared,
    })
}

fn install(alloc: Global, chains: &mut LeafChains, write: &Write) -> Result<(), NoMemory>
    requires { ChainsFit chains.old }
    ensures { OnOk result (ChainsFit chains.new) }
{
    let update = update_of(alloc, write)?;
    let _slot = chains.install(alloc, &[write.key], update)?;
    Ok(())
}

fn built(alloc: Global, writes: &[Write]) -> Result<LeafChains, NoMemory>
    ensures { IfOk result (λ chains. ChainsFit chains) }
{
    let mut chains = LeafChains::new(alloc);
    for write in writes {
        install(alloc, &mut chains, write)?;
    }
    Ok(chains)
}

fn letter_in(change: &CellChange<&[u8]>) -> u8 {
    match change {
        CellChange::Put(value) => match value.first() {
            Some(letter) => *letter,
            None => b'?',
        },
        CellChange::Remove => b'-',
    }
}

fn digit(id: u64) -> u8 {
    if id < 10 { b'0' + id as u8 } else { b'?' }
}

// The row of a key.
fn shown_at(leaf: &Leaf, key: u8) -> [u8; 2] {
    match leaf.find(&[key]) {
        Ok(i) if i < leaf.len() => {
            let cell = leaf.cell(i);
            [letter_in(&cell.change), digit(cell.window.name.id)]
        }
        _ => [b'.', b'.'],
    }
}

fn shown(alloc: Global, leaf: &Leaf, keys: &[u8]) -> Result<Vec<u8>, NoMemory> {
    let mut text = Vec::new(alloc);
    for key in keys {
        text.extend_from_slice(shown_at(leaf, *key).as_slice())?;
    }
    Ok(text)
}

#[test]
fn each_key_has_the_newest_version_that_is_seen(rt: HostRuntime) -> Result<(), NoMemory> {
    let alloc = rt.alloc();
    let mut snapshot = Snapshot::new(alloc, 2, 8)?;
    snapshot.fill(2, 6, &[3, 5]);
    let none = capture(alloc, &LeafChains::new(alloc), &snapshot)?;
    assert!(rt; matches!(&none, Captured::Nothing));
    let chains = built(alloc, &WRITES)?;
    assert!(rt; fits_a_leaf(&chains, &snapshot));
    let Captured::Leaf(captured) = capture(alloc, &chains, &snapshot)? else {
        panic!(rt; "there are rows");
    };
    assert!(rt; captured.block.len() == 4_096);
    assert!(rt; captured.greatest.run == 2);
    assert!(rt; captured.greatest.id == 4);
    assert!(rt; captured.durable == 8);
    let Some(leaf) = Leaf::of_block(alloc, captured.block)? else {
        panic!(rt; "the block spells a leaf");
    };
    assert!(rt; shown(alloc, &leaf, b"abcdef")?.as_slice() == b"y1u2t4-2..o9".as_slice());
    Ok(())
}
