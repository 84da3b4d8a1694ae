// A tree that is written, and written over with another leaf in the middle. Each leaf has one row of
// 16,384 bytes: its block has five units, and an inner page's has one.
ghost use Rattle.std.specs.Prelude.{◌≤◌, [], ◌∷◌, ℕ, List, length, IfOk, OnOk};
ghost use Rattle.row_page.specs.Rows.{Row, RowFits, key_most, value_of};
ghost use Rattle.reconcile.specs.Cells.{cell_change, cell_version};
ghost use Rattle.reconcile.specs.Capture.{ChainsFit};
ghost use Rattle.leaf_rows.specs.Rows.{AreFit};
ghost use Rattle.reconcile.specs.Images.{AreImages};

use block_mgr::Blocks;
use device_layout::Addr;
use disk_model::{Call, MemDisk};
use failure::NoMemory;
use item::{Change, Item};
use leaf_chains::LeafChains;
use reconcile::{Image, Live, reconcile};
use stamp::{Name, Version, Window};
use std::alloc::Global;
use std::process::Abort;
use tree_write::{keep_tree, may_keep, write_tree};
use update_chain::Update;

const KEYS: [u8; 3] = *b"ags";

// Where the blocks of the first tree are captured, and of the second one: the leaves and the root.
const FIRST: [u64; 4] = [8_192, 28_672, 49_152, 69_632];

const SECOND: [u64; 4] = [8_192, 73_728, 49_152, 94_208];

fn update(alloc: Global, key: u8, letter: u8) -> Result<Update, NoMemory>
    ensures { IfOk result (λ u. RowFits [] key_most (key ∷ [], cell_version u.version)) }
{
    let version = Version {
        window: Window {
            name: Name { run: 1, id: 3 },
            commit: 5,
            durable: 5,
        },
        change: change_of(alloc, letter)?,
    };
    Ok(Update {
        version,
        prepared: 0,
    })
}

fn change_of(alloc: Global, letter: u8) -> Result<Change, NoMemory>
    ensures { IfOk result (λ c. length (value_of (cell_change c)) ≤ 16384) }
{
    let mut value = Vec::new(alloc);
    value.resize(16_384, letter)?;
    Ok(Change::Put(Item::new(value)))
}

fn install(alloc: Global, chains: &mut LeafChains, key: u8, letter: u8) -> Result<(), NoMemory>
    requires { ChainsFit chains.old }
    ensures { OnOk result (ChainsFit chains.new) }
{
    let update = update(alloc, key, letter)?;
    let _slot = chains.install(alloc, &[key], update)?;
    Ok(())
}

// The images of three rows with values of these letters.
fn images(alloc: Global, letters: &[u8; 3]) -> Result<Vec<Image>, NoMemory>
    ensures { IfOk result (λ v. (rows : List Row) × AreImages v.items rows × AreFit rows) }
{
    let mut chains = LeafChains::new(alloc);
    for i in 0..3 {
        install(alloc, &mut chains, KEYS[i], letters[i])?;
    }
    let past = Name {
        run: u64::MAX,
        id: u64::MAX,
    };
    let made = reconcile(alloc, None, &chains, Live::All, u64::MAX, past)?;
    Ok(made.images)
}

fn offsets(rt: &impl Abort, alloc: Global, addrs: &[Addr]) -> Vec<u64> {
    let mut offsets = Vec::new(alloc);
    for addr in addrs {
        offsets.push(addr.offset).expect(rt, "there is memory");
    }
    offsets
}

fn writes(disk: &MemDisk) -> usize {
    let calls = disk.calls().iter();
    calls
        .filter(|call| matches!(call, Call::Wrote(_, _)))
        .count()
}

#[test]
fn a_leaf_that_is_the_same_keeps_its_block(rt: HostRuntime) {
    let alloc = rt.alloc();
    let mut content = Vec::new(alloc);
    content.resize(8_192, 0).expect(&rt, "there is memory");
    let made = MemDisk::new(alloc, content, 1 << 20, Vec::new(alloc));
    let mut disk = made.expect(&rt, "there is memory");
    let mut blocks = Blocks::new(alloc);
    blocks.ckpt_hold();
    let mut captured = Vec::new(alloc);
    let three = images(alloc, b"xyz").expect(&rt, "there is memory");
    let wrote = write_tree(alloc, &mut disk, &mut blocks, &[], three, &mut captured);
    let first = wrote.expect(&rt, "there is room");
    let found = offsets(&rt, alloc, &captured);
    assert!(rt; found.as_slice() == FIRST.as_slice());
    assert_eq!(rt; first.root.level, 1);
    assert_eq!(rt; writes(&disk), 4);
    blocks.ckpt_done();
    blocks.ckpt_hold();
    let mut captured = Vec::new(alloc);
    let three = images(alloc, b"xqz").expect(&rt, "there is memory");
    let wrote = write_tree(
        alloc,
        &mut disk,
        &mut blocks,
        &first.leaves,
        three,
        &mut captured,
    );
    let second = wrote.expect(&rt, "there is room");
    let found = offsets(&rt, alloc, &captured);
    assert!(rt; found.as_slice() == SECOND.as_slice());
    assert_eq!(rt; second.root.link.addr.offset, 94_208);
    assert_eq!(rt; writes(&disk), 6);
    assert!(rt; may_keep(&blocks, &second));
    let kept = keep_tree(&mut blocks, &second, &mut captured);
    assert!(rt; kept.is_ok());
    assert_eq!(rt; captured.len(), 8);
}
