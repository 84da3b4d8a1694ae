// Which units are used again, and when: blocks freed and captured, checkpoints done and given up.
use block_mgr::{Addr, Blocks, Found, Holder};
use disk_model::{Disk, MemDisk};
use std::alloc::Global;
use std::process::Abort;
use wt_code::StoreError;

fn new_disk(rt: &impl Abort, alloc: Global, capacity: u64, failing: &[u64]) -> MemDisk {
    let mut content = Vec::new(alloc);
    content.resize(8192, 0).expect(rt, "there is memory");
    let failing = Vec::from_slice(alloc, failing).expect(rt, "there is memory");
    MemDisk::new(alloc, content, capacity, failing).expect(rt, "there is memory")
}

// Where a block of so many units goes, or why it goes nowhere.
fn writes(
    rt: &impl Abort,
    alloc: Global,
    blocks: &mut Blocks,
    disk: &mut MemDisk,
    units: usize,
) -> Result<Addr, StoreError> {
    assert!(rt; blocks.end() <= disk.bytes().len() as u64);
    assert!(rt; 1 <= units && units <= 256);
    let mut block = Vec::new(alloc);
    block.resize(units * 4096, 1).expect(rt, "there is memory");
    blocks.write_block(disk, &block)
}

// A block of one unit that fits.
fn unit(rt: &impl Abort, alloc: Global, blocks: &mut Blocks, disk: &mut MemDisk) -> Addr {
    writes(rt, alloc, blocks, disk, 1).expect(rt, "it fits")
}

fn captures(rt: &impl Abort, blocks: &mut Blocks, addr: Addr) {
    assert!(rt; blocks.is_held() && blocks.is_live(addr));
    blocks.capture(addr);
}

fn frees(rt: &impl Abort, blocks: &mut Blocks, addr: Addr) {
    assert!(rt; blocks.is_live(addr));
    blocks.free(addr);
    assert!(rt; !blocks.is_live(addr));
}

fn begins(rt: &impl Abort, blocks: &mut Blocks) {
    assert!(rt; !blocks.is_held());
    blocks.ckpt_hold();
}

fn ends(rt: &impl Abort, blocks: &mut Blocks, is_complete: bool) {
    assert!(rt; blocks.is_held());
    if is_complete {
        blocks.ckpt_done();
    } else {
        blocks.ckpt_drop();
    }
}

#[test]
fn a_block_of_a_checkpoint_stays_until_the_next_is_complete(rt: HostRuntime) {
    let alloc = rt.alloc();
    let mut disk = new_disk(&rt, alloc, 1_048_576, &[]);
    let mut blocks = Blocks::new(alloc);
    let first = unit(&rt, alloc, &mut blocks, &mut disk);
    let second = unit(&rt, alloc, &mut blocks, &mut disk);
    assert!(rt; first.offset == 8192 && second.offset == 12288);
    begins(&rt, &mut blocks);
    captures(&rt, &mut blocks, first);
    // Nobody else has the second one: its unit is used again at once.
    frees(&rt, &mut blocks, second);
    let third = unit(&rt, alloc, &mut blocks, &mut disk);
    assert_eq!(rt; third.offset, 12288);
    ends(&rt, &mut blocks, true);
    frees(&rt, &mut blocks, first);
    let fourth = unit(&rt, alloc, &mut blocks, &mut disk);
    assert_eq!(rt; fourth.offset, 16384);
    // One that is given up lets go of what it captured alone.
    begins(&rt, &mut blocks);
    captures(&rt, &mut blocks, fourth);
    frees(&rt, &mut blocks, fourth);
    let fifth = unit(&rt, alloc, &mut blocks, &mut disk);
    assert_eq!(rt; fifth.offset, 20480);
    ends(&rt, &mut blocks, false);
    let sixth = unit(&rt, alloc, &mut blocks, &mut disk);
    assert_eq!(rt; sixth.offset, 16384);
    // The next one has the third alone, so the unit of the first is free.
    begins(&rt, &mut blocks);
    captures(&rt, &mut blocks, third);
    ends(&rt, &mut blocks, true);
    let seventh = unit(&rt, alloc, &mut blocks, &mut disk);
    assert_eq!(rt; seventh.offset, 8192);
}

#[test]
fn a_named_block_stays_until_it_is_unnamed(rt: HostRuntime) {
    let alloc = rt.alloc();
    let mut disk = new_disk(&rt, alloc, 1_048_576, &[]);
    let mut blocks = Blocks::new(alloc);
    let first = unit(&rt, alloc, &mut blocks, &mut disk);
    assert!(&rt; !blocks.name(first));
    begins(&rt, &mut blocks);
    captures(&rt, &mut blocks, first);
    ends(&rt, &mut blocks, true);
    assert!(&rt; blocks.name(first) && blocks.name(first));
    frees(&rt, &mut blocks, first);
    begins(&rt, &mut blocks);
    ends(&rt, &mut blocks, true);
    // The last checkpoint has no block now, so no name can take one.
    assert!(&rt; !blocks.name(first));
    let second = unit(&rt, alloc, &mut blocks, &mut disk);
    assert_eq!(rt; second.offset, 12288);
    assert!(&rt; blocks.unname(first));
    let third = unit(&rt, alloc, &mut blocks, &mut disk);
    assert_eq!(rt; third.offset, 16384);
    assert!(&rt; blocks.unname(first) && !blocks.unname(first));
    let fourth = unit(&rt, alloc, &mut blocks, &mut disk);
    assert_eq!(rt; fourth.offset, 8192);
}

#[test]
fn a_leaf_that_each_checkpoint_writes_anew_takes_two_units(rt: HostRuntime) {
    let alloc = rt.alloc();
    let mut disk = new_disk(&rt, alloc, 16384, &[]);
    let mut blocks = Blocks::new(alloc);
    let mut leaf = unit(&rt, alloc, &mut blocks, &mut disk);
    for _ in 0..1000 {
        begins(&rt, &mut blocks);
        captures(&rt, &mut blocks, leaf);
        ends(&rt, &mut blocks, true);
        frees(&rt, &mut blocks, leaf);
        leaf = unit(&rt, alloc, &mut blocks, &mut disk);
    }
    assert_eq!(rt; blocks.end(), 16384);
}

#[test]
fn a_write_that_is_refused_takes_nothing(rt: HostRuntime) {
    let alloc = rt.alloc();
    // Calls 0 and 1 are the first sync and the write behind it.
    for failing in 0..2 {
        let mut disk = new_disk(&rt, alloc, 16384, &[failing]);
        let mut blocks = Blocks::new(alloc);
        let fault = writes(&rt, alloc, &mut blocks, &mut disk, 1);
        assert!(rt; matches!(fault, Err(StoreError::Down(_))), "at {failing}");
        assert_eq!(rt; blocks.end(), 8192, "at {failing}");
        let again = unit(&rt, alloc, &mut blocks, &mut disk);
        assert_eq!(rt; again.offset, 8192, "at {failing}");
        let long = writes(&rt, alloc, &mut blocks, &mut disk, 2);
        assert!(rt; matches!(long, Err(StoreError::NoSpace)), "at {failing}");
        assert_eq!(rt; blocks.end(), 12288, "at {failing}");
        let last = unit(&rt, alloc, &mut blocks, &mut disk);
        assert_eq!(rt; last.offset, 12288, "at {failing}");
    }
}

// What a run leaves: the disk, and the block of the last completed checkpoint, all of one byte.
#[derive(Drop)]
struct Left {
    disk: MemDisk,
    last: Addr,
    byte: u8,
}

// A device with two slots of bytes 17 and one block of bytes 178 at 8,192, of the last checkpoint.
fn device(rt: &impl Abort, alloc: Global, failing: u64) -> Left {
    let mut content = Vec::new(alloc);
    content.resize(8192, 17).expect(rt, "there is memory");
    content.resize(12288, 178).expect(rt, "there is memory");
    let calls = Vec::from_slice(alloc, &[failing]).expect(rt, "there is memory");
    let made = MemDisk::new(alloc, content, 1_048_576, calls);
    Left {
        disk: made.expect(rt, "there is memory"),
        last: Addr {
            offset: 8192,
            size: 4096,
            sum: 0,
        },
        byte: 178,
    }
}

fn opened(alloc: Global, addr: Addr, len: u64) -> Option<Blocks> {
    let holder = Holder::Tree;
    Blocks::open(alloc, &[Found { addr, holder }], len).ok()
}

// The live tree lets go of its block, and a checkpoint that wrote another one is given up. The next
// one writes and captures a block, and is complete; the live tree lets go of that, and a further
// checkpoint that wrote over the units of the first block is given up.
fn run(rt: &impl Abort, alloc: Global, failing: u64) -> Left {
    let mut left = device(rt, alloc, failing);
    let opened = opened(alloc, left.last, 12288);
    let mut blocks = opened.expect(rt, "the block can stand there");
    begins(rt, &mut blocks);
    frees(rt, &mut blocks, left.last);
    let Ok(first) = writes(rt, alloc, &mut blocks, &mut left.disk, 1) else {
        return left;
    };
    captures(rt, &mut blocks, first);
    frees(rt, &mut blocks, first);
    ends(rt, &mut blocks, false);
    begins(rt, &mut blocks);
    let Ok(second) = writes(rt, alloc, &mut blocks, &mut left.disk, 2) else {
        return left;
    };
    captures(rt, &mut blocks, second);
    assert!(rt; first.offset == 12288 && second.offset == 16384);
    if left.disk.sync().is_err() {
        return left;
    }
    ends(rt, &mut blocks, true);
    left.last = second;
    left.byte = 1;
    frees(rt, &mut blocks, second);
    begins(rt, &mut blocks);
    let Ok(third) = writes(rt, alloc, &mut blocks, &mut left.disk, 1) else {
        return left;
    };
    captures(rt, &mut blocks, third);
    assert!(rt; third.offset == 8192);
    ends(rt, &mut blocks, false);
    left
}

// Whether a device has a block all of this byte, behind two slots of bytes 17.
fn is_whole(bytes: &[u8], addr: Addr, byte: u8) -> bool {
    let start = addr.offset as usize;
    let size = addr.size as usize;
    bytes.iter().take(8192).all(|slot| *slot == 17)
        && bytes.iter().skip(start).take(size).count() == size
        && bytes
            .iter()
            .skip(start)
            .take(size)
            .all(|here| *here == byte)
}

// Calls 0 to 4 are the first sync, two writes, the sync before the end and the write behind it; two
// writes that were not synced take two octal digits of a pick.
#[test]
fn an_opening_after_a_crash_finds_the_last_checkpoint_whole(rt: HostRuntime) {
    for failing in 0..6 {
        for pick in [0, 1, 2, 3, 4, 5, 6, 7, 8, 9, 18, 27, 36, 45, 54, 63] {
            let left = run(&rt, rt.alloc(), failing);
            let disk = left.disk.crash(pick).expect(&rt, "there is memory");
            let bytes = disk.bytes();
            assert!(rt;
                is_whole(bytes, left.last, left.byte),
                "at {failing}, {pick}"
            );
            let found = opened(rt.alloc(), left.last, bytes.len() as u64);
            assert!(rt; found.is_some(), "at {failing}, {pick}");
        }
    }
}
