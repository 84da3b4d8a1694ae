// Blocks that are written, read and found on a disk in memory.
use block_mgr::{Addr, Blocks, Found, Holder, OpenError};
use disk_model::{Disk, MemDisk};
use std::alloc::Global;
use std::process::Abort;
use wt_code::{Refusal, StoreError};

// A disk of so many zeros.
fn zeros(rt: &impl Abort, alloc: Global, len: usize, capacity: u64) -> MemDisk {
    let mut content = Vec::new(alloc);
    content.resize(len, 0).expect(rt, "there is memory");
    let made = MemDisk::new(alloc, content, capacity, Vec::new(alloc));
    made.expect(rt, "there is memory")
}

fn found(offset: u64, size: u32, holder: Holder) -> Found {
    let addr = Addr {
        offset,
        size,
        sum: 0,
    };
    Found { addr, holder }
}

// Where an image goes, or why it goes nowhere.
fn writes(
    rt: &impl Abort,
    alloc: Global,
    blocks: &mut Blocks,
    disk: &mut MemDisk,
    image: &[u8],
) -> Result<Addr, StoreError> {
    assert!(rt; blocks.end() <= disk.bytes().len() as u64);
    assert!(rt; 1 <= image.len() && image.len() <= 1_048_576);
    let image = Vec::from_slice(alloc, image).expect(rt, "there is memory");
    blocks.write(disk, image)
}

#[test]
fn a_block_is_read_as_it_was_written(rt: HostRuntime) {
    let mut disk = zeros(&rt, rt.alloc(), 8192, 1_048_576);
    let mut blocks = Blocks::new(rt.alloc());
    let addr = writes(&rt, rt.alloc(), &mut blocks, &mut disk, &[1, 2, 3]);
    let addr = addr.expect(&rt, "it fits");
    let want = Addr {
        offset: 8192,
        size: 4096,
        sum: 14,
    };
    assert!(rt; addr == want);
    assert_eq!(rt; blocks.end(), 12288);
    let bytes = blocks
        .read(rt.alloc(), &mut disk, addr)
        .expect(&rt, "it is there");
    assert_eq!(rt; bytes.len(), 4096);
    assert!(rt; bytes[..4] == [1, 2, 3, 0]);
    let other = Addr { sum: 15, ..addr };
    let want = Refusal::Corrupt {
        offset: 8192,
        want: 15,
        found: 14,
    };
    assert!(rt;
        matches!(blocks.read(rt.alloc(), &mut disk, other), Err(refusal) if refusal == want)
    );
}

#[test]
fn a_gap_of_an_opened_device_is_taken_first(rt: HostRuntime) {
    let mut disk = zeros(&rt, rt.alloc(), 16384, 16384);
    let tree = found(12288, 4096, Holder::Tree);
    let opened = Blocks::open(rt.alloc(), &[tree], 16384);
    let mut blocks = match opened {
        Ok(blocks) => blocks,
        Err(_) => Blocks::new(rt.alloc()),
    };
    assert_eq!(rt; blocks.end(), 16384);
    assert!(rt; blocks.is_live(tree.addr));
    let addr = writes(&rt, rt.alloc(), &mut blocks, &mut disk, &[1]);
    assert!(rt; matches!(addr, Ok(addr) if addr.offset == 8192));
    let full = writes(&rt, rt.alloc(), &mut blocks, &mut disk, &[1]);
    assert!(rt; matches!(full, Err(error) if error == StoreError::NoSpace));
}

// Why addresses cannot all be in use on a device of 40,960 bytes.
fn why_not(alloc: Global, found: &[Found]) -> Option<OpenError> {
    if found.len() > 100 {
        return None;
    }
    match Blocks::open(alloc, found, 40_960) {
        Ok(_) => None,
        Err(error) => Some(error),
    }
}

#[test]
fn addresses_that_cannot_all_be_in_use_are_named(rt: HostRuntime) {
    let tree = found(12288, 8192, Holder::Tree);
    let record = found(8192, 4096, Holder::Last);
    let name = found(12288, 8192, Holder::Named);
    let over = found(16384, 4096, Holder::Named);
    let past = found(36864, 8192, Holder::Tree);
    let slots = found(4096, 4096, Holder::Tree);
    let alloc = rt.alloc();
    assert!(rt; why_not(alloc, &[tree, record, name, name]).is_none());
    assert!(rt; why_not(alloc, &[record, tree, tree]) == Some(OpenError::Clash(1, 2)));
    assert!(rt; why_not(alloc, &[tree, record, name, over]) == Some(OpenError::Clash(0, 3)));
    assert!(rt; why_not(alloc, &[over, name]) == Some(OpenError::Clash(0, 1)));
    assert!(rt; why_not(alloc, &[tree, tree, past]) == Some(OpenError::NoPlace(2)));
    assert!(rt; why_not(alloc, &[record, slots]) == Some(OpenError::NoPlace(1)));
}
