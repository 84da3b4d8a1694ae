// A checkpoint on a disk in memory.
use crate::finish;
use block_mgr::Blocks;
use disk_model::MemDisk;

#[test]
fn the_first_checkpoint_of_a_device_is_named_by_its_first_slot(rt: HostRuntime) {
    let mut content = Vec::new(rt.alloc());
    content.resize(8192, 0).expect(&rt, "there is memory");
    let made = MemDisk::new(rt.alloc(), content, 12288, Vec::new(rt.alloc()));
    let mut disk = made.expect(&rt, "there is memory");
    let mut blocks = Blocks::new(rt.alloc());
    blocks.ckpt_hold();
    let image = Vec::from_slice(rt.alloc(), &[1, 2, 3]).expect(&rt, "there is memory");
    assert!(&rt; finish(&mut disk, &mut blocks, 1, image).is_ok());
    let slot = b"\xa5WTTURTL\x01\0\0\0\x01\0\0\0\0\0\0\0\0\x20\0\0\0\0\0\0\0\x10\0\0\x0e\0\0\0";
    let bytes = disk.bytes();
    assert!(&rt; bytes.starts_with(slot.as_slice()));
    assert_eq!(rt; bytes.len(), 12288);
    assert!(&rt; bytes[8192..].starts_with(&[1, 2, 3, 0]));
}
