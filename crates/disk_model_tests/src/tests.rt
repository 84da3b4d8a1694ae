// What no clause says of a disk in memory: that calls succeed, and that each kind of image is
// reached.

use disk_model::{Call, Disk, Home, Look, MemDisk, Unattached, write_synced};
use failure::Fault;
use std::alloc::Global;
use std::process::Abort;

fn disk_of(rt: &impl Abort, alloc: Global, content: &[u8], failing: &[u64]) -> MemDisk {
    let content = Vec::from_slice(alloc, content).expect(rt, "there is memory");
    let failing = Vec::from_slice(alloc, failing).expect(rt, "there is memory");
    MemDisk::new(alloc, content, 64, failing).expect(rt, "there is memory")
}

fn writes(rt: &impl Abort, disk: &mut MemDisk, at: u64, bytes: &[u8]) -> bool {
    assert!(rt; at <= disk.bytes().len() as u64);
    disk.write_at(at, bytes).is_ok()
}

fn has(disk: &MemDisk, content: &[u8]) -> bool {
    disk.bytes() == content
}

fn leaves(rt: &impl Abort, disk: MemDisk, pick: u64, content: &[u8]) -> bool {
    has(&disk.crash(pick).expect(rt, "there is memory"), content)
}

#[test]
fn each_kind_of_image_is_reached(rt: HostRuntime) {
    let images: [(u64, &[u8]); 8] = [
        (0, b"abcdef"),
        (1, b"abcdUVWX"),
        (2, b"abcdUV"),
        (3, b"abcd\xa5\xa5\xa5\xa5"),
        (4, b"abcdefWX"),
        (5, b"abcd\xa5\xa5\xa5"),
        (6, b"abcd\xa5f"),
        (7, b"abcdef\0\0"),
    ];
    for (pick, want) in images {
        let mut disk = disk_of(&rt, rt.alloc(), b"abcdef", &[]);
        assert!(rt; writes(&rt, &mut disk, 4, b"UVWX"));
        assert!(rt; has(&disk, b"abcdUVWX"));
        assert!(rt; leaves(&rt, disk, pick, want), "at {pick}");

        let mut missed = disk_of(&rt, rt.alloc(), b"abcdef", &[0]);
        assert!(rt; !writes(&rt, &mut missed, 4, b"UVWX"));
        assert!(rt; has(&missed, b"abcdef"));
        assert!(rt; leaves(&rt, missed, pick, want), "missed, at {pick}");
    }
}

#[test]
fn each_pending_write_is_chosen_by_itself(rt: HostRuntime) {
    let images: [(u64, &[u8]); 5] = [
        (0o00, b"abcd"),
        (0o01, b"ABcd"),
        (0o10, b"abCD"),
        (0o42, b"AbcD"),
        (0o11, b"ABCD"),
    ];
    for (pick, want) in images {
        let mut disk = disk_of(&rt, rt.alloc(), b"abcd", &[]);
        assert!(rt; writes(&rt, &mut disk, 0, b"AB"));
        assert!(rt; writes(&rt, &mut disk, 2, b"CD"));
        assert!(rt; leaves(&rt, disk, pick, want), "at {pick}");
    }
}

#[test]
fn a_sync_settles_what_was_written(rt: HostRuntime) {
    for pick in 0..8 {
        let mut disk = disk_of(&rt, rt.alloc(), b"abcd", &[]);
        assert!(rt; writes(&rt, &mut disk, 1, b"BC"));
        assert!(rt; disk.sync().is_ok());
        assert!(rt; leaves(&rt, disk, pick, b"aBCd"), "at {pick}");
    }
    let mut disk = disk_of(&rt, rt.alloc(), b"abcd", &[1]);
    assert!(rt; writes(&rt, &mut disk, 1, b"BC"));
    assert!(rt; disk.sync().is_err());
    assert!(rt; has(&disk, b"aBCd"));
    assert!(rt; leaves(&rt, disk, 0, b"abcd"));
}

#[test]
fn a_failing_call_counts_a_fault_and_leaves_the_content(rt: HostRuntime) {
    let mut disk = disk_of(&rt, rt.alloc(), b"abcd", &[0, 2, 3]);
    assert!(rt; matches!(disk.attach(rt.alloc(), "home"), Err(Unattached::Failed)));
    assert_eq!(rt; disk.faults(), 1);
    assert!(rt; matches!(disk.len(), Ok(4)));
    assert!(rt; disk.len().is_err());
    assert!(rt; !writes(&rt, &mut disk, 0, b"x"));
    assert_eq!(rt; disk.faults(), 3);
    assert!(rt; has(&disk, b"abcd"));
    assert_eq!(rt; disk.capacity(), 64);
    assert_eq!(rt; disk.calls().len(), 4);
    let mut buffer = [0; 2];
    assert!(rt; disk.bytes().len() == 4);
    assert!(rt; disk.read(1, &mut buffer).is_ok());
    assert!(rt; buffer == *b"bc");
}

#[test]
fn a_synced_write_stays(rt: HostRuntime) {
    for pick in 0..8 {
        let mut disk = disk_of(&rt, rt.alloc(), b"abcd", &[]);
        assert!(rt; 4 <= disk.bytes().len());
        assert!(rt; write_synced(&mut disk, 4, b"EF").is_ok());
        assert!(rt; leaves(&rt, disk, pick, b"abcdEF"), "at {pick}");
    }
    let faults = [(0, Fault::Write(4)), (1, Fault::Sync)];
    for (failing, fault) in faults {
        let mut disk = disk_of(&rt, rt.alloc(), b"abcd", &[failing]);
        assert!(rt; 4 <= disk.bytes().len());
        assert!(rt; write_synced(&mut disk, 4, b"EF") == Err(fault));
        assert_eq!(rt; disk.faults(), 1, "at {failing}");
        assert!(rt; leaves(&rt, disk, 2, b"abcdE"), "at {failing}");
    }
}

#[test]
fn the_record_tells_calls_apart(rt: HostRuntime) {
    let mut disk = disk_of(&rt, rt.alloc(), b"abcd", &[1, 3, 5]);
    let mut buffer = [0; 2];
    assert!(rt; disk.len().is_ok());
    assert!(rt; disk.len().is_err());
    assert!(rt; disk.bytes().len() == 4);
    assert!(rt; disk.read(1, &mut buffer).is_ok());
    assert!(rt; disk.bytes().len() == 4);
    assert!(rt; disk.read(2, &mut buffer).is_err());
    assert!(rt; disk.attach(rt.alloc(), "home").is_ok());
    assert!(rt; disk.sync().is_err());
    let looks = [
        Look::Len,
        Look::LenFailed,
        Look::Read(1),
        Look::ReadFailed(2),
        Look::Attached,
        Look::SyncFailed,
    ];
    for (call, look) in disk.calls().iter().zip(&looks) {
        assert!(rt;
            matches!(call, Call::Looked(found) if found == look),
            "{look:?}"
        );
    }
    assert_eq!(rt; disk.calls().len(), 6);
}

#[test]
fn a_stopped_disk_fails_each_call(rt: HostRuntime) {
    let mut disk = disk_of(&rt, rt.alloc(), b"abcd", &[]);
    disk.stop_after(2);
    assert!(rt; disk.len().is_ok());
    assert!(rt; writes(&rt, &mut disk, 4, b"ef"));
    assert!(rt; disk.sync().is_err());
    assert!(rt; disk.len().is_err());
    assert!(rt; !writes(&rt, &mut disk, 0, b"x"));
    assert_eq!(rt; disk.faults(), 3);
    assert!(rt; has(&disk, b"abcdef"));
}
