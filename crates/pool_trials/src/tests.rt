//! Rows of what the calls answer.

use super::{
    close_two, free_own, let_go, lock_own, look_again, meets, open_kept, open_rising, pin_other,
    point_at, raise, scan_all, set_hub, unlock_own, who_pins,
};
use hazard_table::{Locking, Pinning, Scanning};
use std::test::Fail;

#[test]
fn a_seat_raises_frames_and_then_the_hub(rt: HostRuntime) -> Result<(), Fail> {
    let Ok((table, mut one, mut other)) = open_rising(rt.alloc(), 5, 3, 4) else {
        panic!(rt; "no memory")
    };
    let first = raise(&rt, &table, &mut one, 0, 3);
    let second = raise(&rt, &table, &mut one, 1, 0);
    set_hub(&rt, &table, &mut one, first.saturating_add(second));
    assert!(rt; meets(&rt, &table, &mut one, &mut other, 0));
    let Ok(pieces) = close_two(rt.alloc(), table, one, other) else {
        panic!(rt; "no memory")
    };
    assert_eq!(rt; pieces.hub, 10);
    assert_eq!(rt; pieces.frames.as_slice(), [6u64, 4].as_slice());
    Ok(())
}

#[test]
fn a_frame_locked_before_the_second_look_is_freed(rt: HostRuntime) -> Result<(), Fail> {
    let Ok((pool, mut keeper, mut reader)) = open_kept(rt.alloc()) else {
        panic!(rt; "no memory")
    };
    point_at(&pool, &mut reader, 0);
    let Locking::Locked = lock_own(&pool, &mut keeper, 7) else {
        panic!(rt; "not locked")
    };
    let Pinning::Again { seen: 30 } = look_again(&pool, &mut reader, 0, 7) else {
        panic!(rt; "not seen locked at 7")
    };
    let_go(&pool, &mut reader);
    if !scan_all(&pool, &mut keeper, 7) {
        panic!(rt; "not clear")
    }
    free_own(&pool, &mut keeper, 7);
    let Pinning::Again { seen: 32 } = pin_other(&pool, &mut reader, 0, 7) else {
        panic!(rt; "not seen empty at 8")
    };
    Ok(())
}

#[test]
fn a_pinned_frame_is_not_scanned_clear(rt: HostRuntime) -> Result<(), Fail> {
    let Ok((pool, mut keeper, mut reader)) = open_kept(rt.alloc()) else {
        panic!(rt; "no memory")
    };
    let Pinning::Pinned = pin_other(&pool, &mut reader, 0, 7) else {
        panic!(rt; "not pinned")
    };
    let Locking::Locked = lock_own(&pool, &mut keeper, 7) else {
        panic!(rt; "not locked")
    };
    let Scanning::Pinned(1) = who_pins(&pool, &mut keeper, 1, 0, 7) else {
        panic!(rt; "not seen pinned")
    };
    unlock_own(&pool, &mut keeper, 7);
    let Pinning::Pinned = pin_other(&pool, &mut reader, 0, 7) else {
        panic!(rt; "not in again at 7")
    };
    Ok(())
}
