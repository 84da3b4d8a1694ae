// Which names a snapshot sees, by run, id and the ids that were running.
use snapshot::{NoMemory, Snapshot, is_seen};
use stamp::Name;

#[test]
fn a_snapshot_sees_what_was_drawn_and_not_running(rt: HostRuntime) -> Result<(), NoMemory> {
    let mut snapshot = Snapshot::new(rt.alloc(), 7, 64)?;
    snapshot.fill(7, 12, &[5, 8, 9]);
    for (run, id, seen) in [
        (6, 40, true),
        (6, 8, true),
        (7, 4, true),
        (7, 5, false),
        (7, 6, true),
        (7, 8, false),
        (7, 9, false),
        (7, 10, true),
        (7, 11, true),
        (7, 12, false),
        (7, 13, false),
        (8, 1, false),
    ] {
        let name = Name { run, id };
        assert!(rt; snapshot.sees(name) == seen);
        assert!(rt; is_seen(&snapshot.view(5, 0), name) == seen);
    }
    assert!(rt; snapshot.min() == 5);
    let mut copy = Snapshot::new(rt.alloc(), 1, 64)?;
    copy.copy_from(&snapshot.view(0, 0));
    assert!(rt; copy.view(0, 0).list == [5, 8, 9].as_slice());
    assert!(rt; copy.sees(Name { run: 7, id: 4 }) && !copy.sees(Name { run: 7, id: 5 }));
    snapshot.fill(7, 12, &[]);
    assert!(rt; snapshot.min() == 12);
    assert!(rt; snapshot.sees(Name { run: 7, id: 11 }));
    assert!(rt; !snapshot.sees(Name { run: 7, id: 12 }));
    let view = snapshot.view(3, 20);
    assert!(rt; view.own == 3 && view.read == 20 && view.run == 7);
    assert!(rt; view.min == 12 && view.max == 12 && view.list.is_empty());
    Ok(())
}

#[test]
fn an_id_that_is_counted_too_is_not_seen(rt: HostRuntime) -> Result<(), NoMemory> {
    let mut snapshot = Snapshot::new(rt.alloc(), 7, 64)?;
    snapshot.fill(7, 12, &[5, 8]);
    snapshot.count_running(3);
    snapshot.count_running(11);
    snapshot.count_running(6);
    snapshot.count_running(8);
    let view = snapshot.view(0, 0);
    assert!(rt; view.list == [3, 5, 6, 8, 11].as_slice());
    assert!(rt; view.min == 3 && view.max == 12 && view.run == 7);
    for (id, seen) in [
        (2, true),
        (3, false),
        (4, true),
        (6, false),
        (7, true),
        (11, false),
    ] {
        assert!(rt; snapshot.sees(Name { run: 7, id }) == seen);
    }
    Ok(())
}
