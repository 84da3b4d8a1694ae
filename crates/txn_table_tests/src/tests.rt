// What a table keeps over the calls of a few sessions.
use item::Item;
use snapshot::{Snapshot, is_seen};
use stamp::Name;
use std::alloc::Global;
use txn_table::{NoMemory, Phase, Txns, WrittenLeaf};
use wt_code::{Limit, Refusal};

// Calls that are made only where their session is in the phase for them; whether they were made.

fn begin(txns: &mut Txns, session: u32, read: Option<u64>) -> bool {
    if session >= txns.sessions() {
        return false;
    }
    match txns.phase(session) {
        Phase::Idle => {
            txns.begin(session, read);
            true
        }
        _ => false,
    }
}

fn draw(txns: &mut Txns, session: u32) -> Option<u64> {
    if session >= txns.sessions() {
        return None;
    }
    match txns.phase(session) {
        Phase::Running => match txns.id(session) {
            0 => match txns.draw_id(session) {
                Ok(id) => Some(id),
                Err(_) => None,
            },
            _ => None,
        },
        _ => None,
    }
}

fn prepare(txns: &mut Txns, session: u32, stamp: u64) -> bool {
    if session >= txns.sessions() {
        return false;
    }
    match txns.phase(session) {
        Phase::Running => {
            txns.prepare(session, stamp);
            true
        }
        _ => false,
    }
}

fn commit(txns: &mut Txns, session: u32) -> bool {
    if session >= txns.sessions() {
        return false;
    }
    match txns.phase(session) {
        Phase::Running => {
            txns.release(session);
            true
        }
        _ => false,
    }
}

fn fail(txns: &mut Txns, session: u32) -> bool {
    if session >= txns.sessions() {
        return false;
    }
    match txns.phase(session) {
        Phase::Running => {
            txns.fail(session);
            true
        }
        _ => false,
    }
}

fn leave(txns: &mut Txns, session: u32) -> bool {
    if session >= txns.sessions() {
        return false;
    }
    match txns.phase(session) {
        Phase::Failed => {
            txns.leave(session);
            true
        }
        _ => false,
    }
}

fn resolve(txns: &mut Txns, session: u32) -> bool {
    if session >= txns.sessions() {
        return false;
    }
    match txns.phase(session) {
        Phase::Prepared(_) => {
            txns.resolve(session);
            true
        }
        _ => false,
    }
}

fn done(txns: &mut Txns, session: u32) -> bool {
    if session >= txns.sessions() {
        return false;
    }
    match txns.phase(session) {
        Phase::Resolving => {
            txns.done(session);
            true
        }
        Phase::Leaving => {
            txns.done(session);
            true
        }
        _ => false,
    }
}

fn write(txns: &mut Txns, session: u32, leaf: WrittenLeaf) -> bool {
    session < txns.sessions() && txns.register(session, leaf).is_ok()
}

fn written_count(txns: &Txns, session: u32) -> Option<usize> {
    if session < txns.sessions() {
        Some(txns.written(session).len())
    } else {
        None
    }
}

fn take(alloc: Global, txns: &mut Txns, session: u32) -> Option<usize> {
    if session < txns.sessions() {
        Some(txns.take_written(alloc, session).len())
    } else {
        None
    }
}

fn phase(txns: &Txns, session: u32) -> Option<Phase> {
    if session < txns.sessions() {
        Some(txns.phase(session))
    } else {
        None
    }
}

// Whether the session's snapshot sees this id of run 1.
fn sees(txns: &Txns, session: u32, id: u64) -> Option<bool> {
    if session >= txns.sessions() {
        return None;
    }
    match txns.view(session) {
        None => None,
        Some(view) => Some(is_seen(&view, Name { run: 1, id })),
    }
}

#[test]
fn sessions_open_up_to_64(rt: HostRuntime) -> Result<(), NoMemory> {
    let mut txns = Txns::new(rt.alloc(), 1, 63)?;
    assert!(rt; txns.sessions() == 63);
    assert!(rt; txns.open_session() == Ok(63));
    assert!(rt; txns.open_session() == Err(Refusal::Limit(Limit::Sessions)));
    assert!(rt; txns.sessions() == 64);
    assert!(rt; txns.active().is_none());
    Ok(())
}

#[test]
fn a_snapshot_stays_over_a_commit(rt: HostRuntime) -> Result<(), NoMemory> {
    let mut txns = Txns::new(rt.alloc(), 1, 3)?;
    assert!(rt; begin(&mut txns, 0, None));
    assert!(rt; draw(&mut txns, 0) == Some(1));
    assert!(rt; begin(&mut txns, 1, Some(9)));
    assert!(rt; txns.active() == Some(0));
    assert!(rt; commit(&mut txns, 0));
    assert!(rt; txns.active() == Some(1));
    assert!(rt; phase(&txns, 0) == Some(Phase::Idle));
    assert!(rt; begin(&mut txns, 2, None));
    assert!(rt; sees(&txns, 1, 1) == Some(false));
    assert!(rt; sees(&txns, 2, 1) == Some(true));
    assert!(rt; sees(&txns, 2, 2) == Some(false));
    assert!(rt; sees(&txns, 0, 1).is_none());
    assert!(rt; txns.next_id() == 2);
    Ok(())
}

#[test]
fn a_prepared_transaction_is_seen_by_later_snapshots(rt: HostRuntime) -> Result<(), NoMemory> {
    let mut txns = Txns::new(rt.alloc(), 1, 4)?;
    assert!(rt; begin(&mut txns, 0, None));
    assert!(rt; draw(&mut txns, 0) == Some(1));
    assert!(rt; begin(&mut txns, 3, None));
    assert!(rt; prepare(&mut txns, 0, 0x1e));
    assert!(rt; phase(&txns, 0) == Some(Phase::Prepared(0x1e)));
    assert!(rt; begin(&mut txns, 1, None));
    assert!(rt; sees(&txns, 3, 1) == Some(false));
    assert!(rt; sees(&txns, 1, 1) == Some(true));
    assert!(rt; txns.resolving().is_none());
    assert!(rt; resolve(&mut txns, 0));
    assert!(rt; phase(&txns, 0) == Some(Phase::Resolving));
    assert!(rt; txns.resolving() == Some(0) && txns.run() == 1);
    assert!(rt; done(&mut txns, 0));
    assert!(rt; phase(&txns, 0) == Some(Phase::Idle));
    Ok(())
}

#[test]
fn a_failed_transaction_runs_until_it_is_done(rt: HostRuntime) -> Result<(), NoMemory> {
    let mut txns = Txns::new(rt.alloc(), 1, 3)?;
    assert!(rt; begin(&mut txns, 0, None));
    assert!(rt; draw(&mut txns, 0) == Some(1));
    assert!(rt; fail(&mut txns, 0));
    assert!(rt; leave(&mut txns, 0));
    assert!(rt; begin(&mut txns, 1, None));
    assert!(rt; sees(&txns, 1, 1) == Some(false));
    assert!(rt; done(&mut txns, 0));
    assert!(rt; begin(&mut txns, 2, None));
    assert!(rt; sees(&txns, 2, 1) == Some(true));
    Ok(())
}

#[test]
fn pin_and_floor_go_by_active_sessions(rt: HostRuntime) -> Result<(), NoMemory> {
    let mut txns = Txns::new(rt.alloc(), 1, 4)?;
    let mut checkpoint = Snapshot::new(rt.alloc(), 1, 64)?;
    checkpoint.fill(1, 1, &[]);
    assert!(rt; txns.pin_stamp(0x14, None) == 0x14);
    assert!(rt; txns.pin_stamp(0x14, Some(0xa)) == 0xa);
    assert!(rt; txns.floor(None) == Name { run: 1, id: 1 });
    assert!(rt; begin(&mut txns, 0, None));
    assert!(rt; draw(&mut txns, 0) == Some(1));
    assert!(rt; begin(&mut txns, 1, Some(0xf)));
    assert!(rt; draw(&mut txns, 1) == Some(2));
    assert!(rt; txns.pin_stamp(0x14, None) == 0xf);
    assert!(rt; txns.pin_stamp(0x14, Some(0xa)) == 0xa);
    assert!(rt; commit(&mut txns, 0));
    assert!(rt; txns.floor(None) == Name { run: 1, id: 1 });
    assert!(rt; commit(&mut txns, 1));
    assert!(rt; txns.pin_stamp(0x14, None) == 0x14);
    assert!(rt; txns.floor(None) == Name { run: 1, id: 3 });
    assert!(rt; txns.floor(Some(&checkpoint)) == Name { run: 1, id: 1 });
    Ok(())
}

#[test]
fn what_a_session_wrote_stays_until_it_is_taken(rt: HostRuntime) -> Result<(), NoMemory> {
    let mut txns = Txns::new(rt.alloc(), 1, 1)?;
    assert!(rt; begin(&mut txns, 0, None));
    for letter in [b'a', b'b'] {
        let key = Item::new(Vec::from_slice(rt.alloc(), &[letter])?);
        assert!(rt; write(&mut txns, 0, WrittenLeaf { table: 1, key }));
    }
    assert!(rt; commit(&mut txns, 0));
    assert!(rt; written_count(&txns, 0) == Some(2));
    assert!(rt; take(rt.alloc(), &mut txns, 0) == Some(2));
    assert!(rt; written_count(&txns, 0) == Some(0));
    Ok(())
}

#[test]
fn a_checkpoints_snapshot_lists_what_has_not_ended(rt: HostRuntime) -> Result<(), NoMemory> {
    let mut txns = Txns::new(rt.alloc(), 1, 5)?;
    let mut checkpoint = Snapshot::new(rt.alloc(), 1, 64)?;
    txns.checkpoint_snapshot(&mut checkpoint);
    assert!(rt; checkpoint.view(0, 0).list.is_empty() && checkpoint.min() == 1);
    for session in 0..4 {
        assert!(rt; begin(&mut txns, session, None));
    }
    assert!(rt; draw(&mut txns, 2) == Some(1));
    assert!(rt; draw(&mut txns, 0) == Some(2));
    assert!(rt; draw(&mut txns, 1) == Some(3));
    assert!(rt; prepare(&mut txns, 2, 0x14));
    assert!(rt; commit(&mut txns, 0));
    txns.checkpoint_snapshot(&mut checkpoint);
    let view = checkpoint.view(0, 0);
    assert!(rt; view.list == [1, 3].as_slice());
    assert!(rt; view.min == 1 && view.max == 4);
    assert!(rt; begin(&mut txns, 0, None));
    assert!(rt; sees(&txns, 0, 1) == Some(true));
    assert!(rt; !checkpoint.sees(Name { run: 1, id: 1 }));
    assert!(rt; checkpoint.sees(Name { run: 1, id: 2 }));
    Ok(())
}
