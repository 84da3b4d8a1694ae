// A crash at any moment leaves the checkpoint before the command or the one that it makes.
use super::{
    ROOM, State, bytes_of, created, disk_of, new_device, run, runs, split, state_of, written,
};
use disk_model::{Disk, MemDisk};
use std::alloc::Global;
use std::process::Abort;

// A command, on a device of one state, that makes another by so many calls of the disk. The last
// two write the gate of a slot, and sync it.
#[derive(Drop)]
struct Step<'a> {
    line: &'a str,
    before: State,
    after: State,
    calls: u64,
}

const CREATE: Step<'static> = Step {
    line: "create|-c|key_format=S,value_format=S|table:t",
    before: State::NoTable,
    after: State::NoRow,
    calls: 14,
};

const WRITE: Step<'static> = Step {
    line: "write|t|a|1",
    before: State::NoRow,
    after: State::One,
    calls: 18,
};

const WRITE_AGAIN: Step<'static> = Step {
    line: "write|-o|t|a|2",
    before: State::One,
    after: State::Two,
    calls: 22,
};

// What a crash leaves of the command, stopped where the call of this number failed; with the
// number of its calls, what it leaves of the whole command.
fn image(
    rt: &impl Abort,
    alloc: Global,
    device: &MemDisk,
    step: &Step<'_>,
    call: u64,
    pick: u64,
) -> Vec<u8> {
    let disk = disk_of(rt, alloc, bytes_of(rt, alloc, device), ROOM, &[call]);
    let words = split(rt, alloc, step.line);
    let disk = run(rt, alloc, disk, &words).disk;
    let faults = if call < step.calls { 1 } else { 0 };
    assert_eq!(rt; disk.faults(), faults, "call {call} of {}", step.line);
    let left = disk.crash(pick).expect(rt, "there is memory");
    bytes_of(rt, alloc, &left)
}

// What is to stand there. The gate is one byte: a crash leaves nothing of it or all of it, and other
// bytes in its place are an open gate.
fn want(step: &Step<'_>, call: u64, pick: u64) -> State {
    if call >= step.calls {
        return step.after;
    }
    if step.calls - call > 2 {
        return step.before;
    }
    match pick % 8 {
        1 | 3 | 4 | 6 => step.after,
        _ => step.before,
    }
}

// What stands there after another `create`: the table is made where it was not there.
fn made_again(rt: &impl Abort, alloc: Global, content: Vec<u8>) -> State {
    let disk = disk_of(rt, alloc, content, ROOM, &[]);
    let made = "create|-c|key_format=S,value_format=S|table:t";
    let disk = runs(rt, alloc, disk, &[(made, 0, "", "")]);
    state_of(rt, alloc, bytes_of(rt, alloc, &disk))
}

fn with_table(state: State) -> State {
    match state {
        State::NoTable => State::NoRow,
        other => other,
    }
}

// At each call of the command and behind the last, a crash leaves one of the two states, and the
// device goes on from it.
fn leaves_one_of_two(rt: &impl Abort, alloc: Global, device: &MemDisk, step: &Step<'_>) {
    let line = step.line;
    for call in 0..step.calls.saturating_add(1) {
        for pick in 0..8 {
            let want = want(step, call, pick);
            let content = image(rt, alloc, device, step, call, pick);
            let copy = Vec::from_slice(alloc, &content).expect(rt, "there is memory");
            let found = state_of(rt, alloc, content);
            assert_eq!(rt; found, want, "call {call} of {line}, {pick}");
            let found = made_again(rt, alloc, copy);
            assert_eq!(rt;
                found,
                with_table(want),
                "again: call {call} of {line}, {pick}"
            );
        }
    }
}

#[test]
fn a_crash_of_the_first_command_leaves_the_table_or_none(rt: HostRuntime) {
    let alloc = rt.alloc();
    leaves_one_of_two(&rt, alloc, &new_device(&rt, alloc), &CREATE);
}

#[test]
fn a_crash_of_a_write_leaves_the_row_or_none(rt: HostRuntime) {
    let alloc = rt.alloc();
    leaves_one_of_two(&rt, alloc, &created(&rt, alloc), &WRITE);
}

#[test]
fn a_crash_of_a_second_write_leaves_the_old_value_or_the_new(rt: HostRuntime) {
    let alloc = rt.alloc();
    leaves_one_of_two(&rt, alloc, &written(&rt, alloc), &WRITE_AGAIN);
}

// The leaf and the record are pending together: the leaf is left as the number's last octal digit
// says, the record as the one before it.
#[test]
fn a_crash_with_two_pending_writes_leaves_the_state_before(rt: HostRuntime) {
    let alloc = rt.alloc();
    let device = created(&rt, alloc);
    // The record's write fails, or the sync behind it.
    for call in 10..12 {
        for pick in 8..64 {
            let content = image(&rt, alloc, &device, &WRITE, call, pick);
            let found = state_of(&rt, alloc, content);
            assert_eq!(rt; found, State::NoRow, "call {call}, {pick}");
        }
    }
}
