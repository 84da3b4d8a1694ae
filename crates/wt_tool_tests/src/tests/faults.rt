// Each call of the disk, and each write of a stream, fails in turn.
use super::{
    Failing, ROOM, State, bytes_of, created, disk_of, expect, new_device, run_over, runs, split,
    state_of, written,
};
use disk_model::{Disk, MemDisk};
use std::alloc::Global;
use std::process::Abort;

const NONE: &Failing<'static> = &Failing { out: &[], err: &[] };

// A command on a device with these bytes, whose call of this number fails. What it leaves.
fn fails(rt: &impl Abort, alloc: Global, device: &MemDisk, line: &str, call: u64) -> MemDisk {
    let content = bytes_of(rt, alloc, device);
    let disk = disk_of(rt, alloc, content, ROOM, &[call]);
    let words = split(rt, alloc, line);
    let ran = run_over(rt, alloc, disk, &words, NONE);
    assert_eq!(rt; ran.disk.faults(), 1, "call {call} of {line}");
    expect(rt, ran, line, 4, "5 disk fault\n", "")
}

// Each of the command's calls of the disk fails in turn, so many, and no further one. What a read
// gives then is what was there before, and, where the last sync failed, what the command makes.
fn each_call_fails(
    rt: &impl Abort,
    alloc: Global,
    device: &MemDisk,
    line: &str,
    calls: u64,
    states: (State, State),
) {
    let (before, after) = states;
    for call in 0..calls {
        let left = fails(rt, alloc, device, line, call);
        let want = if call + 1 == calls { after } else { before };
        let content = bytes_of(rt, alloc, &left);
        assert_eq!(rt; state_of(rt, alloc, content), want, "call {call} of {line}");
    }
    let content = bytes_of(rt, alloc, device);
    let disk = disk_of(rt, alloc, content, ROOM, &[calls]);
    let words = split(rt, alloc, line);
    let ran = run_over(rt, alloc, disk, &words, NONE);
    assert_eq!(rt; ran.status, 0, "{line}");
    assert_eq!(rt; ran.disk.faults(), 0, "{line}");
    let content = bytes_of(rt, alloc, &ran.disk);
    assert_eq!(rt; state_of(rt, alloc, content), after, "{line}");
}

// An opening attaches the disk, asks its length and reads both slots: 4 calls. Of a checkpoint it asks
// the length, reads the record, and asks the length again: 3 more. The leaf is read as its key is put:
// 2 calls.
//
// A checkpoint asks the length, syncs, writes the leaf, where there is one, and the record, and syncs:
// 4 calls or 5. Its slot takes 2 reads; the shut gate with its sync, where both were open; the body, a
// sync, the gate, a sync.
#[test]
fn a_failing_call_of_a_command_leaves_the_state_before(rt: HostRuntime) {
    let alloc = rt.alloc();
    let device = new_device(&rt, alloc);
    let create = "create|-c|key_format=S,value_format=S|table:t";
    let states = (State::NoTable, State::NoRow);
    each_call_fails(&rt, alloc, &device, create, 4 + 4 + 2 + 4, states);
    let device = created(&rt, alloc);
    let states = (State::NoRow, State::One);
    each_call_fails(&rt, alloc, &device, "write|t|a|1", 7 + 5 + 2 + 4, states);
    let device = written(&rt, alloc);
    let states = (State::One, State::Two);
    let calls = 7 + 2 + 5 + 2 + 2 + 4;
    each_call_fails(&rt, alloc, &device, "write|-o|t|a|2", calls, states);
}

// A read opens the device as above, by 7 calls, and reads the leaf of the key: 2 more.
#[test]
fn a_failing_call_of_read_prints_nothing(rt: HostRuntime) {
    let alloc = rt.alloc();
    let device = written(&rt, alloc);
    let bytes = bytes_of(&rt, alloc, &device);
    for call in 0..7 + 2 {
        let left = fails(&rt, alloc, &device, "read|t|a", call);
        assert!(rt; left.bytes() == bytes.as_slice(), "call {call}");
    }
    let disk = disk_of(&rt, alloc, bytes, ROOM, &[9]);
    let disk = runs(&rt, alloc, disk, &[("read|t|a", 0, "", "1\n")]);
    assert_eq!(rt; disk.faults(), 0);
}

#[test]
fn each_failing_write_of_the_output_ends_the_run(rt: HostRuntime) {
    let alloc = rt.alloc();
    let rows = [("write|t|b|22|c|", 0, "", "")];
    let mut disk = runs(&rt, alloc, written(&rt, alloc), &rows);
    // A value and a newline are two writes; an empty value is none.
    let cases = [
        (0, ""),
        (1, "1"),
        (2, "1\n"),
        (3, "1\n22"),
        (4, "1\n22\n"),
        (5, "1\n22\n\n"),
        (6, "1\n22\n\n1"),
    ];
    let words = ["read", "t", "a", "b", "c", "a"];
    for (call, printed) in cases {
        let failing = Failing {
            out: &[call],
            err: &[],
        };
        let ran = run_over(&rt, alloc, disk, &words, &failing);
        disk = expect(&rt, ran, printed, 6, "output fault\n", printed);
    }
    let failing = Failing {
        out: &[7],
        err: &[],
    };
    let ran = run_over(&rt, alloc, disk, &words, &failing);
    expect(&rt, ran, "all writes", 0, "", "1\n22\n\n1\n");
}

// What fails, and what then stands on the errors and the output: a line that cannot be told changes
// nothing else.
#[test]
fn a_failing_write_of_the_errors_changes_nothing_else(rt: HostRuntime) {
    let alloc = rt.alloc();
    let device = written(&rt, alloc);
    let absent = "-31803 not found\n";
    let twice = "-31803 not found\n-31803 not found\n";
    let rows = [
        (("make", 1, "", ""), 9, 0),
        (("create|t", 1, "", ""), 9, 0),
        (("create|file:t", 1, "", ""), 9, 0),
        (("write|t|a|2", 1, "", ""), 9, 0),
        (("read|t|x|a|y", 1, absent, "1\n"), 9, 0),
        (("read|t|x|a|y", 1, absent, "1\n"), 9, 1),
        (("read|t|x|a|y", 1, twice, "1\n"), 9, 2),
        (("read|t|a", 0, "", "1\n"), 9, 0),
        (("write|-o|t|a|2", 0, "", ""), 9, 0),
        // A fault of the output behind an absent key.
        (
            ("read|t|b|a", 6, "-31803 not found\noutput fault\n", ""),
            0,
            9,
        ),
        (("read|t|b|a", 6, absent, ""), 0, 1),
        (("list", 6, "output fault\n", ""), 0, 9),
        (("dump|t", 6, "output fault\n", ""), 0, 9),
        (("dump|t", 6, "", ""), 0, 0),
        (("dump|u", 1, "", ""), 9, 0),
    ];
    for ((line, status, told, printed), out, err) in rows {
        let failing = Failing {
            out: &[out],
            err: &[err],
        };
        let disk = disk_of(&rt, alloc, bytes_of(&rt, alloc, &device), ROOM, &[]);
        let words = split(&rt, alloc, line);
        let ran = run_over(&rt, alloc, disk, &words, &failing);
        expect(&rt, ran, line, status, told, printed);
    }
    // A fault of the disk.
    let disk = disk_of(&rt, alloc, bytes_of(&rt, alloc, &device), ROOM, &[0]);
    let failing = Failing {
        out: &[],
        err: &[0],
    };
    let ran = run_over(&rt, alloc, disk, &["read", "t", "a"], &failing);
    expect(&rt, ran, "a fault", 4, "", "");
}
