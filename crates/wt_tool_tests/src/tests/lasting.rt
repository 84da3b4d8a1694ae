// Scripts that take checkpoints: what each prints, and what a run behind it reads.
use super::scripts::{Case, run};
use super::{ROOM, Row, State, bytes_of, disk_of, expect, new_device, runs, state_of};
use disk_model::{Disk, MemDisk};
use std::alloc::Global;
use std::process::Abort;

// A script on a new device, and what runs behind it read.
#[derive(Clone, Copy)]
struct Story<'a> {
    case: Case<'a>,
    behind: &'a [Row<'a>],
}

const FORGETS_B: &[Row<'static>] = &[
    ("read|t|a", 0, "", "1\n"),
    ("read|t|b", 1, "-31803 not found\n", ""),
];

const FORGETS_A: &[Row<'static>] = &[("read|t|a", 1, "-31803 not found\n", "")];

// Each command that reads shows the same value, and a write without a stamp is refused.
const HAS_X: &[Row<'static>] = &[
    ("verify|t", 0, "", ""),
    ("read|t|a", 0, "", "x\n"),
    (
        "dump|-x|t",
        0,
        "",
        "WiredTiger Dump (row store 1)\nFormat=hex\nHeader\ntable:t\nkey_format=S,value_format=S\nData\n6100\n7800\n",
    ),
    ("write|t|a|z", 1, "-31801 duplicate key\n", ""),
    ("write|-o|t|a|z", 1, "22 no stamp after stamp\n", ""),
];

const HAS_NOTHING: &[Row<'static>] = &[
    ("verify|t", 0, "", ""),
    ("read|t|a", 1, "-31803 not found\n", ""),
    ("write|t|a|z", 0, "", ""),
    ("read|t|a", 0, "", "z\n"),
];

const STORIES: &[Story<'static>] = &[
    // A crash forgets what was committed since the checkpoint, and each session.
    Story {
        case: Case {
            text: "sys create t S S\ns1 begin\ns1 put t a 1\ns1 commit\nsys ckpt\ns1 begin\ns1 put t a 2\ns1 put t b 2\ns1 commit\nsys crash\ns1 get t a\ns1 begin\ns1 get t a\ns1 get t b\n",
            reads: &[],
            writes: &[],
            status: 0,
            told: "",
            printed: "ok\nok\nok\nok\nok\nok\nok\nok\nok\nok\n22 no transaction\nok\nok 1\n-31803 not found\n",
        },
        behind: FORGETS_B,
    },
    // A close keeps what was committed, and rolls back what was not.
    Story {
        case: Case {
            text: "sys create t S S\ns1 begin\ns1 put t a 1\ns1 commit\ns2 begin\ns2 put t b 2\nsys close\ns2 get t b\ns1 begin\ns1 get t a\ns1 get t b\n",
            reads: &[],
            writes: &[],
            status: 0,
            told: "",
            printed: "ok\nok\nok\nok\nok\nok\nok\n22 no transaction\nok\nok 1\n-31803 not found\n",
        },
        behind: FORGETS_B,
    },
    // The end of a script forgets what was committed since the checkpoint.
    Story {
        case: Case {
            text: "sys create t S S\nsys ckpt\ns1 begin\ns1 put t a 1\ns1 commit\n",
            reads: &[],
            writes: &[],
            status: 0,
            told: "",
            printed: "ok\nok\nok\nok\nok\n",
        },
        behind: FORGETS_A,
    },
    // Of what is not durable at stable the version before it is read.
    Story {
        case: Case {
            text: "sys create t S S\ns9 begin\ns9 put t a x\ns9 commit commit=a\ns9 begin\ns9 put t a y\ns9 commit commit=14\nsys set stable=a\nsys ckpt\nsys crash\ns1 begin\ns1 get t a\n",
            reads: &[],
            writes: &[],
            status: 0,
            told: "",
            printed: "ok\nok\nok\nok\nok\nok\nok\nok\nok\nok\nok\nok x\n",
        },
        behind: HAS_X,
    },
    // So where the leaf was evicted before.
    Story {
        case: Case {
            text: "sys create t S S\ns9 begin\ns9 put t a x\ns9 commit commit=a\ns9 begin\ns9 put t a y\ns9 commit commit=14\nsys evict t a\nsys set stable=a\nsys ckpt\nsys crash\ns1 begin\ns1 get t a\n",
            reads: &[],
            writes: &[],
            status: 0,
            told: "",
            printed: "ok\nok\nok\nok\nok\nok\nok\nok\nok\nok\nok\nok\nok x\n",
        },
        behind: HAS_X,
    },
    // Where there is none before it the key is absent.
    Story {
        case: Case {
            text: "sys create t S S\ns1 begin\ns1 put t a x\ns1 prepare a\ns1 commit commit=a durable=1e\nsys set stable=14\nsys ckpt\nsys crash\ns1 begin\ns1 get t a\n",
            reads: &[],
            writes: &[],
            status: 0,
            told: "",
            printed: "ok\nok\nok\nok\nok\nok\nok\nok\nok\n-31803 not found\n",
        },
        behind: HAS_NOTHING,
    },
    // A checkpoint keeps nothing of a transaction that is prepared.
    Story {
        case: Case {
            text: "sys create t S S\ns1 begin\ns1 put t a x\ns1 prepare a\nsys ckpt\nsys crash\ns1 begin\ns1 get t a\n",
            reads: &[],
            writes: &[],
            status: 0,
            told: "",
            printed: "ok\nok\nok\nok\nok\nok\nok\n-31803 not found\n",
        },
        behind: HAS_NOTHING,
    },
    // A close keeps what was committed with a stamp.
    Story {
        case: Case {
            text: "sys create t S S\ns1 begin\ns1 put t a x\ns1 commit commit=a\nsys close\ns1 begin\ns1 get t a\n",
            reads: &[],
            writes: &[],
            status: 0,
            told: "",
            printed: "ok\nok\nok\nok\nok\nok\nok x\n",
        },
        behind: HAS_X,
    },
    // A checkpoint that runs beside a commit keeps what was committed as it started.
    Story {
        case: Case {
            text: "sys create t S S\ns1 begin\ns1 put t a 1\ns1 commit\nsys ckpt-start\ns1 begin\ns1 put t a 2\ns1 put t b 2\ns1 commit\nsys ckpt-finish\nsys ckpt-step\nsys ckpt-finish\ns1 begin\ns1 get t a\n",
            reads: &[],
            writes: &[],
            status: 0,
            told: "",
            printed: "ok\nok\nok\nok\nok\nok\nok\nok\nok\n22 checkpoint left\nok end\nok\nok\nok 2\n",
        },
        behind: FORGETS_B,
    },
    // The end of a script gives up one that runs.
    Story {
        case: Case {
            text: "sys create t S S\nsys ckpt\ns1 begin\ns1 put t a 1\ns1 commit\nsys ckpt-start\nsys ckpt-step\n",
            reads: &[],
            writes: &[],
            status: 0,
            told: "",
            printed: "ok\nok\nok\nok\nok\nok\nok end\n",
        },
        behind: FORGETS_A,
    },
];

#[test]
fn a_script_keeps_what_its_last_checkpoint_took(rt: HostRuntime) {
    let alloc = rt.alloc();
    for story in STORIES {
        let case = story.case;
        let ran = run(&rt, alloc, new_device(&rt, alloc), case);
        let disk = expect(&rt, ran, case.text, case.status, case.told, case.printed);
        let _ = runs(&rt, alloc, disk, story.behind);
    }
}

// Two checkpoints: of the table, and of its row.
#[derive(Clone, Copy)]
struct Twice<'a> {
    text: &'a str,
    // How many calls of the disk there are.
    calls: u64,
    // What is read behind them where a call of the first fails that does not take the engine down.
    unmade: State,
}

// An opening takes 4 calls of the disk, and the first checkpoint takes 10.
const FIRST: u64 = 4 + 10;

const TWICE: &[Twice<'static>] = &[
    // The second writes a leaf too, and needs no sync before it. It takes all where the first was not made.
    Twice {
        text: "sys create t S S\nsys ckpt\ns1 begin\ns1 put t a 1\ns1 commit\nsys ckpt\n",
        calls: FIRST + 10,
        unmade: State::One,
    },
    // The second writes a block of the history too. The first still runs where it was not made, and is
    // finished in the place of the second.
    Twice {
        text: "sys create t S S\nsys ckpt-start\nsys ckpt-step\nsys ckpt-finish\ns1 begin\ns1 put t a 1\ns1 commit\nsys ckpt-start\ns1 begin\ns1 put t a 2\ns1 commit\nsys ckpt-step\nsys ckpt-finish\n",
        calls: FIRST + 11,
        unmade: State::NoRow,
    },
];

// The two checkpoints on a new device, where the call of this number fails; with the number of the
// calls, none does.
fn made_twice(rt: &impl Abort, alloc: Global, of: Twice<'_>, call: u64) -> MemDisk {
    let content = bytes_of(rt, alloc, &new_device(rt, alloc));
    let disk = disk_of(rt, alloc, content, ROOM, &[call]);
    let case = Case {
        text: of.text,
        reads: &[],
        writes: &[],
        status: 0,
        told: "",
        printed: "",
    };
    let ran = run(rt, alloc, disk, case);
    let (status, faults) = if call < of.calls { (4, 1) } else { (0, 0) };
    assert_eq!(rt; ran.status, status, "call {call}");
    assert_eq!(rt; ran.disk.faults(), faults, "call {call}");
    ran.disk
}

// What is read behind it. A failed write or sync takes the engine down. Where the length is not told, or
// a read of a slot fails, it stays up.
fn left(of: Twice<'_>, call: u64) -> State {
    match call {
        4 | 8 | 9 => of.unmade,
        0..=12 => State::NoTable,
        _ if call < of.calls.saturating_sub(1) => State::NoRow,
        _ => State::One,
    }
}

// What is read behind it and a crash. The gate of a slot is one byte, written by the last call but
// one: a crash leaves nothing of it or all of it.
fn left_by_crash(of: Twice<'_>, call: u64, pick: u64) -> State {
    let is_open = matches!(pick % 8, 1 | 3 | 4 | 6);
    let is_last = call < of.calls && of.calls.saturating_sub(call) <= 2;
    match call {
        12 | 13 if is_open => State::NoRow,
        12 | 13 => State::NoTable,
        _ if is_last && is_open => State::One,
        _ if is_last => State::NoRow,
        _ => left(of, call),
    }
}

// The two checkpoints behind which a failing call, and a crash, leave these.
fn check_twice(rt: &impl Abort, alloc: Global, of: Twice<'_>, call: u64) {
    let content = bytes_of(rt, alloc, &made_twice(rt, alloc, of, call));
    let found = state_of(rt, alloc, content);
    assert_eq!(rt; found, left(of, call), "call {call}");
    for pick in 0..8 {
        let crashed = made_twice(rt, alloc, of, call).crash(pick);
        let crashed = crashed.expect(rt, "there is memory");
        let found = state_of(rt, alloc, bytes_of(rt, alloc, &crashed));
        assert_eq!(rt; found, left_by_crash(of, call, pick), "call {call}, {pick}");
    }
}

#[test]
fn a_failing_call_of_a_script_and_a_crash_leave_a_checkpoint(rt: HostRuntime) {
    let alloc = rt.alloc();
    for twice in TWICE {
        for call in 0..twice.calls.saturating_add(1) {
            check_twice(&rt, alloc, *twice, call);
        }
    }
}
