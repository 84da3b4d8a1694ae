// Lines that reach the device.
use super::Story;

const OK2: &str = "ok\nok\n";

const OK3: &str = "ok\nok\nok\n";

// The keys `a` and `b` are set to 1.
const SET_A: (&str, &str) = ("s9 begin\ns9 put t a 1\ns9 commit\n", OK3);

const SET_B: (&str, &str) = ("s9 begin\ns9 put t b 1\ns9 commit\n", OK3);

pub(super) const DEVICES: &[Story<'static>] = &[
    Story {
        shows: "a crash forgets what was committed since the last checkpoint",
        rows: &[
            SET_A,
            ("sys ckpt\n", "ok\n"),
            SET_B,
            ("sys crash\n", "ok\n"),
            ("s1 begin\ns1 get t a\n", "ok\nok 1\n"),
            ("s1 get t b\n", "-31803 not found\n"),
        ],
    },
    Story {
        shows: "with other frames the device is opened anew, as after a crash",
        rows: &[
            SET_A,
            ("sys ckpt\n", "ok\n"),
            SET_B,
            ("s1! begin\n", "started\n"),
            ("sys frames 4\ns1.\n", "ok\n22 no call\n"),
            ("s1 begin\ns1 get t a\n", "ok\nok 1\n"),
            ("s1 get t b\nsys frames 1024\n", "-31803 not found\nok\n"),
            ("s1 get t a\n", "22 no transaction\n"),
        ],
    },
    Story {
        shows: "what a checkpoint after a crash has, the next crash leaves",
        rows: &[
            ("sys ckpt\nsys crash\n", OK2),
            SET_A,
            ("sys create u u u\nsys ckpt\n", OK2),
            ("sys ckpt\nsys crash\n", OK2),
            ("s1 begin\ns1 get t a\n", "ok\nok 1\n"),
            ("s1 get u a\n", "-31803 not found\n"),
        ],
    },
    Story {
        shows: "without a checkpoint nothing is left, not even the table",
        rows: &[
            SET_A,
            ("sys crash\n", "ok\n"),
            ("s1 begin\ns1 get t a\n", "ok\n2 no table\n"),
        ],
    },
    Story {
        shows: "a close rolls back what runs, and what was committed is read on",
        rows: &[
            SET_A,
            ("s2 begin\ns2 put t b 2\n", OK2),
            ("sys close\n", "ok\n"),
            ("s2 commit\n", "22 no transaction\n"),
            ("s1 begin\ns1 get t a\n", "ok\nok 1\n"),
            ("s1 get t b\n", "-31803 not found\n"),
        ],
    },
    Story {
        shows: "a close waits for a call of a session, and goes on after it",
        rows: &[
            ("s1! begin\n", "started\n"),
            ("sys close\n", "16 busy resolving s1\n"),
            ("s1.\ns1 put t a 1\n", OK2),
            ("s1 commit\nsys close\n", OK2),
            ("s1 begin\ns1 get t a\n", "ok\nok 1\n"),
        ],
    },
    Story {
        shows: "a line of `sys` waits for its call",
        rows: &[
            ("sys! create u u u\n", "started\n"),
            ("sys ckpt\nsys close\n", "22 in call\n22 in call\n"),
            ("sys..\nsys ckpt\n", OK2),
            ("sys2! create v u u\nsys ckpt\n", "started\nok\n"),
        ],
    },
    Story {
        shows: "a crash forgets the calls that are under way",
        rows: &[
            ("s1! begin\nsys! create u u u\n", "started\nstarted\n"),
            ("sys crash\n", "ok\n"),
            ("s1.\nsys.\n", "22 no call\n22 no call\n"),
            ("s1 begin\n", "ok\n"),
        ],
    },
    Story {
        shows: "a checkpoint leaves a call that is under way",
        rows: &[
            SET_A,
            ("s1 begin\ns1! get t a\n", "ok\nstarted\n"),
            ("s1.\nsys ckpt\n", "more\nok\n"),
            ("s1..\n", "ok 1\n"),
        ],
    },
    Story {
        shows: "a table in which each key was removed keeps its removals, and takes rows again",
        rows: &[
            SET_A,
            SET_B,
            ("sys ckpt\ns1 begin\n", OK2),
            ("s1 remove t a\ns1 remove t b\ns1 commit\n", OK3),
            ("sys ckpt\nsys crash\ns1 begin\n", OK3),
            ("s1 next c0 t\n", "-31803 not found\n"),
            ("s1 get t b\ns1 rollback\n", "-31803 not found\nok\n"),
            SET_B,
            ("sys ckpt\nsys crash\ns1 begin\n", OK3),
            ("s1 next c0 t\n", "ok b 1\n"),
            ("s1 next c0 t\n", "-31803 not found\n"),
        ],
    },
    Story {
        shows: "each table is found by its own name, whatever their order",
        rows: &[
            ("sys create T S S\nsys create t1 S S\n", OK2),
            ("sys create ! u u\nsys create ~ u u\n", OK2),
            ("sys create t10 S S\nsys create t9 S S\n", OK2),
            ("s1 begin\ns1 put t9 a 9\ns1 put t10 a 10\n", OK3),
            ("s1 put ! a first\ns1 put ~ a last\ns1 put T a T\n", OK3),
            ("s1 commit\nsys ckpt\nsys crash\n", OK3),
            ("sys create t2 S S\ns1 begin\n", OK2),
            ("s1 put t2 a 2\ns1 commit\nsys ckpt\n", OK3),
            ("sys crash\ns1 begin\n", OK2),
            ("s1 get t9 a\ns1 get t10 a\n", "ok 9\nok 10\n"),
            ("s1 get ! a\ns1 get ~ a\n", "ok first\nok last\n"),
            ("s1 get T a\ns1 get t2 a\n", "ok T\nok 2\n"),
            ("s1 get t a\n", "-31803 not found\n"),
            ("s1 get t1 a\n", "-31803 not found\n"),
        ],
    },
    Story {
        shows: "a crash comes after a stamp too",
        rows: &[
            ("s1 begin\ns1 put t a 1\ns1 commit commit=a\n", OK3),
            ("sys crash\n", "ok\n"),
            ("s1 begin\ns1 get t a\n", "ok\n2 no table\n"),
        ],
    },
];

// The key `a` is set to x at the stamp a, and to y at 14.
const SET_AT_A: (&str, &str) = ("s9 begin\ns9 put t a x\ns9 commit commit=a\n", OK3);

const SET_AT_14: (&str, &str) = ("s9 begin\ns9 put t a y\ns9 commit commit=14\n", OK3);

// What a checkpoint keeps, when the device is opened behind a crash.
const KEPT: (&str, &str) = ("sys ckpt\nsys crash\n", OK2);

pub(super) const STAMPED: &[Story<'static>] = &[
    Story {
        shows: "what is not durable at stable when a checkpoint is taken gives way to the version before it",
        rows: &[
            SET_AT_A,
            SET_AT_14,
            ("sys set stable=a\n", "ok\n"),
            KEPT,
            ("s1 begin\ns1 get t a\n", "ok\nok x\n"),
        ],
    },
    Story {
        shows: "so where the leaf was evicted before",
        rows: &[
            SET_AT_A,
            SET_AT_14,
            ("sys evict t a\nsys set stable=a\n", OK2),
            KEPT,
            ("s1 begin\ns1 get t a\n", "ok\nok x\n"),
        ],
    },
    Story {
        shows: "where there is none before it the key is absent",
        rows: &[
            ("s1 begin\ns1 put t a x\ns1 prepare a\n", OK3),
            ("s1 commit commit=a durable=1e\n", "ok\n"),
            ("sys set stable=14\n", "ok\n"),
            KEPT,
            ("s1 begin\ns1 get t a\n", "ok\n-31803 not found\n"),
        ],
    },
    Story {
        shows: "a checkpoint keeps nothing of a transaction that is prepared",
        rows: &[
            ("s1 begin\ns1 put t a x\ns1 prepare a\n", OK3),
            KEPT,
            ("s1 begin\ns1 get t a\n", "ok\n-31803 not found\n"),
        ],
    },
    Story {
        shows: "older versions are read behind an opening as before it",
        rows: &[
            SET_AT_A,
            SET_AT_14,
            ("sys set stable=14\n", "ok\n"),
            KEPT,
            (
                "s1 begin read=9\ns1 get t a\ns1 rollback\n",
                "ok\n-31803 not found\nok\n",
            ),
            (
                "s1 begin read=13\ns1 get t a\ns1 rollback\n",
                "ok\nok x\nok\n",
            ),
            ("s1 begin read=14\ns1 get t a\n", "ok\nok y\n"),
        ],
    },
    Story {
        shows: "so behind a second one, and behind a close",
        rows: &[
            SET_AT_A,
            SET_AT_14,
            ("sys set stable=14\n", "ok\n"),
            KEPT,
            ("sys close\nsys crash\n", OK2),
            (
                "s1 begin read=13\ns1 get t a\ns1 rollback\n",
                "ok\nok x\nok\n",
            ),
            ("s1 begin read=14\ns1 get t a\n", "ok\nok y\n"),
        ],
    },
    Story {
        shows: "a removal with a stamp is undone as a put is",
        rows: &[
            SET_AT_A,
            ("s1 begin\ns1 remove t a\ns1 commit commit=14\n", OK3),
            ("sys set stable=a\nsys close\n", OK2),
            ("s1 begin\ns1 get t a\n", "ok\nok x\n"),
        ],
    },
    Story {
        shows: "without stable each version is kept",
        rows: &[
            SET_AT_A,
            SET_AT_14,
            KEPT,
            ("s1 begin\ns1 get t a\ns1 rollback\n", "ok\nok y\nok\n"),
            ("s1 begin read=a\ns1 get t a\n", "ok\nok x\n"),
        ],
    },
    Story {
        shows: "a transaction that runs on commits behind a checkpoint, which has what it found",
        rows: &[
            SET_AT_A,
            ("s1 begin\ns1 put t a y\nsys ckpt\n", OK3),
            ("s1 commit commit=14\nsys crash\n", OK2),
            ("s1 begin\ns1 get t a\n", "ok\nok x\n"),
        ],
    },
];

// A script on a disk whose calls of these numbers fail, which may hold so many bytes. An opening has
// three calls where there is no checkpoint, and six behind the checkpoint of `READ`.
#[derive(Clone, Copy)]
pub(super) struct Failing<'a> {
    pub(super) text: &'a str,
    pub(super) calls: &'a [u64],
    pub(super) room: u64,
    pub(super) told: &'a str,
}

// Call 3 asks for the device's length for the checkpoint, 7 is the sync of its blocks, 13 that of its
// slot's first byte.
const CHECKPOINT: &str =
    "sys create t S S\ns1 begin\ns1 put t a 1\ns1 commit\nsys ckpt\ns1 begin\nsys ckpt\nsys close\nsys crash\ns1 begin\ns1 get t a\n";

// Behind an opening the leaf is in no frame: calls 20 and 21 read it for the call behind these lines.
const READ: &str =
    "sys create t S S\ns1 begin\ns1 put t a 1\ns1 commit\nsys ckpt\nsys crash\ns1 begin\ns1 get t a\ns1 get t a\n";

const READ_BY_STEPS: &str =
    "sys create t S S\ns1 begin\ns1 put t a 1\ns1 commit\nsys ckpt\nsys crash\ns1 begin\ns1! get t a\ns1.\ns1.\ns1..\ns1 get t a\n";

const READ_TO_WRITE: &str =
    "sys create t S S\ns1 begin\ns1 put t a 1\ns1 commit\nsys ckpt\nsys crash\ns1 begin\ns1 put t a 2\ns1 put t b 3\ns1 commit\nsys ckpt\nsys crash\ns1 begin\ns1 get t a\ns1 get t b\n";

pub(super) const FAILING: &[Failing<'static>] = &[
    Failing {
        text: READ,
        calls: &[20],
        room: 1 << 20,
        told: "ok\nok\nok\nok\nok\nok\nok\n5 disk fault\nok 1\nThrough Some(DiskFault)",
    },
    Failing {
        text: READ,
        calls: &[21, 22],
        room: 1 << 20,
        told: "ok\nok\nok\nok\nok\nok\nok\n5 disk fault\n5 disk fault\nThrough Some(DiskFault)",
    },
    Failing {
        text: READ_BY_STEPS,
        calls: &[20],
        room: 1 << 20,
        told: "ok\nok\nok\nok\nok\nok\nok\nstarted\nmore\nmore\n5 disk fault\nok 1\nThrough Some(DiskFault)",
    },
    Failing {
        text: READ_TO_WRITE,
        calls: &[20],
        room: 1 << 20,
        told: "ok\nok\nok\nok\nok\nok\nok\n5 disk fault\nok\nok\nok\nok\nok\nok 1\nok 3\nThrough Some(DiskFault)",
    },
    Failing {
        text: CHECKPOINT,
        calls: &[3],
        room: 1 << 20,
        told: "ok\nok\nok\nok\n5 disk fault\nok\nok\nok\nok\nok\nok 1\nThrough Some(DiskFault)",
    },
    Failing {
        text: CHECKPOINT,
        calls: &[7],
        room: 1 << 20,
        told: "ok\nok\nok\nok\n5 disk fault\n-31804 panic\n-31804 panic\n-31804 panic\nok\nok\n2 no table\nThrough Some(DiskFault)",
    },
    Failing {
        text: CHECKPOINT,
        calls: &[13],
        room: 1 << 20,
        told: "ok\nok\nok\nok\n5 disk fault\n-31804 panic\n-31804 panic\n-31804 panic\nok\nok\nok 1\nThrough Some(DiskFault)",
    },
    Failing {
        text: "sys create t S S\ns1 begin\ns1 put t a 1\ns1 commit\nsys ckpt\nsys crash\nsys ckpt\ns1 begin\ns1 get t a\n",
        calls: &[24],
        room: 1 << 20,
        told: "ok\nok\nok\nok\nok\nok\n5 disk fault\nok\nok 1\nThrough Some(DiskFault)",
    },
    Failing {
        text: CHECKPOINT,
        calls: &[],
        room: 8_192,
        told: "ok\nok\nok\nok\n28 no space\nok\n28 no space\n28 no space\nok\nok\n2 no table\nThrough None",
    },
    Failing {
        text: "s1 begin\nsys crash\ns1 begin\n",
        calls: &[4],
        room: 8_192,
        told: "ok\nStopped(DiskFault) None",
    },
    Failing {
        text: "s1 begin\nsys close\ns1 begin\n",
        calls: &[13],
        room: 1 << 20,
        told: "ok\nStopped(DiskFault) None",
    },
];
