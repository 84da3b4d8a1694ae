// What is done between two steps of a checkpoint. None of it is on the device that a crash leaves behind
// the finish: that opens as it stood when the checkpoint started.
use super::{Story, check_story};
use std::alloc::Global;
use std::process::Abort;

const OK2: &str = "ok\nok\n";

const OK3: &str = "ok\nok\nok\n";

const OK4: &str = "ok\nok\nok\nok\n";

// Lines that are none.
const NONE: (&str, &str) = ("", "");

// Two tables of a leaf each, of which a checkpoint is taken.
const LAST: (&str, &str) = (
    "sys create u S S\ns9 begin\ns9 put t a 0\ns9 put u a 0\ns9 commit\nsys ckpt\n",
    "ok\nok\nok\nok\nok\nok\n",
);

// Each is changed since, `t` at the stamps 3 and 4.
const SINCE: (&str, &str) = (
    "s9 begin\ns9 put t a 1\ns9 commit commit=3\ns9 begin\ns9 put t a 2\ns9 commit commit=4\ns9 begin\ns9 put u a 3\ns9 commit\n",
    "ok\nok\nok\nok\nok\nok\nok\nok\nok\n",
);

const START: (&str, &str) = ("sys ckpt-start\n", "ok\n");

const FINISH: (&str, &str) = ("sys ckpt-finish\nsys crash\n", OK2);

// The rows as they stood at the start, and at two read stamps before.
const READS: (&str, &str) = (
    "s1 begin\ns1 get t a\ns1 get t b\ns1 get u a\ns1 rollback\ns1 begin read=3\ns1 get t a\ns1 rollback\ns1 begin read=2\ns1 get t a\n",
    "ok\nok 2\n-31803 not found\nok 3\nok\nok\nok 1\nok\nok\nok 0\n",
);

// The steps of the checkpoint before and behind what is done.
const STEPS: [[(&str, &str); 2]; 3] = [
    [
        NONE,
        ("sys ckpt-step\nsys ckpt-step\n", "ok left\nok end\n"),
    ],
    [
        ("sys ckpt-step\n", "ok left\n"),
        ("sys ckpt-step\n", "ok end\n"),
    ],
    [
        ("sys ckpt-step\nsys ckpt-step\n", "ok left\nok end\n"),
        NONE,
    ],
];

// Lines before the start and between two steps, with what they print.
#[derive(Clone, Copy)]
pub(super) struct Beside<'a> {
    shows: &'a str,
    before: (&'a str, &'a str),
    between: (&'a str, &'a str),
}

// A transaction that runs, and one that is prepared, as the checkpoint starts.
const RUNS: (&str, &str) = ("s2 begin\ns2 put t a 7\ns2 put t b 8\n", OK3);

const PREPARED: (&str, &str) = ("s2 begin\ns2 put t a 7\ns2 put t b 8\ns2 prepare 5\n", OK4);

pub(super) const BESIDE: &[Beside<'static>] = &[
    Beside {
        shows: "both leaves are evicted",
        before: NONE,
        between: ("sys evict t a\nsys evict u a\n", OK2),
    },
    Beside {
        shows: "a transaction puts and commits",
        before: NONE,
        between: (
            "s2 begin\ns2 put t a 7\ns2 put t b 8\ns2 commit commit=6\ns2 begin\ns2 put u a 9\ns2 commit\n",
            "ok\nok\nok\nok\nok\nok\nok\n",
        ),
    },
    Beside {
        shows: "one does, and the leaves are evicted",
        before: NONE,
        between: (
            "s2 begin\ns2 put t a 7\ns2 put t b 8\ns2 put u a 9\ns2 commit commit=6\nsys evict t a\nsys evict u a\n",
            "ok\nok\nok\nok\nok\nok\nok\n",
        ),
    },
    Beside {
        shows: "the leaves are evicted, one does, and they are evicted again",
        before: NONE,
        between: (
            "sys evict t a\nsys evict u a\ns2 begin\ns2 put t a 7\ns2 put u a 9\ns2 commit commit=6\nsys evict t a\nsys evict u a\n",
            "ok\nok\nok\nok\nok\nok\nok\nok\n",
        ),
    },
    Beside {
        shows: "one that removes commits, and the leaves are evicted",
        before: NONE,
        between: (
            "s2 begin\ns2 remove t a\ns2 remove u a\ns2 commit commit=6\nsys evict t a\nsys evict u a\n",
            "ok\nok\nok\nok\nok\nok\n",
        ),
    },
    Beside {
        shows: "one that ran at the start commits",
        before: RUNS,
        between: ("s2 commit commit=6\n", "ok\n"),
    },
    Beside {
        shows: "one that ran at the start commits, and the leaf is evicted",
        before: RUNS,
        between: ("s2 commit commit=6\nsys evict t a\n", OK2),
    },
    Beside {
        shows: "one that ran at the start goes on running",
        before: RUNS,
        between: ("s2 put u a 9\n", "ok\n"),
    },
    Beside {
        shows: "one is prepared",
        before: NONE,
        between: PREPARED,
    },
    Beside {
        shows: "one that ran at the start is prepared",
        before: RUNS,
        between: ("s2 prepare 5\n", "ok\n"),
    },
    Beside {
        shows: "one that was prepared at the start stays so, and its leaf stays in memory",
        before: PREPARED,
        between: ("sys evict t a\nsys evict u a\n", "16 busy unresolved\nok\n"),
    },
    Beside {
        shows: "one that was prepared at the start commits",
        before: PREPARED,
        between: ("s2 commit commit=6 durable=8\n", "ok\n"),
    },
    Beside {
        shows: "one that was prepared at the start commits, and the leaf is evicted",
        before: PREPARED,
        between: ("s2 commit commit=6 durable=8\nsys evict t a\n", OK2),
    },
    Beside {
        shows: "one is prepared and commits, and stable passes it",
        before: NONE,
        between: (
            "s2 begin\ns2 put t a 7\ns2 prepare 5\ns2 commit commit=6 durable=8\nsys set stable=9\n",
            "ok\nok\nok\nok\nok\n",
        ),
    },
    Beside {
        shows: "one that was prepared at the start is rolled back",
        before: PREPARED,
        between: ("s2 rollback\n", "ok\n"),
    },
    Beside {
        shows: "one that was prepared at the start is rolled back, and the leaf is evicted",
        before: PREPARED,
        between: ("s2 rollback\nsys evict t a\n", OK2),
    },
    Beside {
        shows: "one is prepared and rolled back",
        before: NONE,
        between: ("s2 begin\ns2 put t a 7\ns2 prepare 5\ns2 rollback\n", OK4),
    },
    Beside {
        shows: "one that ran at the start is rolled back",
        before: RUNS,
        between: ("s2 rollback\n", "ok\n"),
    },
    Beside {
        shows: "one puts and is rolled back, and the leaf is evicted",
        before: NONE,
        between: ("s2 begin\ns2 put t a 7\ns2 rollback\nsys evict t a\n", OK4),
    },
];

fn check_between(rt: &impl Abort, alloc: Global, row: Beside<'_>) {
    for [first, last] in STEPS {
        let rows = [
            LAST,
            SINCE,
            row.before,
            START,
            first,
            row.between,
            last,
            FINISH,
            READS,
        ];
        let story = Story {
            shows: row.shows,
            rows: &rows,
        };
        check_story(rt, alloc, &story);
    }
}

pub(super) fn check_beside(rt: &impl Abort, alloc: Global, rows: &[Beside<'_>]) {
    for row in rows {
        check_between(rt, alloc, *row);
    }
}
