// A checkpoint that runs beside other work.
use super::{Story, check_script, plain, push};
use std::alloc::Global;
use std::process::Abort;

const OK3: &str = "ok\nok\nok\n";

// The key `a` of the table `t` is set to 1.
const SET_A: (&str, &str) = ("s9 begin\ns9 put t a 1\ns9 commit\n", OK3);

// It is set to 2.
const AGAIN: (&str, &str) = ("s9 begin\ns9 put t a 2\ns9 commit\n", OK3);

// A second table `u`, whose key `a` is set to 3: the two tables have a leaf each.
const TWO: (&str, &str) = (
    "sys create u S S\ns9 begin\ns9 put u a 3\ns9 commit\n",
    "ok\nok\nok\nok\n",
);

// The last leaf is taken, the checkpoint finished, and memory forgotten.
const ENDS: (&str, &str) = (
    "sys ckpt-step\nsys ckpt-finish\nsys crash\n",
    "ok end\nok\nok\n",
);

// The key `a` of `t` as it was before the checkpoint started.
const OLD: (&str, &str) = ("s1 begin\ns1 get t a\n", "ok\nok 1\n");

pub(super) const CHECKPOINTS: &[Story<'static>] = &[
    Story {
        shows: "one that runs is stepped to its end before it is finished",
        rows: &[
            ("sys ckpt-step\nsys ckpt-start\n", "22 no checkpoint\nok\n"),
            (
                "sys ckpt\nsys ckpt-finish\n",
                "16 busy checkpoint\n22 checkpoint left\n",
            ),
            ("sys ckpt-step\nsys ckpt-finish\n", "ok end\nok\n"),
        ],
    },
    Story {
        shows: "one runs at a time, for every actor",
        rows: &[
            ("sys ckpt-finish\n", "22 no checkpoint\n"),
            (
                "sys ckpt-start\nsys2 ckpt-start\nsys close\n",
                "ok\n16 busy checkpoint\n16 busy checkpoint\n",
            ),
            (
                "sys ckpt-step\nsys3 ckpt-step\nsys4 ckpt-finish\n",
                "ok end\nok end\nok\n",
            ),
            ("sys ckpt-finish\nsys ckpt\n", "22 no checkpoint\nok\n"),
        ],
    },
    Story {
        shows: "a table that is made while it runs is none of its tables",
        rows: &[
            ("sys ckpt-start\nsys create u S S\n", "ok\nok\n"),
            (
                "sys ckpt-step\nsys ckpt-finish\nsys crash\n",
                "ok end\nok\nok\n",
            ),
            (
                "s1 begin\ns1 get u a\ns1 get t a\n",
                "ok\n2 no table\n-31803 not found\n",
            ),
        ],
    },
    Story {
        shows: "each table that stood is stepped through, in the order in which they were made",
        rows: &[
            TWO,
            ("sys ckpt-start\nsys ckpt-step\n", "ok\nok left\n"),
            ("sys ckpt-finish\n", "22 checkpoint left\n"),
            ENDS,
            ("s1 begin\ns1 get u a\n", "ok\nok 3\n"),
        ],
    },
    Story {
        shows: "a crash and an opening with other frames forget it",
        rows: &[
            SET_A,
            ("sys ckpt\nsys ckpt-start\nsys crash\n", OK3),
            ("sys ckpt-step\n", "22 no checkpoint\n"),
            (
                "sys ckpt-start\nsys frames 4\nsys ckpt-finish\n",
                "ok\nok\n22 no checkpoint\n",
            ),
            OLD,
        ],
    },
    Story {
        shows: "what is committed since it started is not in it",
        rows: &[SET_A, ("sys ckpt-start\n", "ok\n"), AGAIN, ENDS, OLD],
    },
    Story {
        shows: "nor is it where the leaf was evicted between two steps",
        rows: &[
            SET_A,
            TWO,
            ("sys ckpt-start\nsys ckpt-step\n", "ok\nok left\n"),
            AGAIN,
            ("sys evict t a\nsys evict u a\n", "ok\nok\n"),
            ENDS,
            OLD,
        ],
    },
    Story {
        shows: "nor is a removal, and the row stands again",
        rows: &[
            SET_A,
            ("sys ckpt-start\n", "ok\n"),
            (
                "s9 begin\ns9 remove t a\ns9 commit\nsys evict t a\n",
                "ok\nok\nok\nok\n",
            ),
            ENDS,
            OLD,
        ],
    },
    Story {
        shows: "what is prepared between two steps and rolled back is in none",
        rows: &[
            SET_A,
            TWO,
            ("sys ckpt-start\n", "ok\n"),
            ("s2 begin\ns2 put t a 7\ns2 prepare 5\n", OK3),
            ("sys ckpt-step\ns2 rollback\n", "ok left\nok\n"),
            ENDS,
            OLD,
        ],
    },
    Story {
        shows: "what was prepared before it started and is committed between two steps is not in it",
        rows: &[
            SET_A,
            TWO,
            ("s2 begin\ns2 put t a 7\ns2 prepare 5\n", OK3),
            ("sys ckpt-start\nsys ckpt-step\n", "ok\nok left\n"),
            ("s2 commit commit=6\n", "ok\n"),
            ENDS,
            OLD,
        ],
    },
    Story {
        shows: "while a prepared transaction is being committed none starts",
        rows: &[
            SET_A,
            ("s2 begin\ns2 put t a 7\ns2 prepare 5\n", OK3),
            ("s2! commit commit=6\ns2.\ns2.\n", "started\nmore\nmore\n"),
            ("sys ckpt-start\n", "16 busy resolving s2\n"),
            ("s2..\nsys ckpt-start\n", "ok\nok\n"),
        ],
    },
    Story {
        shows: "the stamps of its start are those of the device",
        rows: &[
            ("s9 begin\ns9 put t a 1\ns9 commit commit=5\n", OK3),
            ("sys set oldest=3 stable=6\nsys ckpt-start\n", "ok\nok\n"),
            ("s9 begin\ns9 put t a 2\ns9 commit commit=9\n", OK3),
            ("sys set oldest=8 stable=9\n", "ok\n"),
            ENDS,
            ("s1 begin read=3\ns1 get t a\n", "ok\n-31803 not found\n"),
            ("s2 begin read=5\ns2 get t a\n", "ok\nok 1\n"),
        ],
    },
    Story {
        shows: "an actor with a call that is not finished has no other",
        rows: &[
            SET_A,
            ("sys! evict t a\nsys ckpt-start\n", "started\n22 in call\n"),
            ("sys..\nsys ckpt-start\n", "ok\nok\n"),
            (
                "sys2! set stable=1\nsys2 ckpt-step\n",
                "started\n22 in call\n",
            ),
            (
                "sys2..\nsys2 ckpt-step\nsys2 ckpt-finish\n",
                "ok\nok end\nok\n",
            ),
        ],
    },
    Story {
        shows: "its calls go by steps",
        rows: &[
            ("sys! ckpt-start\nsys.\nsys.\n", "started\nok\n22 no call\n"),
            (
                "sys! ckpt-step\nsys.\nsys.\nsys.\n",
                "started\nmore\nok end\n22 no call\n",
            ),
            ("sys! ckpt-step\nsys.\n", "started\nok end\n"),
            ("sys! ckpt-finish\nsys..\n", "started\nok\n"),
            (
                "sys! ckpt-finish\nsys.\nsys! ckpt-step\nsys..\n",
                "started\n22 no checkpoint\nstarted\n22 no checkpoint\n",
            ),
            (
                "sys! ckpt-start\nsys..\nsys! ckpt-step\nsys..\nsys! ckpt-finish\nsys.\n",
                "started\nok\nstarted\nok end\nstarted\nok\n",
            ),
        ],
    },
    Story {
        shows: "an actor with one of them that is not finished has no other call",
        rows: &[
            (
                "sys! ckpt-start\nsys ckpt-start\nsys! ckpt-step\nsys ckpt\n",
                "started\n22 in call\n22 in call\n22 in call\n",
            ),
            (
                "sys evict t a\nsys! evict t a\nsys set stable=1\nsys close\n",
                "22 in call\n22 in call\n22 in call\n22 in call\n",
            ),
            (
                "sys2! set stable=1\nsys2! ckpt-start\nsys2..\n",
                "started\n22 in call\nok\n",
            ),
            (
                "sys2 ckpt-start\nsys.\nsys ckpt-step\n",
                "ok\n16 busy checkpoint\nok end\n",
            ),
        ],
    },
    Story {
        shows: "what an actor does between two steps of another's call",
        rows: &[
            SET_A,
            (
                "sys ckpt-start\nsys! ckpt-step\nsys.\nsys2 ckpt-step\nsys.\n",
                "ok\nstarted\nmore\nok end\nok end\n",
            ),
            (
                "sys! ckpt-step\nsys2 ckpt-finish\nsys.\n",
                "started\nok\n22 no checkpoint\n",
            ),
            (
                "sys ckpt-start\nsys! ckpt-step\nsys.\nsys2 ckpt-step\nsys2 ckpt-finish\nsys..\n",
                "ok\nstarted\nmore\nok end\nok\n22 no checkpoint\n",
            ),
            (
                "sys! ckpt-start\nsys crash\nsys.\n",
                "started\nok\n22 no call\n",
            ),
            OLD,
        ],
    },
    Story {
        shows: "an eviction by steps keeps no leaf from it",
        rows: &[
            SET_A,
            (
                "sys ckpt-start\nsys2! evict t a\nsys2.\nsys2.\n",
                "ok\nstarted\nmore\nmore\n",
            ),
            (
                "sys ckpt-step\nsys2..\nsys ckpt-finish\n",
                "ok end\nok\nok\n",
            ),
            ("sys crash\n", "ok\n"),
            OLD,
        ],
    },
];

// The letters of a value of which no two have room in one leaf.
const LONG: usize = 16_383; // letters

// A part of a text: as it stands, or so many times a letter.
#[derive(Clone, Copy)]
enum Part<'a> {
    Of(&'a str),
    Long(&'a str),
}

fn whole(rt: &impl Abort, alloc: Global, parts: &[Part<'_>]) -> String {
    let mut text = String::new(alloc);
    for part in parts {
        push_part(rt, &mut text, *part);
    }
    text
}

fn push_part(rt: &impl Abort, text: &mut String, part: Part<'_>) {
    match part {
        Part::Of(words) => push(rt, text, words),
        Part::Long(letter) => push_long(rt, text, letter),
    }
}

fn push_long(rt: &impl Abort, text: &mut String, letter: &str) {
    for _ in 0..LONG {
        push(rt, text, letter);
    }
}

// Two leaves of one table: the first is taken, both are written over and evicted, and the second is taken.
const TWO_LEAVES: &[Part<'static>] = &[
    Part::Of("sys create t S S\ns9 begin\ns9 put t a "),
    Part::Long("p"),
    Part::Of("\ns9 commit\ns9 begin\ns9 put t b "),
    Part::Long("q"),
    Part::Of("\ns9 commit\nsys evict t a\nsys ckpt\nsys ckpt-start\nsys ckpt-step\n"),
    Part::Of("s1 begin\ns1 put t a 2\ns1 put t b 2\ns1 commit\nsys evict t a\nsys evict t b\n"),
    Part::Of("sys ckpt-step\n"),
];

// What they print.
const TWO_TOLD: &str =
    "ok\nok\nok\nok\nok\nok\nok\nok\nok\nok\nok left\nok\nok\nok\nok\nok\nok\nok end\n";

// The two rows as they were.
const BOTH_OLD: &[Part<'static>] = &[
    Part::Of("ok\nok\nok "),
    Part::Long("p"),
    Part::Of("\nok "),
    Part::Long("q"),
    Part::Of("\n"),
];

// Behind two leaves that were taken so: the lines and what they print.
fn check_behind(rt: &impl Abort, alloc: Global, first: &str, told: &str, last: &str, end: &str) {
    let mut text = whole(rt, alloc, TWO_LEAVES);
    push(rt, &mut text, first);
    push(rt, &mut text, "s1 begin\ns1 get t a\ns1 get t b\n");
    push(rt, &mut text, last);
    let mut wanted = whole(rt, alloc, &[Part::Of(TWO_TOLD), Part::Of(told)]);
    push(rt, &mut wanted, whole(rt, alloc, BOTH_OLD).as_str());
    push(rt, &mut wanted, end);
    check_script(rt, alloc, plain(text.as_str()), wanted.as_str());
}

pub(super) fn check_two_leaves(rt: &impl Abort, alloc: Global) {
    check_behind(
        rt,
        alloc,
        "sys ckpt-finish\nsys crash\n",
        "ok\n",
        "",
        "Through None",
    );
    check_behind(
        rt,
        alloc,
        "sys crash\n",
        "",
        "s1 rollback\nsys ckpt\n",
        "ok\nok\nThrough None",
    );
}
