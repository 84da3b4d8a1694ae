// Evictions that go by steps, and what others do between these.
use super::Story;

const OK2: &str = "ok\nok\n";

const OK3: &str = "ok\nok\nok\n";

// The key `a` is set to 1, by the ninth session.
const SET_A: (&str, &str) = ("s9 begin\ns9 put t a 1\ns9 commit\n", OK3);

const SEVEN_MORE: (&str, &str) = (
    "sys.\nsys.\nsys.\nsys.\nsys.\nsys.\nsys.\n",
    "more\nmore\nmore\nmore\nmore\nmore\nmore\n",
);

// The leaf of the key `a` is found, and its frame locked.
const LOCKED: (&str, &str) = ("sys! evict t a\nsys.\nsys.\n", "started\nmore\nmore\n");

pub(super) const BY_STEPS: &[Story<'static>] = &[
    Story {
        shows: "the steps of an eviction, with five words of each of nine sessions",
        rows: &[
            SET_A,
            ("sys! evict t a\n", "started\n"),
            SEVEN_MORE,
            SEVEN_MORE,
            SEVEN_MORE,
            SEVEN_MORE,
            SEVEN_MORE,
            SEVEN_MORE,
            SEVEN_MORE,
            ("sys.\n", "ok\n"),
            ("sys.\nsys..\n", "22 no call\n22 no call\n"),
            ("s1 begin\ns1 get t a\n", "ok\nok 1\n"),
        ],
    },
    Story {
        shows: "a call that comes to a locked leaf is turned away",
        rows: &[
            SET_A,
            ("s1 begin\n", "ok\n"),
            LOCKED,
            ("s1 get t a\n", "11 again\n"),
            (
                "s1 put t a 2\ns1 insert t b 2\ns1 remove t a\n",
                "11 again\n11 again\n11 again\n",
            ),
            ("s1 seek c0 t a\ns1 next c1 t\n", "11 again\n11 again\n"),
            ("sys..\n", "ok\n"),
            ("s1 get t a\n", "ok 1\n"),
            ("s1 commit\n", "ok\n"),
        ],
    },
    Story {
        shows: "so is one that goes by steps, and its hazard word keeps the leaf as long",
        rows: &[
            SET_A,
            ("s1 begin\ns1! get t a\ns1.\n", "ok\nstarted\nmore\n"),
            LOCKED,
            ("s1.\ns1.\ns1.\n", "more\nmore\n11 again\n"),
            ("s1! get t a\ns1.\ns1.\n", "started\nmore\nmore\n"),
            ("sys..\n", "16 busy pinned s1\n"),
            ("s1..\n", "ok 1\n"),
        ],
    },
    Story {
        shows: "a cursor that stands on the leaf ends it at its hazard word, and the lock is given back",
        rows: &[
            SET_A,
            ("s1 begin\ns1 seek c0 t a\n", "ok\nok 1\n"),
            LOCKED,
            ("sys.\nsys.\nsys.\nsys.\n", "more\nmore\nmore\nmore\n"),
            ("sys.\n", "16 busy pinned s1\n"),
            ("s2 begin\ns2 get t a\n", "ok\nok 1\n"),
            ("s1 reset c0\nsys! evict t a\nsys..\n", "ok\nstarted\nok\n"),
        ],
    },
    Story {
        shows: "a transaction that wrote in the leaf before ends beside it, or keeps it",
        rows: &[
            SET_A,
            ("s1 begin\ns1 put t a x\n", OK2),
            LOCKED,
            ("s1 commit\n", "ok\n"),
            ("sys..\n", "ok\n"),
            ("s1 begin\ns1 put t a y\n", OK2),
            LOCKED,
            ("s1 rollback\n", "ok\n"),
            ("sys..\n", "ok\n"),
            ("s1 begin\ns1 put t a z\n", OK2),
            LOCKED,
            ("s1 prepare 5\n", "ok\n"),
            ("sys..\n", "16 busy unresolved\n"),
            ("s2 begin\ns2 get t a\n", "ok\n-31808 prepare conflict\n"),
        ],
    },
    Story {
        shows: "a leaf that is locked, or is not where it was found, is evicted by nobody else",
        rows: &[
            SET_A,
            LOCKED,
            ("sys2 evict t b\n", "16 busy evicting\n"),
            (
                "sys3! evict t a\nsys3.\nsys3.\n",
                "started\nmore\n16 busy evicting\n",
            ),
            ("sys..\n", "ok\n"),
            ("sys! evict t a\nsys.\n", "started\nok\n"),
            ("s1 begin\ns1 get t a\n", "ok\nok 1\n"),
            ("sys! evict t a\nsys.\n", "started\nmore\n"),
            ("sys2 evict t a\ns1 get t a\n", "ok\nok 1\n"),
            ("sys.\n", "16 busy evicting\n"),
            ("sys evict t a\n", "ok\n"),
        ],
    },
    Story {
        shows: "what is refused at the first step, and what meanwhile",
        rows: &[
            SET_A,
            ("sys! evict u:v a\nsys.\n", "started\n22 name\n"),
            ("sys! evict u a\nsys..\n", "started\n2 no table\n"),
            ("sys! evict t a\n", "started\n"),
            (
                "sys evict t a\nsys! set oldest=1\nsys ckpt\n",
                "22 in call\n22 in call\n22 in call\n",
            ),
            ("sys2 set oldest=1\nsys4! set oldest=2\n", "ok\nstarted\n"),
            ("sys4! evict t a\nsys4.\n", "22 in call\nok\n"),
            ("sys..\n", "ok\n"),
        ],
    },
    Story {
        shows: "a close waits for one that has found its leaf, and an opening gives it up",
        rows: &[
            SET_A,
            ("sys2! evict t a\nsys2.\n", "started\nmore\n"),
            ("sys close\n", "16 busy evicting\n"),
            ("sys2..\n", "ok\n"),
            ("sys2! evict t a\n", "started\n"),
            ("sys close\n", "ok\n"),
            ("sys2.\n", "22 no call\n"),
            ("s1 begin\ns1 get t a\n", "ok\nok 1\n"),
            ("sys3! evict t a\nsys3.\nsys3.\n", "started\nmore\nmore\n"),
            ("sys crash\nsys3.\n", "ok\n22 no call\n"),
        ],
    },
];
