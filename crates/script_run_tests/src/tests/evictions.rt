// Whole calls that evict the leaf of a key.
use super::Story;

const OK2: &str = "ok\nok\n";

const OK3: &str = "ok\nok\nok\n";

// The key `a` is set to 1.
const SET_A: (&str, &str) = ("s9 begin\ns9 put t a 1\ns9 commit\n", OK3);

// The key `a` at four read stamps, once it was set to x at the stamp a and to y at 14.
const BEFORE: (&str, &str) = (
    "s1 begin read=9\ns1 get t a\ns1 rollback\n",
    "ok\n-31803 not found\nok\n",
);

const AT_FIRST: (&str, &str) = (
    "s1 begin read=a\ns1 get t a\ns1 rollback\n",
    "ok\nok x\nok\n",
);

const BETWEEN: (&str, &str) = (
    "s1 begin read=13\ns1 get t a\ns1 rollback\n",
    "ok\nok x\nok\n",
);

const AT_LAST: (&str, &str) = (
    "s1 begin read=14\ns1 get t a\ns1 rollback\n",
    "ok\nok y\nok\n",
);

pub(super) const EVICTIONS: &[Story<'static>] = &[
    Story {
        shows: "a cursor that stands on the leaf keeps it, and is named by its session",
        rows: &[
            SET_A,
            (
                "s3 begin\ns3 seek c0 t a\nsys evict t a\n",
                "ok\nok 1\n16 busy pinned s3\n",
            ),
            ("s3 reset c0\nsys evict t a\n", OK2),
            ("s3 get t a\n", "ok 1\n"),
        ],
    },
    Story {
        shows: "a call that was begun and is at the leaf keeps it",
        rows: &[
            SET_A,
            (
                "s2 begin\ns2! get t a\ns2.\ns2.\ns2.\n",
                "ok\nstarted\nmore\nmore\nmore\n",
            ),
            ("sys evict t a\n", "16 busy pinned s2\n"),
            ("s2..\n", "ok 1\n"),
            ("sys2 evict t a\n", "ok\n"),
        ],
    },
    Story {
        shows: "an update that is neither committed nor undone keeps it",
        rows: &[
            ("s1 begin\ns1 put t a x\n", OK2),
            ("sys evict t a\n", "16 busy unresolved\n"),
            ("s1 commit\nsys evict t a\n", OK2),
            ("sys evict t a\n", "ok\n"),
            ("s2 begin\ns2 get t a\n", "ok\nok x\n"),
        ],
    },
    Story {
        shows: "so does a rollback that has taken its updates back and has not ended",
        rows: &[
            SET_A,
            ("s1 begin\ns1 put t b 1\n", OK2),
            ("s1! rollback\ns1.\n", "started\nmore\n"),
            ("sys evict t a\n", "16 busy resolving s1\n"),
            ("s1.\nsys evict t a\n", OK2),
        ],
    },
    Story {
        shows: "where several hold a leaf, a pin is told first",
        rows: &[
            SET_A,
            ("s1 begin\ns1 put t a x\n", OK2),
            ("s2 begin\ns2 seek c1 t a\n", "ok\nok 1\n"),
            ("sys evict t a\n", "16 busy pinned s2\n"),
        ],
    },
    Story {
        shows: "older versions are read as before",
        rows: &[
            ("s9 begin\ns9 put t a x\ns9 commit commit=a\n", OK3),
            ("s9 begin\ns9 put t a y\ns9 commit commit=14\n", OK3),
            BEFORE,
            AT_FIRST,
            BETWEEN,
            AT_LAST,
            ("sys evict t a\n", "ok\n"),
            BEFORE,
            AT_FIRST,
            BETWEEN,
            AT_LAST,
        ],
    },
    Story {
        shows: "what is refused, in this order",
        rows: &[
            SET_A,
            ("sys evict u:v a\n", "22 name\n"),
            ("sys evict u a\n", "2 no table\n"),
            (
                "sys! set oldest=1\nsys evict t a\n",
                "started\n22 in call\n",
            ),
            ("sys..\nsys evict t b\n", OK2),
        ],
    },
];
