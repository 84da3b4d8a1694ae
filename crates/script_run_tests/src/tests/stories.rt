// Whole calls: what sessions see of each other, stamps, cursors and tables.
use super::Story;

const OK2: &str = "ok\nok\n";

const OK3: &str = "ok\nok\nok\n";

// The key `a` is set to 1.
const SET_A: (&str, &str) = ("s9 begin\ns9 put t a 1\ns9 commit\n", OK3);

// The key `a` is set to x at the stamp a, and to y at 14.
const SET_X: (&str, &str) = ("s9 begin\ns9 put t a x\ns9 commit commit=a\n", OK3);

const SET_Y: (&str, &str) = ("s9 begin\ns9 put t a y\ns9 commit commit=14\n", OK3);

// A create of a table with a name of so many bytes.
const NAME_128: &str =
    "sys create nnnnnnnnnnnnnnnnnnnnnnnnnnnnnnnnnnnnnnnnnnnnnnnnnnnnnnnnnnnnnnnnnnnnnnnnnnnnnnnnnnnnnnnnnnnnnnnnnnnnnnnnnnnnnnnnnnnnnnnnnnnnnnnn S S\n";

const NAME_129: &str =
    "sys create nnnnnnnnnnnnnnnnnnnnnnnnnnnnnnnnnnnnnnnnnnnnnnnnnnnnnnnnnnnnnnnnnnnnnnnnnnnnnnnnnnnnnnnnnnnnnnnnnnnnnnnnnnnnnnnnnnnnnnnnnnnnnnnnn S S\n";

pub(super) const SNAPSHOTS: &[Story<'static>] = &[
    Story {
        shows: "a write under an older snapshot is refused, and its transaction can be rolled back, no more",
        rows: &[
            SET_A,
            ("s1 begin\ns2 begin\n", OK2),
            ("s2 put t a 2\ns2 commit\n", OK2),
            ("s1 get t a\n", "ok 1\n"),
            ("s1 put t a 3\n", "-31800 rollback\n"),
            ("s1 commit\n", "22 failed transaction\n"),
            ("s1 rollback\n", "ok\n"),
        ],
    },
    Story {
        shows: "a read stamp chooses the version, also for a write",
        rows: &[
            SET_X,
            SET_Y,
            (
                "s1 begin read=9\ns1 get t a\ns1 rollback\n",
                "ok\n-31803 not found\nok\n",
            ),
            (
                "s1 begin read=a\ns1 get t a\ns1 rollback\n",
                "ok\nok x\nok\n",
            ),
            (
                "s1 begin read=13\ns1 get t a\ns1 rollback\n",
                "ok\nok x\nok\n",
            ),
            (
                "s1 begin read=14\ns1 get t a\ns1 rollback\n",
                "ok\nok y\nok\n",
            ),
            ("s1 begin read=13\ns1 put t a z\n", "ok\n-31800 rollback\n"),
        ],
    },
    Story {
        shows: "a prepared update is in the way of those who may see it",
        rows: &[
            SET_A,
            ("s3 begin\ns1 begin\n", OK2),
            ("s1 put t a 2\ns1 prepare 1e\ns2 begin\n", OK3),
            ("s2 get t a\n", "-31808 prepare conflict\n"),
            ("s3 get t a\n", "ok 1\n"),
            ("s4 begin read=1d\ns4 get t a\n", "ok\nok 1\n"),
            ("s1 commit commit=1e durable=23\ns2 get t a\n", "ok\nok 2\n"),
        ],
    },
];

pub(super) const STAMPS: &[Story<'static>] = &[
    Story {
        shows: "a commit is after stable, and one that is refused is rolled back",
        rows: &[
            ("sys set stable=14\ns1 begin\ns1 put t a x\n", OK3),
            ("s1 commit commit=14\n", "22 not after stable\n"),
            ("s1 begin\ns1 get t a\n", "ok\n-31803 not found\n"),
            ("s1 put t a x\ns1 commit commit=15\n", OK2),
        ],
    },
    Story {
        shows: "commits of one key are in the order of their stamps, until oldest has passed them",
        rows: &[
            ("s9 begin\ns9 put t a x\ns9 commit commit=14\n", OK3),
            ("s1 begin\ns1 put t a y\n", OK2),
            ("s1 commit commit=13\n", "22 order\n"),
            ("s1 begin\ns1 put t a y\n", OK2),
            ("s1 commit\n", "22 no stamp after stamp\n"),
            ("sys set oldest=14 stable=14\n", "ok\n"),
            ("s9 begin\ns9 put t a z\ns9 commit\n", OK3),
        ],
    },
    Story {
        shows: "a prepared transaction is committed at stamps that suit its own",
        rows: &[
            ("s1 begin\ns1 put t a x\ns1 prepare a\n", OK3),
            ("s1 get t a\n", "22 prepared\n"),
            ("s1 commit\n", "22 no commit stamp\n"),
            ("s1 commit commit=9\n", "22 before prepare\n"),
            (
                "s1 commit commit=a durable=9\n",
                "22 durable before commit\n",
            ),
            ("sys set stable=c\n", "ok\n"),
            ("s1 commit commit=a\n", "22 not after stable\n"),
            ("s1 commit commit=a durable=d\n", "ok\n"),
        ],
    },
    Story {
        shows: "the two stamps never fall, and bound those of transactions",
        rows: &[
            ("sys set oldest=5\n", "ok\n"),
            ("sys set stable=4\n", "22 oldest after stable\n"),
            ("sys set stable=5\nsys set stable=3\n", OK2),
            ("s1 begin read=4\n", "22 before oldest\n"),
            ("s1 begin read=0\n", "22 zero stamp\n"),
            ("s1 begin read=5\n", "ok\n"),
            ("s1 commit commit=6 durable=6\n", "22 durable given\n"),
        ],
    },
];

pub(super) const CALLS: &[Story<'static>] = &[
    Story {
        shows: "a cursor goes over the rows in the order of their keys, both ways",
        rows: &[
            SET_A,
            (
                "s9 begin\ns9 put t b 2\ns9 commit\ns1 begin\n",
                "ok\nok\nok\nok\n",
            ),
            ("s1 next c0 t\ns1 next c0 t\n", "ok a 1\nok b 2\n"),
            ("s1 next c0 t\n", "-31803 not found\n"),
            ("s1 prev c0 t\n", "ok b 2\n"),
            ("s1 insert t a 3\n", "-31801 duplicate key\n"),
            ("s1 remove t c\n", "-31803 not found\n"),
            ("s1 remove t a\ns1 get t a\n", "ok\n-31803 not found\n"),
            ("s1 commit\n", "ok\n"),
        ],
    },
    Story {
        shows: "a call needs a transaction, a table, a session and an actor at rest",
        rows: &[
            ("s1 get t a\n", "22 no transaction\n"),
            ("s1! begin\n", "started\n"),
            ("s1 get t a\n", "22 in call\n"),
            ("s1.\n", "ok\n"),
            ("s1.\n", "22 no call\n"),
            ("s1 begin\n", "22 in transaction\n"),
            ("s1 get u a\n", "2 no table\n"),
            ("s65 begin\n", "75 limit sessions\n"),
        ],
    },
    Story {
        shows: "a table is made once, with the same formats again",
        rows: &[
            ("sys create t S S\n", "ok\n"),
            ("sys create t S u\n", "17 exists\n"),
        ],
    },
    Story {
        shows: "an item is written and told as its table stores it",
        rows: &[
            ("sys create u u u\ns1 begin\n", OK2),
            ("s1 put t a\\00 \\-\ns1 put u a\\00 \\-\n", OK2),
            ("s1 next c0 t\ns1 next c1 u\n", "ok a\\00 \nok a\\00 \n"),
            ("s1 put u \\- x\\00\ns1 get u \\-\n", "ok\nok x\\00\n"),
            ("s1 get t a\n", "-31803 not found\n"),
        ],
    },
    Story {
        shows: "a session is opened at its first use, with all below it",
        rows: &[
            ("s64 begin\ns65 begin\n", "ok\n75 limit sessions\n"),
            ("s999.\n", "75 limit sessions\n"),
            ("s64 begin\ns1 begin\n", "22 in transaction\nok\n"),
        ],
    },
    Story {
        shows: "a name has 128 bytes at most",
        rows: &[(NAME_128, "ok\n"), (NAME_129, "22 name\n")],
    },
];
