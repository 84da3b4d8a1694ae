// Calls that are made step by step, with those of others between.
use super::Story;

const OK2: &str = "ok\nok\n";

const OK3: &str = "ok\nok\nok\n";

const MORE3: &str = "more\nmore\nmore\n";

// The key `a` is set to 1.
const SET_A: (&str, &str) = ("s9 begin\ns9 put t a 1\ns9 commit\n", OK3);

// A call that looks at a leaf has five steps: it finds the table, names the frame, reads its word,
// looks, and clears the name.
pub(super) const SINGLE: &[Story<'static>] = &[
    Story {
        shows: "a started call goes on by steps, and ends by those that are left",
        rows: &[
            ("s1 begin\n", "ok\n"),
            ("s1! put t a x\n", "started\n"),
            ("s1.\n", "more\n"),
            ("s1 rollback\n", "22 in call\n"),
            ("s1..\n", "ok\n"),
            ("s1 get t a\n", "ok x\n"),
        ],
    },
    Story {
        shows: "the steps of a read, with a look into the history where the leaf has no version",
        rows: &[
            SET_A,
            ("s1 begin\ns1! get t a\n", "ok\nstarted\n"),
            (
                "s1.\ns1.\ns1.\ns1.\ns1.\n",
                "more\nmore\nmore\nmore\nok 1\n",
            ),
            ("s1! get t b\n", "started\n"),
            (
                "s1.\ns1.\ns1.\ns1.\ns1.\n",
                "more\nmore\nmore\nmore\nmore\n",
            ),
            ("s1.\n", "-31803 not found\n"),
            ("s1.\n", "22 no call\n"),
        ],
    },
    Story {
        shows: "a transaction begins at the step of its begin",
        rows: &[
            ("s1! begin\n", "started\n"),
            SET_A,
            ("s1.\ns1 get t a\n", "ok\nok 1\n"),
        ],
    },
    Story {
        shows: "a call of the system is made by one step",
        rows: &[
            ("s1 begin\nsys! create u u u\n", "ok\nstarted\n"),
            ("sys create v u u\n", "22 in call\n"),
            ("s1 get u a\n", "2 no table\n"),
            ("sys2! set oldest=1\n", "started\n"),
            ("sys.\n", "ok\n"),
            ("s1 get u a\n", "-31803 not found\n"),
            ("sys2..\nsys2.\nsys4..\n", "ok\n22 no call\n22 no call\n"),
        ],
    },
    Story {
        shows: "an answer is told in the formats of the call that was started",
        rows: &[
            ("sys create u u u\ns1 begin\ns2 begin\n", OK3),
            ("s1 put t a x\ns2 put u a x\\00\n", OK2),
            ("s1! get t a\ns2! get u a\n", "started\nstarted\n"),
            ("s1! get u a\ns2 get t a\n", "22 in call\n22 in call\n"),
            ("s1..\ns2..\n", "ok x\nok x\\00\n"),
        ],
    },
];

pub(super) const COMMITS: &[Story<'static>] = &[
    Story {
        shows: "a write while another commits, and one that had begun before",
        rows: &[
            SET_A,
            ("s1 begin\ns1 put t a 2\ns2 begin\n", OK3),
            ("s1! commit\ns1.\ns1.\n", "started\nmore\nmore\n"),
            ("s2 get t a\n", "ok 1\n"),
            ("s3 begin\ns3! put t a 3\n", "ok\nstarted\n"),
            ("s3.\ns3.\ns3.\n", MORE3),
            ("s2 put t a 4\n", "-31800 rollback\n"),
            ("s1.\n", "ok\n"),
            ("s3.\ns3.\n", "more\n-31800 rollback\n"),
            ("s2 put t a 4\n", "22 failed transaction\n"),
            ("s2 rollback\ns3 rollback\ns4 begin\n", OK3),
            ("s4 get t a\n", "ok 2\n"),
        ],
    },
    Story {
        shows: "a read that had begun keeps its snapshot over a commit",
        rows: &[
            SET_A,
            (
                "s1 begin\ns1! get t a\ns1.\ns1.\n",
                "ok\nstarted\nmore\nmore\n",
            ),
            ("s2 begin\ns2 put t a 2\ns2 commit\n", OK3),
            ("s1..\n", "ok 1\n"),
        ],
    },
    Story {
        shows: "a read while another prepares",
        rows: &[
            SET_A,
            ("s1 begin\ns1 put t a 2\ns2 begin\n", OK3),
            ("s1! prepare 1e\n", "started\n"),
            ("s2 get t a\n", "ok 1\n"),
            ("s1.\n", "more\n"),
            ("s2 get t a\ns3 begin\ns3 get t a\n", "ok 1\nok\nok 1\n"),
            ("s1.\n", "ok\n"),
            ("s2 get t a\ns3 get t a\n", "ok 1\nok 1\n"),
            ("s4 begin\ns4 get t a\n", "ok\n-31808 prepare conflict\n"),
        ],
    },
    Story {
        shows: "a commit that is refused in the middle takes out what it wrote",
        rows: &[
            ("sys set stable=5\ns1 begin\ns1 put t a 1\n", OK3),
            (
                "s1! commit commit=5\ns1.\ns1.\ns1.\n",
                "started\nmore\nmore\nmore\n",
            ),
            ("s2 begin\ns2 get t a\n", "ok\n-31803 not found\n"),
            ("s2 put t a 2\n", "-31800 rollback\n"),
            ("s1.\n", "more\n"),
            ("s3 begin\ns3 put t a 3\n", OK2),
            ("s1.\n", "22 not after stable\n"),
            ("s1 rollback\n", "22 no transaction\n"),
            ("s3 commit\ns2 rollback\ns1 begin\n", OK3),
            ("s1 get t a\n", "ok 3\n"),
        ],
    },
    Story {
        shows: "two sessions resolve one key in turn",
        rows: &[
            ("s1 begin\ns1 put t a 1\ns1 prepare a\n", OK3),
            ("s1! commit commit=a\ns1.\ns1.\n", "started\nmore\nmore\n"),
            ("s2 begin\ns2 get t a\n", "ok\n-31808 prepare conflict\n"),
            ("s1.\n", "more\n"),
            ("s2 get t a\ns2 put t a 2\n", "ok 1\nok\n"),
            ("s2! commit commit=b\ns2.\n", "started\nmore\n"),
            ("s1.\n", "ok\n"),
            ("s2.\ns2.\n", "more\nok\n"),
            ("s3 begin\ns3 get t a\n", "ok\nok 2\n"),
            ("s4 begin read=a\ns4 get t a\n", "ok\nok 1\n"),
        ],
    },
];

pub(super) const ROLLBACKS: &[Story<'static>] = &[
    Story {
        shows: "the rollback of a running transaction takes its updates out first",
        rows: &[
            ("s1 begin\ns1 put t a 1\n", OK2),
            ("s1! rollback\ns1.\n", "started\nmore\n"),
            ("s2 begin\ns2 put t a 2\n", OK2),
            ("s1.\n", "ok\n"),
            ("s2 commit\ns1 begin\ns1 get t a\n", "ok\nok\nok 2\n"),
        ],
    },
    Story {
        shows: "the rollback of a failed one, which wrote another key",
        rows: &[
            SET_A,
            ("s1 begin\ns1 put t b 1\n", OK2),
            ("s2 begin\ns2 put t a 2\ns2 commit\n", OK3),
            ("s1 put t a 3\n", "-31800 rollback\n"),
            ("s1! rollback\ns1.\ns1.\n", "started\nmore\nok\n"),
            ("s1 begin\ns1 get t b\n", "ok\n-31803 not found\n"),
        ],
    },
    Story {
        shows: "the rollback of a prepared one is decided first",
        rows: &[
            ("s1 begin\ns1 put t a 1\ns1 prepare a\n", OK3),
            ("s1! rollback\ns1.\n", "started\nmore\n"),
            ("s2 begin\ns2 get t a\n", "ok\n-31808 prepare conflict\n"),
            ("s1.\n", "more\n"),
            ("s2 get t a\n", "-31803 not found\n"),
            ("s1.\n", "ok\n"),
            ("s1.\n", "22 no call\n"),
        ],
    },
    Story {
        shows: "the end of a transaction clears the names of its cursors' frames",
        rows: &[
            SET_A,
            (
                "s1 begin\ns1 seek c0 t a\ns1 seek c3 t a\n",
                "ok\nok 1\nok 1\n",
            ),
            ("s1! rollback\ns1.\ns1.\n", "started\nmore\nmore\n"),
            ("s1.\n", "ok\n"),
        ],
    },
    Story {
        shows: "a transaction without a write ends in one step",
        rows: &[
            ("s1 begin\ns1! commit\ns1.\n", "ok\nstarted\nok\n"),
            ("s1 begin\ns1! rollback\ns1.\n", "ok\nstarted\nok\n"),
        ],
    },
];
