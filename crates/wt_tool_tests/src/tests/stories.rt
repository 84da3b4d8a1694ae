// Runs behind each other on one device, as people make them: words, names, configurations, rows,
// the greatest of each and one more.
use super::{ROOM, Row, bytes_of, created_within, expect, run_words, split, zeros};
use disk_model::MemDisk;
use std::alloc::Global;
use std::process::Abort;

const USAGE: &str = "usage: wt [-h home] command ..\n";

const NOT_FOUND: &str = "-31803 not found\n";

const TWICE_NOT_FOUND: &str = "-31803 not found\n-31803 not found\n";

// Free units may be written before a block finds no room.
const NO_SPACE: &str = "28 no space\n";

const DUPLICATE: &str = "-31801 duplicate key\n";

// The device on which a story begins, and its capacity in bytes.
#[derive(Clone, Copy, Debug, PartialEq, Eq)]
enum Start {
    // 8,192 zero bytes.
    New(u64),
    // With the table `t` of texts.
    Created(u64),
}

// What is shown, the device, the runs, and how long the device is after them, in bytes. A run that
// is refused for another cause than `28 no space` leaves the bytes of the device as they were.
//
// A word `#k1023` is 1,023 letters `k`; what is printed may begin so.
#[derive(Drop)]
struct Story<'a> {
    shows: &'a str,
    start: Start,
    rows: &'a [Row<'a>],
    len: usize,
}

// Rows: what is read of what was written.
const ROWS: &[Story<'static>] = &[
    Story {
        shows: "the first run reads what it wrote",
        start: Start::New(ROOM),
        rows: &[
            ("create|-c|key_format=S,value_format=S|table:t", 0, "", ""),
            ("write|t|a|1", 0, "", ""),
            ("read|t|a", 0, "", "1\n"),
            ("read|table:t|a", 0, "", "1\n"),
        ],
        len: 20480,
    },
    Story {
        shows: "an absent key is told and the rest goes on",
        start: Start::Created(ROOM),
        rows: &[
            ("write|t|a|1", 0, "", ""),
            ("read|t|b", 1, NOT_FOUND, ""),
            ("read|t|x|a|y", 1, TWICE_NOT_FOUND, "1\n"),
            ("read|t|a|x|a", 1, NOT_FOUND, "1\n1\n"),
            ("read|u|a", 1, "2 no table\n", ""),
            ("read|u|a|b", 1, "2 no table\n", ""),
            ("write|u|a|1", 1, "2 no table\n", ""),
            ("read|t|a\0", 1, NOT_FOUND, ""),
        ],
        len: 20480,
    },
    Story {
        shows: "a key that is there is refused without -o, and then no pair is kept",
        start: Start::Created(ROOM),
        rows: &[
            ("write|t|a|1", 0, "", ""),
            ("write|t|a|2", 1, DUPLICATE, ""),
            ("read|t|a", 0, "", "1\n"),
            ("write|-o|t|a|2", 0, "", ""),
            ("read|t|a", 0, "", "2\n"),
            ("write|t|b|3|a|4", 1, DUPLICATE, ""),
            ("read|t|b", 1, NOT_FOUND, ""),
            ("write|t|b|3|b|4", 1, DUPLICATE, ""),
            ("read|t|b", 1, NOT_FOUND, ""),
            ("write|-o|t|b|3|b|4", 0, "", ""),
            ("read|t|b|a", 0, "", "4\n2\n"),
        ],
        len: 24576,
    },
    Story {
        shows: "many pairs are read in the order of the words",
        start: Start::Created(ROOM),
        rows: &[
            ("write|t|b|2|ab|3|\u{e9}|4|a|1", 0, "", ""),
            ("read|t|\u{e9}|b|a|ab", 0, "", "4\n2\n1\n3\n"),
            ("write|t|aa|5", 0, "", ""),
            ("create|-c|key_format=S,value_format=S|t", 0, "", ""),
            ("read|t|a|aa|ab|b|\u{e9}", 0, "", "1\n5\n3\n2\n4\n"),
        ],
        len: 24576,
    },
    Story {
        shows: "the names of all tables are listed in their order",
        start: Start::New(ROOM),
        rows: &[
            ("list", 0, "", ""),
            ("create|b", 0, "", ""),
            ("create|table:a", 0, "", ""),
            ("list", 0, "", "table:a\ntable:b\n"),
            ("create|ab", 0, "", ""),
            ("create|B", 0, "", ""),
            ("create|a", 0, "", ""),
            ("list", 0, "", "table:B\ntable:a\ntable:ab\ntable:b\n"),
            ("verify", 0, "", ""),
            ("verify|ab", 0, "", ""),
            ("verify|table:b", 0, "", ""),
            ("verify|c", 1, "2 no table\n", ""),
            ("verify|file:a", 1, "22 name\n", ""),
            ("list|a", 1, USAGE, ""),
        ],
        len: 16384,
    },
    Story {
        shows: "a dump has each row of its table, upwards or downwards, in either form",
        start: Start::Created(ROOM),
        rows: &[
            (
                "dump|t",
                0,
                "",
                "WiredTiger Dump (row store 1)\nFormat=print\nHeader\ntable:t\nkey_format=S,value_format=S\nData\n",
            ),
            ("write|t|k\\|\n", 0, "", ""),
            (
                "dump|t",
                0,
                "",
                "WiredTiger Dump (row store 1)\nFormat=print\nHeader\ntable:t\nkey_format=S,value_format=S\nData\nk\\\\\\00\n\\0a\\00\n",
            ),
            (
                "dump|-x|t",
                0,
                "",
                "WiredTiger Dump (row store 1)\nFormat=hex\nHeader\ntable:t\nkey_format=S,value_format=S\nData\n6b5c00\n0a00\n",
            ),
            ("create|u", 0, "", ""),
            ("write|u|b|2|a|1", 0, "", ""),
            (
                "dump|table:u",
                0,
                "",
                "WiredTiger Dump (row store 1)\nFormat=print\nHeader\ntable:u\nkey_format=u,value_format=u\nData\na\n1\nb\n2\n",
            ),
            (
                "dump|-r|u",
                0,
                "",
                "WiredTiger Dump (row store 1)\nFormat=print\nHeader\ntable:u\nkey_format=u,value_format=u\nData\nb\n2\na\n1\n",
            ),
            (
                "dump|-r|-x|u",
                0,
                "",
                "WiredTiger Dump (row store 1)\nFormat=hex\nHeader\ntable:u\nkey_format=u,value_format=u\nData\n62\n32\n61\n31\n",
            ),
            ("dump|v", 1, "2 no table\n", ""),
            ("dump|file:t", 1, "22 name\n", ""),
            ("dump", 1, USAGE, ""),
        ],
        len: 24576,
    },
    Story {
        shows: "any bytes may stand in a key or a value",
        start: Start::Created(ROOM),
        rows: &[
            ("write|t|k\\|\n", 0, "", ""),
            ("read|t|k\\", 0, "", "\n\n"),
            ("write|t|b|", 0, "", ""),
            ("read|t|b", 0, "", "\n"),
            ("read|t|", 1, NOT_FOUND, ""),
            ("write|t||x", 0, "", ""),
            ("read|t||b", 0, "", "x\n\n"),
            ("write|t|c|\u{fc}", 0, "", ""),
            ("read|t|c", 0, "", "\u{fc}\n"),
        ],
        len: 24576,
    },
    Story {
        shows: "items are stored as they are without a configuration",
        start: Start::New(ROOM),
        rows: &[
            ("create|t", 0, "", ""),
            ("create|-c|key_format=u,value_format=u|t", 0, "", ""),
            ("write|t|a|1", 0, "", ""),
            ("read|t|a", 0, "", "1\n"),
            (
                "create|-c|key_format=S,value_format=S|t",
                1,
                "17 exists\n",
                "",
            ),
            (
                "create|-c|key_format=u,value_format=S|t",
                1,
                "17 exists\n",
                "",
            ),
            ("read|t|a", 0, "", "1\n"),
            ("write|t|", 1, USAGE, ""),
            ("write|t||", 0, "", ""),
            ("read|t|", 0, "", "\n"),
        ],
        len: 24576,
    },
];

// Tables beside each other.
const TABLES: &[Story<'static>] = &[
    Story {
        shows: "two tables keep their rows through three runs",
        start: Start::New(ROOM),
        rows: &[
            ("create|-c|key_format=S,value_format=S|t", 0, "", ""),
            ("create|u", 0, "", ""),
            ("write|t|a|1", 0, "", ""),
            ("write|u|b|2", 0, "", ""),
            ("read|t|a", 0, "", "1\n"),
            ("read|u|b", 0, "", "2\n"),
            ("read|u|a", 1, NOT_FOUND, ""),
            ("write|-o|t|a|3", 0, "", ""),
            ("read|t|a|b", 1, NOT_FOUND, "3\n"),
            ("read|u|b", 0, "", "2\n"),
        ],
        len: 28672,
    },
    Story {
        shows: "a table without rows stays beside one with rows",
        start: Start::Created(ROOM),
        rows: &[
            ("create|u", 0, "", ""),
            ("write|u|b|2", 0, "", ""),
            ("read|t|b", 1, NOT_FOUND, ""),
            ("write|u|c|3", 0, "", ""),
            ("read|t|c", 1, NOT_FOUND, ""),
            ("read|u|b|c", 0, "", "2\n3\n"),
            ("create|t", 1, "17 exists\n", ""),
            ("write|t|a|1", 0, "", ""),
            ("read|t|a", 0, "", "1\n"),
        ],
        len: 24576,
    },
    Story {
        shows: "names are told apart by each of their bytes",
        start: Start::New(ROOM),
        rows: &[
            ("create|a.b", 0, "", ""),
            ("create|B", 0, "", ""),
            ("create|a", 0, "", ""),
            ("write|a|k|1", 0, "", ""),
            ("write|a.b|k|2", 0, "", ""),
            ("write|B|k|3", 0, "", ""),
            ("read|a|k", 0, "", "1\n"),
            ("read|table:a.b|k", 0, "", "2\n"),
            ("read|B|k", 0, "", "3\n"),
            ("read|b|k", 1, "2 no table\n", ""),
            ("read|A|k", 1, "2 no table\n", ""),
        ],
        len: 28672,
    },
];

// Words, names and configurations.
const WORDS: &[Story<'static>] = &[
    Story {
        shows: "bad words, names and configurations change nothing",
        start: Start::New(ROOM),
        rows: &[
            ("", 1, USAGE, ""),
            ("make", 1, USAGE, ""),
            ("create", 1, USAGE, ""),
            ("create|-x", 1, USAGE, ""),
            ("create|--help", 1, USAGE, ""),
            ("create|-c|key_format=S,value_format=S", 1, USAGE, ""),
            ("create|file:t", 1, "22 name\n", ""),
            ("create|table:a b", 1, "22 name\n", ""),
            ("create|table:a\u{7}", 1, "22 name\n", ""),
            ("create|", 1, "22 name\n", ""),
            ("create|-c|key_format=(S|t", 1, "22 config\n", ""),
            ("create|-c|=S|t", 1, "22 config\n", ""),
            ("create|-c|key_format=Q|t", 1, "22 config\n", ""),
            (
                "create|-c|key_format=S,value_format=s|t",
                1,
                "22 config\n",
                "",
            ),
            ("write|file:t|a|1", 1, "22 name\n", ""),
            ("read|file:t|a", 1, "22 name\n", ""),
            ("write|t|a|1", 1, "2 no table\n", ""),
            ("read|t|a", 1, "2 no table\n", ""),
        ],
        len: 8192,
    },
    Story {
        shows: "a configuration may say more than formats, and the last of equal keys counts",
        start: Start::New(ROOM),
        rows: &[
            (
                "create|-c|key_format=S,app_metadata=(a,b=[c,d]),value_format=S|t",
                0,
                "",
                "",
            ),
            ("write|t|a|1", 0, "", ""),
            ("read|t|a", 0, "", "1\n"),
            (
                "create|-c|key_format=u,value_format=\"S\",key_format=S|t",
                0,
                "",
                "",
            ),
            ("create|-c|key_format=S|t", 1, "17 exists\n", ""),
            ("create|-c||t", 1, "17 exists\n", ""),
        ],
        len: 20480,
    },
    Story {
        shows: "a key without a value is no command",
        start: Start::Created(ROOM),
        rows: &[
            ("write", 1, USAGE, ""),
            ("write|t", 1, USAGE, ""),
            ("write|t|b", 1, USAGE, ""),
            ("write|t|b|2|c", 1, USAGE, ""),
            ("write|-o|t|b|2|c", 1, USAGE, ""),
            ("read|t", 1, USAGE, ""),
            ("read|t|b|c", 1, TWICE_NOT_FOUND, ""),
        ],
        len: 12288,
    },
    Story {
        shows: "a home stands before the command",
        start: Start::Created(ROOM),
        rows: &[
            ("-h|x|write|t|a|1", 0, "", ""),
            ("-h|x|read|t|a", 0, "", "1\n"),
            ("-h|x", 1, USAGE, ""),
            ("read|-h|x|t|a", 1, USAGE, ""),
        ],
        len: 20480,
    },
    Story {
        shows: "a table is made once, and another beside it",
        start: Start::New(ROOM),
        rows: &[
            ("create|-c|key_format=S,value_format=S|table:t", 0, "", ""),
            ("create|-c|key_format=S,value_format=S|table:t", 0, "", ""),
            ("create|-c|key_format=S,value_format=S|t", 0, "", ""),
            ("create|t", 1, "17 exists\n", ""),
            (
                "create|-c|key_format=S,value_format=u|t",
                1,
                "17 exists\n",
                "",
            ),
            ("create|u", 0, "", ""),
            ("create|u", 0, "", ""),
            ("create|t", 1, "17 exists\n", ""),
        ],
        len: 16384,
    },
    Story {
        shows: "a name has 128 bytes at most",
        start: Start::New(ROOM),
        rows: &[
            ("create|#n129", 1, "22 name\n", ""),
            ("create|#n128", 0, "", ""),
            ("write|#n128|a|1", 0, "", ""),
            ("read|#n128|a", 0, "", "1\n"),
        ],
        len: 20480,
    },
];

// The greatest keys, values and leaves, and one byte more.
const ITEMS: &[Story<'static>] = &[
    Story {
        shows: "a key of a text, with its zero byte, has 1,024 bytes at most",
        start: Start::Created(ROOM),
        rows: &[
            ("read|t|#k1023", 1, NOT_FOUND, ""),
            ("write|t|#k1023|1", 0, "", ""),
            ("read|t|#k1023", 0, "", "1\n"),
            ("read|t|#k1023|#k1024|#k1023", 1, "22 key long\n", "1\n"),
            ("write|t|#k1024|1", 1, "22 key long\n", ""),
            ("write|t|a|1|#k1024|1", 1, "22 key long\n", ""),
            ("write|t|#k1024|#v16384", 1, "22 key long\n", ""),
        ],
        len: 20480,
    },
    Story {
        shows: "a key of plain bytes has 1,024 at most, and a long key is told before an absent table",
        start: Start::New(ROOM),
        rows: &[
            ("write|t|#k1024|1", 1, "2 no table\n", ""),
            ("write|t|#k1025|1", 1, "22 key long\n", ""),
            ("read|t|#k1025", 1, "22 key long\n", ""),
            ("create|t", 0, "", ""),
            ("write|t|#k1025|1", 1, "22 key long\n", ""),
            ("write|t|#k1024|1", 0, "", ""),
            ("read|t|#k1024|#k1025", 1, "22 key long\n", "1\n"),
        ],
        len: 20480,
    },
    Story {
        shows: "a value of a text, with its zero byte, has 16,384 bytes at most",
        start: Start::Created(ROOM),
        rows: &[
            ("write|t|a|#v16383", 0, "", ""),
            ("read|t|a", 0, "", "#v16383\n"),
            ("write|t|b|#v16384", 1, "22 value long\n", ""),
            ("write|t|b|1|c|#v16384", 1, "22 value long\n", ""),
            ("write|u|a|#v16384", 1, "2 no table\n", ""),
        ],
        len: 36864,
    },
    Story {
        shows: "a value of plain bytes has 16,384 at most",
        start: Start::New(ROOM),
        rows: &[
            ("create|-c|key_format=S,value_format=u|t", 0, "", ""),
            ("write|t|a|#v16385", 1, "22 value long\n", ""),
            ("write|t|a|#v16384", 0, "", ""),
            ("read|t|a", 0, "", "#v16384\n"),
        ],
        len: 36864,
    },
    Story {
        shows: "a leaf has 32,768 bytes at most: 16, and for each row 39, a key of 2 and a value; a byte more makes two of 20,480 and a page",
        start: Start::Created(ROOM),
        rows: &[
            ("write|t|a|#v16334|b|#v16334", 0, "", ""),
            ("write|-o|t|b|#v16335", 0, "", ""),
            ("read|t|a", 0, "", "#v16334\n"),
            ("read|t|b", 0, "", "#v16335\n"),
            ("write|t|c|2", 0, "", ""),
            ("verify", 0, "", ""),
            ("write|-o|t|b|1", 0, "", ""),
            ("read|t|b|c", 0, "", "1\n2\n"),
        ],
        len: 94208,
    },
];

// Devices with room, and without.
const DEVICES: &[Story<'static>] = &[
    Story {
        shows: "a table has room, or none: 8192 bytes",
        start: Start::New(8192),
        rows: &[(
            "create|-c|key_format=S,value_format=S|table:t",
            1,
            "28 no space\n",
            "",
        )],
        len: 8192,
    },
    Story {
        shows: "a table has room, or none: 12288 bytes",
        start: Start::New(12288),
        rows: &[("create|-c|key_format=S,value_format=S|table:t", 0, "", "")],
        len: 12288,
    },
    Story {
        shows: "a first row has room, or none: 12288 bytes",
        start: Start::Created(12288),
        rows: &[
            ("write|t|a|1", 1, NO_SPACE, ""),
            ("read|t|a", 1, NOT_FOUND, ""),
        ],
        len: 12288,
    },
    Story {
        shows: "a first row has room, or none: 16384 bytes",
        start: Start::Created(16384),
        rows: &[
            ("write|t|a|1", 1, NO_SPACE, ""),
            ("read|t|a", 1, NOT_FOUND, ""),
        ],
        len: 16384,
    },
    Story {
        shows: "a first row has room, or none: 20480 bytes",
        start: Start::Created(20480),
        rows: &[("write|t|a|1", 0, "", ""), ("read|t|a", 0, "", "1\n")],
        len: 20480,
    },
    Story {
        shows: "freed units are room, but one more is needed: 20480 bytes",
        start: Start::Created(20480),
        rows: &[
            ("write|t|a|1", 0, "", ""),
            ("write|-o|t|a|2", 1, NO_SPACE, ""),
            ("read|t|a", 0, "", "1\n"),
        ],
        len: 20480,
    },
    Story {
        shows: "freed units are room, but one more is needed: 24576 bytes",
        start: Start::Created(24576),
        rows: &[
            ("write|t|a|1", 0, "", ""),
            ("write|-o|t|a|2", 0, "", ""),
            ("read|t|a", 0, "", "2\n"),
        ],
        len: 24576,
    },
];

fn started(rt: &impl Abort, alloc: Global, start: Start) -> MemDisk {
    match start {
        Start::New(capacity) => zeros(rt, alloc, 8192, capacity),
        Start::Created(capacity) => created_within(rt, alloc, capacity),
    }
}

// The text, where it begins with `#` the letters that it stands for and what is behind them.
fn written_out(rt: &impl Abort, alloc: Global, text: &str) -> String {
    let mut out = String::new(alloc);
    let mut chars = text.chars();
    if !text.starts_with('#') {
        out.push_str(text).expect(rt, "there is memory");
        return out;
    }
    chars.next();
    let letter = chars.next().unwrap_or('#');
    let mut count = 0usize;
    let mut behind = None;
    for c in chars {
        match c.to_digit(10) {
            Some(digit) => count = count.saturating_mul(10).saturating_add(digit as usize),
            None => behind = Some(c),
        }
    }
    for _ in 0..count {
        out.push(letter).expect(rt, "there is memory");
    }
    if let Some(c) = behind {
        out.push(c).expect(rt, "there is memory");
    }
    out
}

// The words of a line, each written out; none of an empty line.
fn words_of(rt: &impl Abort, alloc: Global, line: &str) -> Vec<String> {
    let mut words = Vec::new(alloc);
    if line.is_empty() {
        return words;
    }
    for word in split(rt, alloc, line) {
        let word = written_out(rt, alloc, word);
        words.push(word).expect(rt, "there is memory");
    }
    words
}

// The disk after a run that ended as its row says; as it was, where the run was refused.
fn told(rt: &impl Abort, alloc: Global, disk: MemDisk, row: &Row<'_>) -> MemDisk {
    let (line, status, told, printed) = *row;
    let before = bytes_of(rt, alloc, &disk);
    let words = words_of(rt, alloc, line);
    let ran = run_words(rt, alloc, disk, &words);
    let printed = written_out(rt, alloc, printed);
    let disk = expect(rt, ran, line, status, told, printed.as_str());
    if status != 0 && told != NO_SPACE {
        assert!(rt; disk.bytes() == before.as_slice(), "left by {line}");
    }
    disk
}

// Each run of each story ends as its row says.
fn are_so(rt: &impl Abort, alloc: Global, stories: &[Story<'_>]) {
    for story in stories {
        let mut disk = started(rt, alloc, story.start);
        for row in story.rows {
            disk = told(rt, alloc, disk, row);
        }
        assert_eq!(rt; disk.bytes().len(), story.len, "after: {}", story.shows);
    }
}

#[test]
fn rows_are_read_as_they_were_written(rt: HostRuntime) {
    are_so(&rt, rt.alloc(), ROWS);
}

#[test]
fn tables_stand_beside_each_other(rt: HostRuntime) {
    are_so(&rt, rt.alloc(), TABLES);
}

#[test]
fn words_names_and_configurations_are_told_apart(rt: HostRuntime) {
    are_so(&rt, rt.alloc(), WORDS);
}

#[test]
fn the_greatest_items_are_taken_and_a_byte_more_is_refused(rt: HostRuntime) {
    are_so(&rt, rt.alloc(), ITEMS);
}

#[test]
fn a_device_without_room_stays_as_it_was(rt: HostRuntime) {
    are_so(&rt, rt.alloc(), DEVICES);
}
