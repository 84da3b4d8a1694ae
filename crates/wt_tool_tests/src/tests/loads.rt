// Dumps that are loaded, and texts that are none.
use super::{ROOM, Ran, bytes_of, disk_of, expect, new_device, owned, split};
use disk_model::MemDisk;
use std::alloc::Global;
use std::process::Abort;
use wt_io::{MemSink, MemSource};
use wt_tool::wt_plain;

// The words of a run, the input, the numbers of its reads that fail, the status, and what is told
// and printed.
#[derive(Clone, Copy)]
struct Case<'a> {
    line: &'a str,
    text: &'a str,
    reads: &'a [u64],
    status: u8,
    told: &'a str,
    printed: &'a str,
}

fn run(rt: &impl Abort, alloc: Global, disk: MemDisk, case: Case<'_>) -> MemDisk {
    let words = split(rt, alloc, case.line);
    let words = owned(rt, alloc, &words);
    let input = MemSource::new(alloc, case.text.as_bytes(), case.reads);
    let mut input = input.expect(rt, "there is memory");
    let mut out = MemSink::new(alloc, &[]).expect(rt, "there is memory");
    let mut err = MemSink::new(alloc, &[]).expect(rt, "there is memory");
    let ended = wt_plain(alloc, &words, &mut input, &mut out, &mut err, disk);
    let ran = Ran {
        status: ended.status,
        disk: ended.disk,
        told: err,
        printed: out,
    };
    expect(rt, ran, case.line, case.status, case.told, case.printed)
}

const FOREIGN: &str =
    "WiredTiger Dump (WiredTiger Version 10.0.0)\nFormat=print\nHeader\ntable:t\napp_metadata=,colgroups=,key_format=S,value_format=S\ncolgroup:t\nsource=\"file:t.wt\",type=file\nData\na\\00\n1\\00\n";

const SHORT: &str =
    "WiredTiger Dump (WiredTiger Version 10.0.0)\nFormat=print\nHeader\ntable:t\napp_metadata=,colgroups=,key_format=S,value_format=S\nData\nb\\00\n2\\00";

const HEX: &str =
    "WiredTiger Dump (row store 1)\nFormat=hex\nHeader\ntable:v\nkey_format=S,value_format=u\nData\n6B5c00\n0a00\n6b00\n\n";

// On one device, one after the other.
const GOOD: &[Case<'static>] = &[
    Case {
        line: "load",
        text: FOREIGN,
        reads: &[],
        status: 0,
        told: "",
        printed: "",
    },
    Case {
        line: "list",
        text: "",
        reads: &[],
        status: 0,
        told: "",
        printed: "table:t\n",
    },
    Case {
        line: "read|t|a",
        text: "",
        reads: &[],
        status: 0,
        told: "",
        printed: "1\n",
    },
    Case {
        line: "load|-n",
        text: FOREIGN,
        reads: &[],
        status: 1,
        told: "-31801 duplicate key\n",
        printed: "",
    },
    Case {
        line: "load",
        text: FOREIGN,
        reads: &[],
        status: 0,
        told: "",
        printed: "",
    },
    Case {
        line: "load|-n",
        text: SHORT,
        reads: &[],
        status: 0,
        told: "",
        printed: "",
    },
    Case {
        line: "read|t|a|b",
        text: "",
        reads: &[],
        status: 0,
        told: "",
        printed: "1\n2\n",
    },
    Case {
        line: "load|-r|table:u",
        text: SHORT,
        reads: &[],
        status: 0,
        told: "",
        printed: "",
    },
    Case {
        line: "load|-n|-r|u",
        text: SHORT,
        reads: &[],
        status: 1,
        told: "-31801 duplicate key\n",
        printed: "",
    },
    Case {
        line: "load|-r|file:u",
        text: SHORT,
        reads: &[],
        status: 1,
        told: "22 name\n",
        printed: "",
    },
    Case {
        line: "load",
        text: HEX,
        reads: &[],
        status: 0,
        told: "",
        printed: "",
    },
    Case {
        line: "load|-r|t",
        text: HEX,
        reads: &[],
        status: 1,
        told: "17 exists\n",
        printed: "",
    },
    Case {
        line: "list",
        text: "",
        reads: &[],
        status: 0,
        told: "",
        printed: "table:t\ntable:u\ntable:v\n",
    },
    Case {
        line: "dump|v",
        text: "",
        reads: &[],
        status: 0,
        told: "",
        printed: "WiredTiger Dump (row store 1)\nFormat=print\nHeader\ntable:v\nkey_format=S,value_format=u\nData\nk\\00\n\nk\\\\\\00\n\\0a\\00\n",
    },
    Case {
        line: "verify",
        text: "",
        reads: &[],
        status: 0,
        told: "",
        printed: "",
    },
];

// Each on a new device, which stays as it was.
const BAD: &[Case<'static>] = &[
    Case {
        line: "load",
        text: "",
        reads: &[],
        status: 1,
        told: "22 text at line 1\n",
        printed: "",
    },
    Case {
        line: "load",
        text: "WiredTiger Dump\n",
        reads: &[],
        status: 1,
        told: "22 text at line 2\n",
        printed: "",
    },
    Case {
        line: "load",
        text: "WiredTiger Dump\nFormat=print\nHeader\n",
        reads: &[],
        status: 1,
        told: "22 text at line 4\n",
        printed: "",
    },
    Case {
        line: "load",
        text: "WiredTiger Dump\nFormat=print\nHeader\ntable:t\nkey_format=S\n",
        reads: &[],
        status: 1,
        told: "22 text at line 6\n",
        printed: "",
    },
    Case {
        line: "load|-r|file:u",
        text: "WiredTiger Dump\nFormat=json\n",
        reads: &[],
        status: 1,
        told: "22 text at line 2\n",
        printed: "",
    },
    Case {
        line: "load",
        text: "WiredTiger Dump\nFormat=print\nHeader\ntable:t\nkey_format=S,value_format=S\nData\na\\00\n",
        reads: &[],
        status: 1,
        told: "22 text at line 8\n",
        printed: "",
    },
    Case {
        line: "load",
        text: "WiredTiger Dump\nFormat=print\nHeader\ntable:t:u\n\nData\na\nb\n",
        reads: &[],
        status: 1,
        told: "22 name\n",
        printed: "",
    },
    Case {
        line: "load",
        text: FOREIGN,
        reads: &[0],
        status: 5,
        told: "input fault\n",
        printed: "",
    },
    Case {
        line: "load",
        text: FOREIGN,
        reads: &[1],
        status: 5,
        told: "input fault\n",
        printed: "",
    },
    Case {
        line: "load|t",
        text: FOREIGN,
        reads: &[],
        status: 1,
        told: "usage: wt [-h home] command ..\n",
        printed: "",
    },
];

#[test]
fn a_dump_is_loaded_and_any_other_text_refused_at_its_first_wrong_line(rt: HostRuntime) {
    let alloc = rt.alloc();
    let mut disk = new_device(&rt, alloc);
    for case in GOOD {
        disk = run(&rt, alloc, disk, *case);
    }
    let device = new_device(&rt, alloc);
    for case in BAD {
        let content = bytes_of(&rt, alloc, &device);
        let disk = disk_of(&rt, alloc, content, ROOM, &[]);
        let disk = run(&rt, alloc, disk, *case);
        assert!(rt; disk.bytes() == device.bytes(), "after {}", case.text);
    }
}
