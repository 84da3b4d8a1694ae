// Scripts that take no checkpoint: what each prints and tells on a device, which stays as it was.
use super::{ROOM, Ran, bytes_of, disk_of, expect, new_device, owned, runs, written};
use disk_model::MemDisk;
use std::alloc::Global;
use std::process::Abort;
use wt_io::{MemSink, MemSource};
use wt_tool::wt_plain;

// A script, the numbers of the reads and the writes that fail, its status, and what it tells and
// prints.
#[derive(Clone, Copy)]
pub(crate) struct Case<'a> {
    pub(crate) text: &'a str,
    pub(crate) reads: &'a [u64],
    pub(crate) writes: &'a [u64],
    pub(crate) status: u8,
    pub(crate) told: &'a str,
    pub(crate) printed: &'a str,
}

pub(crate) fn run(rt: &impl Abort, alloc: Global, disk: MemDisk, case: Case<'_>) -> Ran {
    let words = owned(rt, alloc, &["script"]);
    let input = MemSource::new(alloc, case.text.as_bytes(), case.reads);
    let mut input = input.expect(rt, "there is memory");
    let mut out = MemSink::new(alloc, case.writes).expect(rt, "there is memory");
    let mut err = MemSink::new(alloc, &[]).expect(rt, "there is memory");
    let ended = wt_plain(alloc, &words, &mut input, &mut out, &mut err, disk);
    Ran {
        status: ended.status,
        disk: ended.disk,
        told: err,
        printed: out,
    }
}

// The device after a script that ends so: it has the bytes that it had.
fn comes_out(rt: &impl Abort, alloc: Global, device: &MemDisk, case: Case<'_>) -> MemDisk {
    let content = bytes_of(rt, alloc, device);
    let disk = disk_of(rt, alloc, content, ROOM, &[]);
    let ran = run(rt, alloc, disk, case);
    let disk = expect(rt, ran, case.text, case.status, case.told, case.printed);
    assert!(rt; disk.bytes() == device.bytes(), "after {}", case.text);
    disk
}

const ON_NEW: &[Case<'static>] = &[
    Case {
        text: "",
        reads: &[],
        writes: &[],
        status: 0,
        told: "",
        printed: "",
    },
    Case {
        text: "sys create t S S\ns1 begin\ns1 put t a 1\ns1 get t a\n",
        reads: &[],
        writes: &[],
        status: 0,
        told: "",
        printed: "ok\nok\nok\nok 1\n",
    },
];

#[test]
fn a_script_on_a_new_device_leaves_no_table(rt: HostRuntime) {
    let alloc = rt.alloc();
    let device = new_device(&rt, alloc);
    for case in ON_NEW {
        let disk = comes_out(&rt, alloc, &device, *case);
        let _ = runs(&rt, alloc, disk, &[("read|t|a", 1, "2 no table\n", "")]);
    }
}

// On a device whose table `t` of texts has 1 under `a`.
const ON_WRITTEN: &[Case<'static>] = &[
    Case {
        text: "s1 begin\ns1 get t a\ns1 put t a 2\ns1 commit\ns2 begin\ns2 get t a\n",
        reads: &[],
        writes: &[],
        status: 0,
        told: "",
        printed: "ok\nok 1\nok\nok\nok\nok 2\n",
    },
    Case {
        text: "s1 get t a\ns1 begin\n",
        reads: &[],
        writes: &[],
        status: 0,
        told: "",
        printed: "22 no transaction\nok\n",
    },
    Case {
        text: "s1 begin\ns1 fly\ns1 commit\n",
        reads: &[],
        writes: &[],
        status: 1,
        told: "22 text at line 2\n",
        printed: "ok\n",
    },
    Case {
        text: "s1 begin\n",
        reads: &[0],
        writes: &[],
        status: 5,
        told: "input fault\n",
        printed: "",
    },
    Case {
        text: "s1 begin\ns1 commit\n",
        reads: &[],
        writes: &[1],
        status: 6,
        told: "output fault\n",
        printed: "ok\n",
    },
];

#[test]
fn what_a_script_writes_is_forgotten(rt: HostRuntime) {
    let alloc = rt.alloc();
    let device = written(&rt, alloc);
    for case in ON_WRITTEN {
        let disk = comes_out(&rt, alloc, &device, *case);
        let _ = runs(&rt, alloc, disk, &[("read|t|a", 0, "", "1\n")]);
    }
}
